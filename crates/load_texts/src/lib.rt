//! The texts of the load generator: queries and events that a seed and a number of events give.
//!
//! Contracts see `Lines` as the bytes of the lines that are still to be made, and an `EventText` as the bytes
//! of the text that are still to be handed out.
#![tactic(auto)]

mod draws;
mod epochs;
mod laws;
mod lines;
mod queries;
mod text;

pub use epochs::epoch_count;
pub use laws::event_texts_are_short;
pub use queries::{query_count, query_text};
pub use text::{EventText, PIECE, event_text};
