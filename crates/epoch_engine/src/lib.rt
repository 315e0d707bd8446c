//! The engine, which keeps the bindings that wait and closes one epoch after another.
//!
//! Contracts see an `Engine` as its network and layout, the instances of each state, the open tuples of
//! each stream, the open epoch and the last closed time (`EngineView`), and a `Batch` as the list of the printed
//! streams that have results, each with its tuples. `Printed` is seen as its fields.
#![tactic(auto)]

mod adding;
mod batch;
mod closing;
mod engine;
mod epoch;
mod fault;
mod fitting;
mod holdings;
mod laws;
mod listing;
mod plan;
mod prints;
mod removing;
mod room;
mod spare;

pub use batch::{Batch, Printed};
pub use engine::Engine;
pub use fault::OfferFault;
pub use laws::{
    added_lines_are_there, batch_is_streams, born_lines_are_its_own, closed_stands,
    fewer_ask_for_less, new_stands, offered_stands, other_lines_stay, stored_are_there,
    stored_ask_for_all, trimmed_is_counted, trimmed_stands, unborn_are_counted,
    waiting_ask_for_all,
};
