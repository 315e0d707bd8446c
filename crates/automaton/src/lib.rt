//! Lines of steps and waits, the networks that they make, and what flows along both.
//!
//! Contracts see a `Network` as its states by number, with nothing at a number that no state has.
#![tactic(auto)]

mod equality;
mod growth;
mod laws;
mod layout;
mod line;
mod network;
mod plain;
mod step;
mod typing;
mod wait;

pub use growth::{Growth, Shrinkage, Sizes};
pub use laws::{
    added_lines_change_no_stream, added_lines_stand_alone, added_lines_stay_in_order,
    streams_are_derived,
};
pub use layout::Layout;
pub use line::{Hop, Hops, Line, Lines};
pub use network::{End, Ends, Entrance, Network, State};
pub use step::{Stage, Step};
pub use wait::{Turn, Wait};
