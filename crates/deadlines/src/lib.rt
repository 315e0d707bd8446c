//! Deadlines by place, of which the earliest is known at once.
//!
//! Contracts see `Deadlines` as the list of the deadlines, one for each place.
#![tactic(auto)]

mod deadlines;
mod tournament;

pub use deadlines::{Deadlines, NEVER};
