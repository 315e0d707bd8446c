//! Merged networks: lines that begin alike share their states.
//!
//! Contracts see a `Merged` as its network. No two of its states stand for one prefix, and each of them
//! is used by an end. A `Merged` has what reads each stream of its network, too, unless memory was wanting.
#![tactic(auto)]

mod growth;
mod hashing;
mod holders;
mod indexed;
mod laws;
mod left;
mod merged;
mod places;
mod pruning;
mod reading;
mod turns;

pub use laws::{
    lines_are_its_own, lines_come_in_turn, prefixes_are_listed, states_are_counted,
    states_are_listed, states_are_prefixes, taken_back_is_before,
};
pub use left::Left;
pub use merged::Merged;
