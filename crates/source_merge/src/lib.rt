//! Event files of which each may lag behind, merged into one history.
//!
//! Contracts see a `Merger` as the lateness that it allows, its files as far as they were read, the events that it
//! holds, in their order, and how many it took (`Merging`).
#![tactic(auto)]

mod fault;
mod held;
mod laws;
mod merger;
mod rank;
mod source;

pub use fault::TakeFault;
pub use laws::{
    given_events_are_a_front_of_the_settled_ones, merged_events_are_those_taken,
    merges_follow_the_turns, merges_stand_to_their_turns,
    settled_events_are_given_once_and_in_order, turns_are_those_of_the_earliest_files,
    turns_end_in_one_way, turns_stay_as_files_go_on, turns_take_lines_in_their_order,
};
pub use merger::Merger;
