//! Lists of numbers that are mostly short.
//!
//! Contracts see a `ShortList` as the list of its numbers.
#![tactic(auto)]

mod short_list;

pub use short_list::ShortList;
