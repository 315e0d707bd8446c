//! Long lists from which items leave at any place.
//!
//! Contracts see a `LongList` as the list of its items, a `LongSums` as the list of its numbers, and a `FreeNumbers`
//! as the list of what is free, `true` at the place of each free number.
#![tactic(auto)]

mod blocks;
mod free_numbers;
mod long_list;
mod long_sums;
mod nodes;
mod sum_tree;

pub use free_numbers::FreeNumbers;
pub use long_list::{LongList, LongNumbers};
pub use long_sums::LongSums;
