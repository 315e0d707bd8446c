//! The canonical text of query files.
#![tactic(auto)]

mod appending;
mod items;
mod laws;
mod places;
mod predicates;
mod printer;
mod scalars;
mod sources;
mod statements;

pub use laws::{canonical_is_best, canonical_is_read};
pub use printer::{print, print_one};
