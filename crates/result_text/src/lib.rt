//! Result lines: the text of a query's results.
//!
//! Contracts see a `Front` as its bytes, `Rows` as the bytes of its lines, and `Tails` as the bytes of its tails.
#![tactic(auto)]

mod decimals;
mod fields;
mod front;
mod lately;
mod quick;
mod rows;
mod tails;

pub use decimals::append_decimal;
pub use front::{Front, Fronts};
pub use lately::Lately;
pub use rows::{Rows, row};
pub use tails::Tails;
