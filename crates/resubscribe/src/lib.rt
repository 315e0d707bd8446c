//! The order in which queries that read one another are worked on.
//!
//! Contracts see `Reads` as a list of lists: for each query by its number the numbers of the queries
//! that it reads.
#![tactic(auto)]

mod blocking;
mod fault;
mod laws;
mod marked;
mod ordering;
mod walking;

pub use fault::OrderFault;
pub use laws::{one_outcome, others_keep_their_order, some_outcome};
pub use ordering::{Reads, order};
