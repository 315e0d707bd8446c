//! The results of queries over all events that were heard, epoch by epoch.
//!
//! Contracts see an `Evaluator` as the tuples that were heard on each declared stream (`HasHeard` says
//! of which events these are), and a list of `Query` as the queries of a program (`program_of`).
#![tactic(auto)]

mod evaluator;
mod laws;
mod publishing;
mod query;

pub use evaluator::Evaluator;
pub use laws::typed_queries_suit;
pub use publishing::Batch;
pub use query::Query;
