//! The plan of a query text: what each query publishes and reads, in the order of work.
#![tactic(auto)]

mod lines;
mod planning;
mod reads;

pub use planning::plan;
