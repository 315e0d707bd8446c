//! The order in which queries are worked on, from which a query leaves and none of the others is written anew.
//!
//! Contracts see a `WorkOrder` as the list of the queries' numbers: of so many queries the numbers below, each once.
#![tactic(auto)]

mod order;
mod placing;
mod turns;

pub use order::WorkOrder;
pub use placing::places_in;
