//! Instances, and stores in which they wait for their nexts.
//!
//! Contracts see an `Instance` as its tuple and the detection time with which it began, a store that is
//! `Waiting` as its condition, its key, its instances and the keys that are ready, and a `PlainStore` as its
//! condition and its instances.
#![tactic(auto)]

mod births;
mod bounds;
mod contents;
mod eligibility;
mod expiry;
mod instance;
mod plain_store;
mod spent;
mod waiting;

pub use births::keep_after;
pub use bounds::{earliest_alive, keep_alive};
pub use contents::{add_copies, count_of};
pub use eligibility::{can_follow_found, take_eligible};
pub use expiry::{expires_at, purged_until};
pub use instance::{Instance, Instances};
pub use plain_store::PlainStore;
pub use spent::SpentBeads;
pub use waiting::Waiting;
