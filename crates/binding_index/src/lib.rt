//! Stores that find the instances of an event by a key.
//!
//! Contracts see a `KeyedStore` as its condition, its key, the keys that are ready, in their order, and its
//! instances, key by key. They see a `Store` as the store that it is, and a `Directory` as the list of its
//! keys, each with the numbers of the states to which it leads.
#![tactic(auto)]

mod arranging;
mod bucket;
mod buckets;
mod cutting;
mod directory;
mod emptied;
mod entries;
mod expiring;
mod key;
mod keyed_store;
mod near;
mod store;

pub use directory::Directory;
pub use key::{KeyPart, first_key};
pub use keyed_store::KeyedStore;
pub use store::Store;
