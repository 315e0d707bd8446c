//! What reads each stream, found by what it asks of a tuple.
//!
//! Contracts see a `Target` as an edge by the number of the state it leads to, or as an end by its `EndPlace`,
//! and `Readers` as the list of what reads each stream, by its number: the targets of its roots with the fixed
//! parts under which each is found, and the numbers of the states that wait on it without a key to find them,
//! with theirs. They see `KeyReaders` as the keys at each attribute of each stream, each with the numbers of the
//! states to which it leads, and `Found` as its lists.
#![tactic(auto)]

mod changing;
mod filing;
mod key_readers;
mod leading;
mod leaving;
mod making;
mod naming;
mod reader;
mod readers;
mod slots;
mod streams;
mod sweeping;
mod target;
mod target_index;
mod target_places;

pub use key_readers::KeyReaders;
pub use leading::lead_key;
pub use reader::Reader;
pub use readers::{Found, Readers};
pub use target::{EndPlace, Target, Targets};
