//! Schemas, and the table of streams by name.
//!
//! Contracts see an `Attribute` as its name and its kind, and a `Schema` as the list of its attributes, where
//! the names are distinct and at most 256. They see `Streams` as the list of its streams by number, each a name, a
//! schema and whether it is declared, where the names are distinct. The name of a stream that is retired or hidden
//! is one that no text has.
#![tactic(auto)]

mod attribute;
mod fault;
mod joining;
mod schema;
mod streams;

pub use attribute::{Attribute, first_place};
pub use fault::SchemaFault;
pub use joining::join;
pub use schema::Schema;
pub use streams::Streams;
