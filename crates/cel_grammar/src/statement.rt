//! Statements: declarations of streams, and queries.
use crate::source::{Items, Source};
use event_types::{Kind, List, Text};

/// An attribute of a declaration.
#[derive(Drop)]
pub struct Attr {
    pub name: Text,
    pub kind: Kind,
}

/// The attributes of a declaration, in order.
pub type Attrs = List<Attr>;

/// A statement: `STREAM name (attrs)`, or `SELECT items FROM source PUBLISH name`.
pub enum Statement {
    Stream {
        name: Text,
        attrs: Attrs,
    },
    Query {
        items: Items,
        source: Source,
        name: Text,
    },
}

// As of a scalar.
impl Drop for Statement {
    fn drop(self) {
        match self {
            Statement::Stream {
                name: _name,
                attrs: _attrs,
            } => {}
            Statement::Query {
                items: _items,
                source: _source,
                name: _name,
            } => {}
        }
    }
}
