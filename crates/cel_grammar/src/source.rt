//! Sources as they are written: what a query reads, with its items and aggregates.
use crate::predicate::RawPred;
use crate::scalar::Raw;
use event_types::{List, Text};

/// An item of SELECT: `*`, or a scalar under a name. `Price` alone is that attribute under its own name.
#[derive(Drop)]
pub enum Item {
    Star,
    Named(Raw, Text),
}

/// The items of a SELECT, in order.
pub type Items = List<Item>;

/// An aggregate of FOLD: the scalar that the attribute of this name takes.
#[derive(Drop)]
pub struct Agg {
    pub value: Raw,
    pub name: Text,
}

/// The aggregates of a FOLD, in order.
pub type Aggs = List<Agg>;

/// A source: `A NEXT {$2.x = $1.x} B` is `Next` of its condition and the names `A` and `B`.
pub enum Source {
    Name(Text),
    Filter(RawPred, Box<Source>),
    Select(Items, Box<Source>),
    Union(Box<Source>, Box<Source>),
    /// NEXT without a condition has the condition `TRUE`.
    Next(RawPred, Box<Source>, Box<Source>),
    /// The first condition chooses the next event, the second one says whether the iteration goes on.
    Fold(RawPred, RawPred, Aggs, Box<Source>, Box<Source>),
}

// As of a scalar.
impl Drop for Source {
    fn drop(self) {
        match self {
            Source::Name(_name) => {}
            Source::Filter(_pred, _source) => {}
            Source::Select(_items, _source) => {}
            Source::Union(_left, _right) => {}
            Source::Next(_pred, _left, _right) => {}
            Source::Fold(_next, _going_on, _aggs, _left, _right) => {}
        }
    }
}
