//! The two files that a run reads.

/// The file of the queries or the file of the events.
#[derive(Clone, Copy, Debug, PartialEq, Eq, Drop)]
pub enum Side {
    Queries,
    Events,
}
