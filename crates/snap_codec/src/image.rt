//! What a snapshot has.

use event_types::{List, Text, Tuple};

/// A tuple of the open epoch.
#[derive(Drop)]
pub struct Open {
    /// The place of its declared stream in the text, from 0.
    pub place: u64,
    pub tuple: Tuple,
}

/// The tuples of the open epoch.
pub type Opens = List<Open>;

/// A binding that waits at a state.
#[derive(Drop)]
pub struct Item {
    /// The detection time of the tuple of the root stream with which it began.
    pub first: u64,
    pub tuple: Tuple,
}

/// What waits at a state.
pub type Items = List<Item>;

/// What waits at each state.
pub type Stores = List<Items>;

/// Times, of which each may be none.
pub type Times = List<Option<u64>>;

/// What a run needs to go on: its queries with their births, the times, the events of the open epoch, and what waits.
#[derive(Drop)]
pub struct Image {
    /// The declarations in file order and then the queries in print order, in canonical text.
    pub text: Text,
    /// The births of the queries, in print order.
    pub births: Times,
    /// The last time that is closed.
    pub last: Option<u64>,
    /// The time of the open epoch.
    pub opened: Option<u64>,
    /// The events of the open epoch; those of a run are sorted.
    pub events: Opens,
    /// What waits at each state, in the order in which the queries' lines first reach the states; that of a run is sorted.
    pub stores: Stores,
}
