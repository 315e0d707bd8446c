//! The closing of an epoch in two halves, of which the engine is made. The first half draws: it makes
//! all tuples, beads and pairs of the epoch, and changes no store; then it makes room in the stores for the
//! beads, and changes no instance. The second half settles: it takes what was matched out of the stores, puts
//! the beads in and purges, and takes no memory. Here too are the stores of a network: they are made, counted
//! and purged whole.
//!
//! `draw` reads a `StoredNetwork` and changes a `Drawing` alone, and the count of steps; `settle` goes by a `ClosingEpoch`.
//!
//! Contracts see a `Made` as the list of the streams' lists of tuples, and each other public type as its fields. A `Drawing` is a `Draft`, its pairs, and lists that are used anew. A `Draft` is
//! the tuples made for each derived stream, the beads made for each state as a list of instances, and the `Marks` of the
//! streams and the states that have some. `Marks` are flags by number and the numbers whose flags are up, each once. A
//! `Pair` is the number of a waiting state and a tuple by its stream and its place there. A `PlacedTuples` shows what a
//! `Made` keeps: tuples, and for each stream the places of its own.
//!
//! Each half states a bound on its tests of conditions, whatever it answers. Both together test no more than
//! `epoch_work` says of the tuples of the epoch.
#![tactic(auto)]

mod agenda;
mod behind;
mod draft;
mod drawing;
mod filling;
mod going;
mod made;
mod making;
mod marks;
mod matching;
mod meeting;
mod passing;
mod placing;
mod purging;
mod readying;
mod settling;
mod spare;
mod stored_network;
mod stores;
mod stream_turns;
mod turns;
mod waiting_state;
mod watching;

pub use draft::{Draft, Lists, Pair, Pairs};
pub use drawing::Drawing;
pub use filling::{lengthen, lengthen_lists};
pub use made::{Made, PlacedTuples};
pub use making::draw;
pub use marks::Marks;
pub use purging::purge_all;
pub use readying::make_room;
pub use settling::{ClosingEpoch, settle};
pub use stored_network::StoredNetwork;
pub use stores::{Stores, empty_stores, stored};
pub use stream_turns::StreamTurns;
pub use turns::Turns;
