//! What the tuples of an epoch meet.
use crate::stores::Stores;
use crate::stream_turns::StreamTurns;
use automaton::{Layout, Network};
use stream_readers::{KeyReaders, Readers};

/// All that `draw` reads besides the open tuples: a network and its layout, what reads each
/// stream, the turns of streams in the order of work, and the stores with the keys that lead to their states.
#[derive(Drop)]
pub struct StoredNetwork<'a> {
    pub network: &'a Network,
    pub layout: &'a Layout,
    pub readers: &'a Readers,
    pub turns: &'a StreamTurns,
    pub keys: &'a KeyReaders,
    pub stores: &'a Stores,
}
