//! The turns of streams in the order of work.
ghost use Rattle.std.specs.Prelude.{◌≡◌, ◌<◌, ◌≤◌, ℕ, false, true, IfOk, OnOk, Some, length, slice_index_or};
ghost use Rattle.std.specs.List.{All};
ghost use Rattle.epoch_draft.specs.Agenda.{AreTold, AreTurns, StayTold, read_at};
ghost use Rattle.epoch_draft.specs.Filling.{IsLengthened};
ghost use Rattle.epoch_draft.specs.Turns.{StandOnce};

use crate::filling::lengthen;
use crate::turns::Turns;
use automaton::Network;
use event_types::{List, Memory, StreamId};
use long_lists::LongNumbers;
use std::alloc::Global;

/// By the stream's number its turn in the order of work, and whether a state reads it. A stream that isn't of the order
/// may have any turn, and one that no state reads any more may still be told as read.
#[derive(Drop)]
pub struct StreamTurns {
    pub turns: Turns,
    pub read: List<bool>,
}

impl StreamTurns {
    /// The turns of so many streams, by the order and the states of a network.
    pub fn make(
        alloc: Global,
        network: &Network,
        order: &LongNumbers,
        streams: usize,
    ) -> Result<StreamTurns, Memory>
        requires below { All (λ stream. stream < streams) order.now }
        requires once { StandOnce order.now }
        ensures { IfOk result (AreTurns network.now order.now streams) }
    {
        let mut turns = StreamTurns {
            turns: Turns::new(alloc),
            read: List::new(alloc),
        };
        turns.grow(streams)?;
        turns.turns.arrange(order, 0);
        for state in 0..network.places() {
            turns.tell_of(network, state);
        }
        Ok(turns)
    }

    /// Makes room for so many streams, of which those that come are read by no state. After want of memory there may be
    /// room for more than before.
    pub fn grow(&mut self, streams: usize) -> Result<(), Memory>
        ensures turns { IsLengthened 0 self.old.turns.given self.new.turns.given }
        ensures last { self.new.turns.last ≡ self.old.turns.last }
        ensures read { IsLengthened false self.old.read self.new.read }
        ensures many_turns { OnOk result (streams ≤ length self.new.turns.given) }
        ensures many_read { OnOk result (streams ≤ length self.new.read) }
    {
        self.turns.grow(streams)?;
        lengthen(&mut self.read, streams, false)
    }

    /// Tells the streams that the states with these numbers read. Takes no memory.
    pub fn tell(&mut self, network: &Network, states: &[usize])
        requires { All (λ state. state < length network.now) states.now }
        ensures told { AreTold network.now states.now self.old.read self.new.read }
        ensures turns { self.new.turns ≡ self.old.turns }
    {
        for state in states {
            self.tell_of(network, *state);
        }
    }

    // Tells the stream that a state reads.
    fn tell_of(&mut self, network: &Network, state: usize)
        requires { state < length network.now }
        ensures told { (stream : ℕ) → read_at network.now state ≡ Some stream → stream < length self.new.read → slice_index_or self.new.read stream false ≡ true }
        ensures stay { StayTold self.old.read self.new.read }
        ensures turns { self.new.turns ≡ self.old.turns }
    {
        match stream_of(network, state) {
            Some(stream) if stream < self.read.len() => *self.read.get_mut(stream) = true,
            _ => {}
        }
    }
}

// The stream that a state reads.
fn stream_of(network: &Network, number: usize) -> Option<StreamId>
    requires { number < length network.now }
    ensures { result ≡ read_at network.now number }
{
    if !network.used(number) {
        return None;
    }
    match network.root(number) {
        Some(stream) => Some(stream),
        None => match network.wait(number) {
            Some(wait) => Some(wait.stream),
            None => None,
        },
    }
}
