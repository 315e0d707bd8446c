//! The turns of streams along an order.
ghost use Rattle.std.specs.Prelude.{◌≡◌, ◌+◌, ◌^◌, ◌<◌, ◌≤◌, ◌⊎◌, [], OnOk, length, take};
ghost use Rattle.std.specs.List.{All};
ghost use Rattle.epoch_draft.specs.Filling.{IsLengthened};
ghost use Rattle.epoch_draft.specs.Turns.{GivesTurn, HaveTurns, StandOnce, turn_of};

use crate::filling::lengthen;
use event_types::{List, Memory, Numbers, StreamId};
use long_lists::LongNumbers;
use std::alloc::Global;

/// By the stream's number its turn, counted from 1, and the last turn that was given. Turns rise along an order, so that
/// the streams that stay keep theirs where others leave it. A stream that isn't in the order may have any turn, or 0.
#[derive(Drop)]
pub struct Turns {
    pub given: Numbers,
    pub last: usize,
}

impl Turns {
    /// The turns of no stream. Takes no memory.
    pub fn new(alloc: Global) -> Turns
        ensures given { result.given ≡ [] }
        ensures last { result.last ≡ 0 }
    {
        Turns {
            given: List::new(alloc),
            last: 0,
        }
    }

    /// Makes room for so many streams. After want of memory there may be room for more than before.
    pub fn grow(&mut self, streams: usize) -> Result<(), Memory>
        ensures more { IsLengthened 0 self.old.given self.new.given }
        ensures last { self.new.last ≡ self.old.last }
        ensures many { OnOk result (streams ≤ length self.new.given) }
    {
        lengthen(&mut self.given, streams, 0)
    }

    /// The turn of a stream.
    #[inline(always)]
    pub fn turn(&self, stream: StreamId) -> usize
        requires { stream < length self.now.given }
        ensures { result ≡ turn_of self.now stream }
    {
        *self.given.get(stream)
    }

    /// Gives the streams of an order from a place on turns behind all others. Takes no memory.
    pub fn arrange(&mut self, order: &LongNumbers, from: usize)
        requires below { All (λ stream. stream < length self.old.given) order.now }
        requires once { StandOnce order.now }
        requires before { HaveTurns (take from order.now) self.old }
        ensures in_turn { HaveTurns order.now self.new }
        ensures as_many { length self.new.given ≡ length self.old.given }
    {
        let end = order.len();
        let start = self.start(from, end);
        for place in start..end {
            self.give(*order.get(place));
        }
    }

    /// The place from which the streams of an order up to another place are given turns: this one, or 0 where so many
    /// turns aren't left. Then all begin anew.
    pub fn start(&mut self, from: usize, end: usize) -> usize
        ensures start { (result ≡ 0) ⊎ ((result ≡ from) × (self.new.last ≡ self.old.last)) }
        ensures left { self.new.last + end < 2 ^ 64 }
        ensures given { self.new.given ≡ self.old.given }
    {
        if end > usize::MAX - self.last {
            self.last = 0;
            return 0;
        }
        from
    }

    /// Gives a stream the next turn.
    pub fn give(&mut self, stream: StreamId)
        requires stream { stream < length self.old.given }
        requires left { self.old.last + 1 < 2 ^ 64 }
        ensures { GivesTurn stream self.old self.new }
    {
        self.last += 1;
        *self.given.get_mut(stream) = self.last;
    }
}
