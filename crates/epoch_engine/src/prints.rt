//! The turns of the streams that are printed.
ghost use Rattle.std.specs.Prelude.{◌≡◌, ◌≢◌, ◌+◌, ◌^◌, ◌<◌, ◌≤◌, ◌⊎◌, ℕ, Contains, IsTrue, OnOk, [], drop, length, take};
ghost use Rattle.std.specs.List.{All};
ghost use Rattle.epoch_draft.specs.Filling.{IsLengthened};
ghost use Rattle.epoch_draft.specs.Turns.{HaveTurns, turn_of};
ghost use Rattle.epoch_engine.specs.Prints.{AreInTurn, HasLeft, OthersHaveNone};

use epoch_draft::Turns;
use event_types::{Memory, StreamId};
use long_lists::LongNumbers;
use std::alloc::Global;

/// By the stream's number its turn in print order. A stream that isn't printed has none, which is told as 0. Where a
/// stream is printed more than once, `are_once` is down, and the turns tell no order.
#[derive(Drop)]
pub struct Prints {
    pub turns: Turns,
    pub are_once: bool,
}

impl Prints {
    /// No stream is printed. Takes no memory.
    pub(crate) fn new(alloc: Global) -> Prints
        ensures { AreInTurn [] result.turns }
    {
        Prints {
            turns: Turns::new(alloc),
            are_once: true,
        }
    }

    /// Makes room for so many streams. After want of memory there may be room for more than before.
    pub(crate) fn grow(&mut self, streams: usize) -> Result<(), Memory>
        ensures more { IsLengthened 0 self.old.turns.given self.new.turns.given }
        ensures last { self.new.turns.last ≡ self.old.turns.last }
        ensures long { OnOk result (streams ≤ length self.new.turns.given) }
        ensures once { self.new.are_once ≡ self.old.are_once }
    {
        self.turns.grow(streams)
    }

    /// Gives the printed streams their turns, from one place on, where those before have theirs. Takes no memory.
    pub(crate) fn arrange(&mut self, outs: &LongNumbers, from: usize)
        requires below { All (λ stream. stream < length self.old.turns.given) outs.now }
        requires others { OthersHaveNone outs.now self.old.turns }
        requires before { IsTrue self.old.are_once → AreInTurn (take from outs.now) self.old.turns }
        ensures told { IsTrue self.new.are_once → HaveTurns outs.now self.new.turns }
        ensures others { OthersHaveNone outs.now self.new.turns }
        ensures as_many { length self.new.turns.given ≡ length self.old.turns.given }
    {
        let start = self.begin(outs, from);
        self.are_once = true;
        for place in start..outs.len() {
            self.put(outs, place);
        }
    }

    /// Takes the turn of a stream that is printed no more, at the cost of that stream alone where each was printed once.
    /// Takes no memory.
    pub(crate) fn leave(&mut self, stream: StreamId, outs: &LongNumbers)
        requires stream { stream < length self.old.turns.given }
        requires below { All (λ other. other < length self.old.turns.given) outs.now }
        requires left { HasLeft stream outs.now self.old }
        ensures told { IsTrue self.new.are_once → HaveTurns outs.now self.new.turns }
        ensures others { OthersHaveNone outs.now self.new.turns }
        ensures as_many { length self.new.turns.given ≡ length self.old.turns.given }
    {
        *self.turns.given.get_mut(stream) = 0;
        if !self.are_once {
            self.arrange(outs, 0);
        }
    }

    // The place from which the printed streams are given turns: this one where those before have theirs, or 0, where no
    // stream has one.
    fn begin(&mut self, outs: &LongNumbers, from: usize) -> usize
        requires below { All (λ stream. stream < length self.old.turns.given) outs.now }
        requires others { OthersHaveNone outs.now self.old.turns }
        requires before { IsTrue self.old.are_once → AreInTurn (take from outs.now) self.old.turns }
        ensures told { AreInTurn (take result outs.now) self.new.turns }
        ensures left { self.new.turns.last + length outs.now < 2 ^ 64 }
        ensures as_many { length self.new.turns.given ≡ length self.old.turns.given }
    {
        let start = self.turns.start(from, outs.len());
        if start == 0 || !self.are_once {
            self.forget(outs);
            return 0;
        }
        start
    }

    // Takes the turns of these streams, which are all that have one.
    fn forget(&mut self, outs: &LongNumbers)
        requires below { All (λ stream. stream < length self.old.turns.given) outs.now }
        requires others { OthersHaveNone outs.now self.old.turns }
        ensures none { (stream : ℕ) → turn_of self.new.turns stream ≡ 0 }
        ensures last { self.new.turns.last ≡ self.old.turns.last }
        ensures as_many { length self.new.turns.given ≡ length self.old.turns.given }
    {
        for place in 0..outs.len() {
            *self.turns.given.get_mut(*outs.get(place)) = 0;
        }
    }

    // Gives the stream that is printed at a place the next turn, unless it is printed before.
    fn put(&mut self, outs: &LongNumbers, place: usize)
        requires place { place < length outs.now }
        requires below { All (λ stream. stream < length self.old.turns.given) outs.now }
        requires left { self.old.turns.last + 1 < 2 ^ 64 }
        requires before { IsTrue self.old.are_once → HaveTurns (take place outs.now) self.old.turns }
        requires others { OthersHaveNone (take place outs.now) self.old.turns }
        ensures after { IsTrue self.new.are_once → HaveTurns (take (place + 1) outs.now) self.new.turns }
        ensures others { OthersHaveNone (take (place + 1) outs.now) self.new.turns }
        ensures last { self.new.turns.last ≤ self.old.turns.last + 1 }
        ensures as_many { length self.new.turns.given ≡ length self.old.turns.given }
    {
        let stream = *outs.get(place);
        if self.turns.turn(stream) > 0 {
            self.are_once = false;
            return;
        }
        self.turns.give(stream);
    }
}
