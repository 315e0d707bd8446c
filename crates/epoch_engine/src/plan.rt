//! What an engine closes its epochs by.
ghost use Rattle.std.specs.Prelude.{◌≡◌, ◌<◌, [], IfOk, IsTrue, OnOk, length, take};
ghost use Rattle.std.specs.List.{All};
ghost use Rattle.automaton.specs.NetworkLines.{NetworkFits};
ghost use Rattle.epoch_draft.specs.Turns.{HaveTurns};
ghost use Rattle.epoch_engine.specs.Planning.{AreReadBut, GrowsRoom, HasRoom};
ghost use Rattle.epoch_engine.specs.Prints.{AreInTurn, HasLeft, OthersHaveNone};
ghost use Rattle.epoch_engine.specs.Running.{IsPlan};

use crate::prints::Prints;
use automaton::Layout;
use epoch_draft::StreamTurns;
use event_types::{Memory, StreamId};
use prefix_merge::Merged;
use std::alloc::Global;

/// A merged network and its layout, the turns of streams in the order of work, and those of the streams that are printed.
#[derive(Drop)]
pub struct Plan {
    pub merged: Merged,
    pub layout: Layout,
    pub turns: StreamTurns,
    pub prints: Prints,
}

impl Plan {
    /// The plan of a network and a layout that fit. Want of memory drops both.
    pub(crate) fn make(alloc: Global, merged: Merged, layout: Layout) -> Result<Plan, Memory>
        requires { NetworkFits merged layout }
        ensures merged { IfOk result (λ plan. plan.merged ≡ merged) }
        ensures layout { IfOk result (λ plan. plan.layout ≡ layout) }
        ensures is { IfOk result IsPlan }
    {
        let streams = layout.kinds.len();
        let network = merged.network();
        let turns = StreamTurns::make(alloc, network, &layout.order, streams)?;
        let mut prints = Prints::new(alloc);
        prints.grow(streams)?;
        prints.arrange(&layout.outs, 0);
        Ok(Plan {
            merged,
            layout,
            turns,
            prints,
        })
    }

    /// Makes room for so many streams. After want of memory there may be room for more than before.
    pub(crate) fn grow(&mut self, streams: usize) -> Result<(), Memory>
        ensures more { GrowsRoom self.old self.new }
        ensures room { OnOk result (HasRoom streams self.new) }
        ensures merged { self.new.merged ≡ self.old.merged }
        ensures layout { self.new.layout ≡ self.old.layout }
    {
        self.turns.grow(streams)?;
        self.prints.grow(streams)
    }

    /// Goes over to its network and its layout, to which the states with these numbers came: tells what these read, and
    /// gives the streams of the order of work and those that are printed their turns, from one place on in each. Takes no
    /// memory.
    pub(crate) fn go_over(&mut self, came: &[usize], worked: usize, printed: usize)
        requires fits { NetworkFits self.old.merged self.old.layout }
        requires room { HasRoom (length self.old.layout.kinds) self.old }
        requires came { All (λ state. state < length self.old.merged) came.now }
        requires read { AreReadBut self.old came.now }
        requires worked { HaveTurns (take worked self.old.layout.order) self.old.turns.turns }
        requires others { OthersHaveNone self.old.layout.outs self.old.prints.turns }
        requires printed { IsTrue self.old.prints.are_once → AreInTurn (take printed self.old.layout.outs) self.old.prints.turns }
        ensures is { IsPlan self.new }
        ensures merged { self.new.merged ≡ self.old.merged }
        ensures layout { self.new.layout ≡ self.old.layout }
    {
        self.turns.tell(self.merged.network(), came);
        self.turns.turns.arrange(&self.layout.order, worked);
        self.prints.arrange(&self.layout.outs, printed);
    }

    /// Goes over to its network and its layout, which a printed stream has left: takes its turn, at the cost of that stream
    /// alone where each was printed once. Those that stay have theirs. Takes no memory.
    pub(crate) fn leave(&mut self, stream: StreamId)
        requires fits { NetworkFits self.old.merged self.old.layout }
        requires room { HasRoom (length self.old.layout.kinds) self.old }
        requires read { AreReadBut self.old [] }
        requires worked { HaveTurns self.old.layout.order self.old.turns.turns }
        requires stream { stream < length self.old.layout.kinds }
        requires left { HasLeft stream self.old.layout.outs self.old.prints }
        ensures is { IsPlan self.new }
        ensures merged { self.new.merged ≡ self.old.merged }
        ensures layout { self.new.layout ≡ self.old.layout }
    {
        self.prints.leave(stream, &self.layout.outs);
    }

    /// Makes what reads each stream, where want of memory has left it out.
    #[inline(always)]
    pub(crate) fn refresh(&mut self, alloc: Global) -> Result<(), Memory>
        requires { IsPlan self.old }
        ensures is { IsPlan self.new }
        ensures merged { self.new.merged ≡ self.old.merged }
        ensures layout { self.new.layout ≡ self.old.layout }
    {
        self.merged.refile(alloc)
    }
}
