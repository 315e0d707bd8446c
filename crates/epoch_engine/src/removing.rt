//! Lines that leave an engine.
ghost use Rattle.std.specs.Prelude.{◌≡◌, ◌≢◌, ◌<◌, ◌≤◌, None, All, AllPairs, length};
ghost use Rattle.automaton.specs.Layouts.{shrunk};
ghost use Rattle.prefix_merge.specs.Merging.{HasEnd};
ghost use Rattle.epoch_engine.specs.Adding.{Drops, FitsWithout};

use crate::engine::Engine;
use crate::room::fit_room;
use automaton::Shrinkage;
use event_types::Numbers;

impl Engine {
    /// Takes the lines of these ends away, with what waits at states that no other line has. The layout without the part is
    /// one for the lines that stay. It costs its ends, the states that leave and what waits there; keys that lead to these
    /// stay, and are forgotten in a later closing. Memory is asked for, for the numbers of the states that leave, and where
    /// it is wanting all states are looked at.
    pub fn remove(&mut self, ends: &Numbers, part: Shrinkage)
        requires closed { self.old.time ≡ None }
        requires apart { AllPairs (λ end other. end ≢ other) ends.now }
        requires there { All (HasEnd self.old.network) ends.now }
        requires up { part.first ≤ part.end }
        requires within { part.end ≤ length self.old.layout.order }
        requires printed { part.out < length self.old.layout.outs }
        requires fits { FitsWithout self.old.network ends.now (shrunk self.old.layout part) }
        ensures { Drops ends.now (shrunk self.old.layout part) self.old self.new }
    {
        self.holdings.left.clear();
        self.plan
            .merged
            .remove_first(ends, ends.len(), &mut self.holdings.left);
        self.holdings.shrink(self.plan.merged.network());
        self.epoch.close();
        let stream = *self.plan.layout.outs.get(part.out);
        self.plan.layout.shrink(part);
        self.plan.leave(stream);
        fit_room(&mut self.room, &self.plan);
    }
}
