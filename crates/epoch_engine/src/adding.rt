//! Lines that come to an engine.
ghost use Rattle.std.specs.Prelude.{◌≡◌, ◌≢◌, ◌<◌, ◌≤◌, ◌-◌, ◌++◌, None, All, AllPairs, OnErr, OnOk, length, replicate, take};
ghost use Rattle.automaton.specs.Layouts.{grown};
ghost use Rattle.prefix_merge.specs.Merging.{HasEnd, IsSettled};
ghost use Rattle.epoch_engine.specs.Adding.{Adds, FitsWith};
ghost use Rattle.epoch_engine.specs.Fitting.{AreGrown, HaveStoresBut, KeepStores};
ghost use Rattle.epoch_engine.specs.Planning.{BeginsWith, GrowsRoom, HasRoom};
ghost use Rattle.epoch_engine.specs.Running.{AreTouched};

use crate::engine::Engine;
use crate::epoch::Epoch;
use crate::holdings::Holdings;
use crate::plan::Plan;
use crate::room::fit_room;
use automaton::{Growth, Lines};
use deadlines::NEVER;
use event_types::{Memory, Numbers};
use std::alloc::Global;

impl Engine {
    /// Adds lines whose queries were born at the last closed time, each with the end number at its place. The grown layout
    /// is one for all lines then. Want of memory drops the growth and leaves the engine as it was.
    pub fn add(
        &mut self,
        alloc: Global,
        lines: &Lines,
        ends: &Numbers,
        since: Option<u64>,
        growth: Growth,
    ) -> Result<(), Memory>
        requires closed { self.old.time ≡ None }
        requires since { since ≡ self.old.closed_time }
        requires as_many { length ends.now ≡ length lines.now }
        requires apart { AllPairs (λ end other. end ≢ other) ends.now }
        requires fresh { All (λ end. ¬ HasEnd self.old.network end) ends.now }
        requires fits { FitsWith self.old.network lines.now (grown self.old.layout growth) }
        ensures added { OnOk result (Adds lines.now ends.now since (grown self.old.layout growth) self.old self.new) }
        ensures kept { OnErr result (self.new ≡ self.old) }
    {
        let worked = self.plan.layout.order.len();
        let printed = self.plan.layout.outs.len();
        let streams = self.plan.layout.kinds.len();
        let came = self.plan.merged.insert_all(lines, ends, since)?;
        match make_room(
            alloc,
            &mut self.plan,
            &mut self.holdings,
            &mut self.epoch,
            &came,
            growth,
        ) {
            Ok(()) => {
                self.plan.go_over(came.as_slice(), worked, printed);
                self.epoch.close();
                fit_room(&mut self.room, &self.plan);
                Ok(())
            }
            Err(fault) => {
                self.plan
                    .merged
                    .remove_first(ends, ends.len(), &mut self.holdings.left);
                self.holdings.left.clear();
                self.holdings.drop_left(self.plan.merged.network());
                self.plan.layout.order.truncate(worked);
                self.plan.layout.outs.truncate(printed);
                self.plan.layout.kinds.truncate(streams);
                Err(fault)
            }
        }
    }
}

// Makes room for the states that came to a plan's network, and for the streams by which its layout grows.
fn make_room(
    alloc: Global,
    plan: &mut Plan,
    holdings: &mut Holdings,
    epoch: &mut Epoch,
    came: &Numbers,
    growth: Growth,
) -> Result<(), Memory>
    requires stores { length holdings.old.stores ≤ length plan.old.merged }
    requires deadlines { length holdings.old.deadlines ≡ length holdings.old.stores }
    requires touched { AreTouched epoch.old.tuples epoch.old.touched }
    requires streams { length epoch.old.tuples ≡ length plan.old.layout.kinds }
    requires below { All (λ state. state < length plan.old.merged) came.now }
    requires came { HaveStoresBut plan.old.merged came.now holdings.old.stores }
    ensures grown { OnOk result (AreGrown plan.old.merged holdings.old.stores holdings.new.stores) }
    ensures deadlines { OnOk result (holdings.new.deadlines ≡ holdings.old.deadlines ++ replicate (length plan.old.merged - length holdings.old.deadlines) NEVER) }
    ensures layout { OnOk result (plan.new.layout ≡ grown plan.old.layout growth) }
    ensures room { OnOk result (HasRoom (length plan.new.layout.kinds) plan.new) }
    ensures as_many { OnOk result (length epoch.new.tuples ≡ length plan.new.layout.kinds) }
    ensures kept { OnErr result (KeepStores plan.old.merged holdings.old.stores holdings.new.stores) }
    ensures begins { BeginsWith plan.old.layout plan.new.layout }
    ensures merged { plan.new.merged ≡ plan.old.merged }
    ensures settled { OnOk result (IsSettled plan.old.merged) }
    ensures more { GrowsRoom plan.old plan.new }
    ensures kept_tuples { OnErr result (epoch.new.tuples ≡ epoch.old.tuples) }
    ensures touched { AreTouched epoch.new.tuples epoch.new.touched }
    ensures time { epoch.new.time ≡ epoch.old.time }
    ensures first { take (length holdings.old.deadlines) holdings.new.deadlines ≡ holdings.old.deadlines }
    ensures keys { holdings.new.keys ≡ holdings.old.keys }
{
    let had = plan.layout.kinds.len();
    let Some(streams) = had.checked_add(growth.kinds.len()) else {
        return Err(Memory);
    };
    plan.grow(streams)?;
    plan.layout.grow(growth)?;
    holdings.grow(alloc, plan.merged.network(), came)?;
    epoch.grow(alloc, streams)
}
