//! The engine.
ghost use Rattle.std.specs.Prelude.{◌≡◌, ◌+◌, ◌-◌, ◌^◌, ◌≤◌, ℕ, [], min, IfNone, IfOk, IfSome, IsSome, OnErr, OnOk};
ghost use Rattle.automaton.specs.NetworkLines.{NetworkFits};
ghost use Rattle.prefix_merge.specs.Merging.{IsMerged};
ghost use Rattle.semantics.specs.Denotation.{streams_of};
ghost use Rattle.epoch_draft.specs.EpochWork.{epoch_work};
ghost use Rattle.epoch_engine.specs.Closes.{Closes, KeepsPlan};
ghost use Rattle.epoch_engine.specs.Counts.{stored_in};
ghost use Rattle.epoch_engine.specs.EngineView.{stores_in};
ghost use Rattle.epoch_engine.specs.Offers.{IsAnswer, IsHeard, IsLate, IsNotAhead, with_tuple};
ghost use Rattle.epoch_engine.specs.Starts.{IsNew};
ghost use Rattle.epoch_engine.specs.Trims.{Trims};
ghost use Rattle.epoch_engine.specs.WorkLaws.{RisesByWork};

use crate::batch::Batch;
use crate::closing::take_epoch;
use crate::epoch::Epoch;
use crate::fault::OfferFault;
use crate::holdings::Holdings;
use crate::plan::Plan;
use crate::room::Room;
use automaton::{Layout, Network};
use epoch_draft::{purge_all, stored};
use event_types::{Memory, StreamId, Tuple, Vals};
use prefix_merge::Merged;
use std::alloc::Global;
use std::marker::Model;
use steps::{Ledger, Steps};

/// The bindings that wait at the states of a network, and the tuples of the open epoch.
pub struct Engine {
    pub(crate) plan: Plan,
    pub(crate) holdings: Holdings,
    pub(crate) epoch: Epoch,
    // None while a batch is lent, after a closing was refused, and where memory was wanting.
    pub(crate) room: Option<Box<Room>>,
    closed_time: Option<u64>,
}

// A caller that lets an engine go makes one call, where a derive would take each part apart at each place.
impl Drop for Engine {
    fn drop(self) {
        let Engine {
            plan: _plan,
            holdings: _holdings,
            epoch: _epoch,
            room: _room,
            closed_time: _,
        } = self;
    }
}

impl Model for Engine {
    ghost use Rattle.epoch_engine.specs.EngineView.{EngineView};

    ghost Value = { EngineView };

    ghost use Rattle.epoch_engine.specs.ViewCode.{view_code};

    ghost coded = { view_code };

    ghost use Rattle.std.specs.Prelude.{map};
    ghost use Rattle.epoch_draft.specs.Held.{instances_in};
    ghost use Rattle.epoch_engine.specs.Running.{IsEngine};

    ghost view = { λ e. record { network = e.plan.merged; layout = e.plan.layout; stores = map instances_in e.holdings.stores; opened = e.epoch.tuples; time = e.epoch.time; closed_time = e.closed_time } };

    ghost invariant = { λ e. IsEngine e.plan e.holdings e.epoch e.room };
}

impl Engine {
    /// An engine over a merged network and a layout that fit, which has heard nothing. Want of memory drops
    /// both.
    pub fn make(alloc: Global, merged: Merged, layout: Layout) -> Result<Engine, Memory>
        requires { NetworkFits merged layout }
        ensures { IfOk result (λ engine. IsNew merged layout engine) }
    {
        let plan = Plan::make(alloc, merged, layout)?;
        let holdings = Holdings::make(alloc, plan.merged.network())?;
        let epoch = Epoch::make(alloc, plan.layout.kinds.len())?;
        let room = Room::make(alloc, &plan)?;
        Ok(Engine {
            plan,
            holdings,
            epoch,
            room: Some(room),
            closed_time: None,
        })
    }

    /// The open epoch.
    pub fn open_time(&self) -> Option<u64>
        ensures { result ≡ self.now.time }
    {
        self.epoch.time
    }

    /// The last closed time, if an epoch was closed. Takes no memory.
    pub fn last_closed(&self) -> Option<u64>
        ensures { result ≡ self.now.closed_time }
    {
        self.closed_time
    }

    /// The merged network. Takes no memory.
    pub fn network(&self) -> &Network
        ensures value { result.now ≡ self.now.network }
        ensures merged { IsMerged self.now.network }
    {
        self.plan.merged.network()
    }

    /// The layout. Takes no memory.
    pub fn layout(&self) -> &Layout
        ensures { result.now ≡ self.now.layout }
    {
        &self.plan.layout
    }

    /// The number of the instances that are stored, or 2^64-1 where there are more. Takes no memory.
    pub fn live(&self) -> u64
        ensures { result ≡ min (stored_in self.now) (2 ^ 64 - 1) }
    {
        stored(&self.holdings.stores)
    }

    /// Takes out each instance that no event after the last closed epoch can match, as far as the bounds on
    /// DUR tell, and each that began too early for every end that uses its state. Takes no memory.
    pub fn trim(&mut self)
        ensures { Trims self.old self.new }
    {
        if let Some(time) = self.closed_time {
            purge_all(self.plan.merged.network(), &mut self.holdings.stores, time);
        }
    }

    /// An empty list of values, with the room that those of a closed epoch had, if one is left. Takes no memory.
    pub fn take_spare(&mut self) -> Option<Vals>
        ensures value { IfSome result (λ vals. vals ≡ []) }
        ensures kept { self.new ≡ self.old }
    {
        self.epoch.spare.take()
    }

    /// Takes a tuple of a declared stream. Its detection time opens an epoch where none is open.
    #[inline(always)]
    pub fn offer(&mut self, stream: StreamId, tuple: Tuple) -> Result<(), OfferFault>
        requires heard { IsHeard self.old.layout stream tuple }
        requires in_time { IsNotAhead self.old.time tuple.at }
        ensures answer { IsAnswer self.old tuple result }
        ensures ok { OnOk result (self.new ≡ with_tuple self.old stream tuple) }
        ensures kept { OnErr result (self.new ≡ self.old) }
    {
        let at = tuple.at();
        match late(self.epoch.time, self.closed_time, at) {
            Some(seen) => Err(OfferFault::OutOfOrder { at, seen, tuple }),
            None => match self.epoch.add(stream, tuple) {
                Ok(()) => {
                    self.epoch.time = Some(at);
                    Ok(())
                }
                Err(tuple) => Err(OfferFault::Memory { tuple }),
            },
        }
    }

    /// Closes the open epoch, and gives its results. Want of memory leaves the engine as it was: the epoch is
    /// open still, and may be closed again.
    #[inline(always)]
    pub fn close<L: Ledger>(&mut self, alloc: Global, steps: &mut Steps<L>) -> Result<Batch, Memory>
        requires opened { IsSome self.old.time }
        ensures closed { IfOk result (λ batch. Closes self.old self.new batch) }
        ensures plan { KeepsPlan self.old self.new }
        ensures kept { OnErr result (self.new ≡ self.old) }
        ensures ticks { steps.new ≤ steps.old + epoch_work self.old.network self.old.layout (stores_in self.old) (streams_of self.old.opened) }
        ensures work { RisesByWork self.old steps.old steps.new }
    {
        self.plan.refresh(alloc)?;
        let mut room = match self.room.take() {
            Some(room) => room,
            None => Room::make(alloc, &self.plan)?,
        };
        take_epoch(
            &self.plan,
            &mut self.holdings,
            &self.epoch,
            &mut room,
            steps,
        )?;
        self.closed_time = self.epoch.time;
        self.epoch.close();
        Ok(Batch::make(room))
    }

    /// Takes a batch back whose results were read, so that the next closing needs no new room. A batch of another
    /// network is dropped. Takes no memory.
    pub fn take_back(&mut self, batch: Batch)
        ensures { self.new ≡ self.old }
    {
        let mut room = batch.into_room();
        if room.clear_for(&self.plan) {
            self.room = Some(room);
        }
    }
}

// The open epoch or the last closed time, where a detection time is late for it.
fn late(time: Option<u64>, closed_time: Option<u64>, at: u64) -> Option<u64>
    ensures late { IfSome result (λ seen. IsLate time closed_time at seen) }
    ensures in_time { IfNone result ((seen : ℕ) → IsLate time closed_time at seen → ⊥) }
{
    match (time, closed_time) {
        (Some(open), _) if at < open => Some(open),
        (None, Some(last)) if at <= last => Some(last),
        _ => None,
    }
}
