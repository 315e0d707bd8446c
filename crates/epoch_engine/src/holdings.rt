//! What an engine keeps from epoch to epoch.
ghost use Rattle.std.specs.Prelude.{◌≡◌, ◌<◌, ◌≤◌, ◌-◌, ◌++◌, All, IfOk, OnErr, OnOk, false, length, replicate, take};
ghost use Rattle.epoch_draft.specs.Led.{AreLed};
ghost use Rattle.epoch_draft.specs.Stores.{AreNewStores};
ghost use Rattle.epoch_draft.specs.Watching.{Watches};
ghost use Rattle.epoch_engine.specs.Fitting.{AreGrown, AreLeft, HaveNoStoresBut, HaveStoresBut, KeepStores};

use crate::fitting::{add_stores, count_keyed, drop_noted, drop_stores};
use automaton::Network;
use deadlines::{Deadlines, NEVER};
use epoch_draft::{Stores, empty_stores};
use event_types::{Memory, Numbers};
use prefix_merge::Left;
use std::alloc::Global;
use stream_readers::KeyReaders;

/// The bindings that wait at the states of a network, the keys that lead to them, and for each state a deadline
/// until which none of its bindings expires; and the states that leave, in a list that is used anew. Keys may lead
/// to states that left, until they are swept.
#[derive(Drop)]
pub struct Holdings {
    pub stores: Stores,
    pub keys: KeyReaders,
    pub deadlines: Deadlines,
    pub left: Left,
}

impl Holdings {
    /// Empty stores for a network.
    pub(crate) fn make(alloc: Global, network: &Network) -> Result<Holdings, Memory>
        ensures stores { IfOk result (λ holdings. AreNewStores network.now holdings.stores) }
        ensures led { IfOk result (λ holdings. AreLed network.now holdings.keys holdings.stores) }
        ensures watches { IfOk result (λ holdings. Watches holdings.deadlines holdings.stores) }
    {
        let stores = empty_stores(alloc, network)?;
        let deadlines = Deadlines::make(alloc, network.places())?;
        Ok(Holdings {
            stores,
            keys: KeyReaders::new(alloc),
            deadlines,
            left: Left::new(alloc),
        })
    }

    /// Adds empty stores for the waiting states that came to a network, which are among those with these numbers. Want of
    /// memory leaves the stores that were there, and maybe some of these.
    pub(crate) fn grow(
        &mut self,
        alloc: Global,
        network: &Network,
        came: &Numbers,
    ) -> Result<(), Memory>
        requires stores { length self.old.stores ≤ length network.now }
        requires deadlines { length self.old.deadlines ≡ length self.old.stores }
        requires below { All (λ state. state < length network.now) came.now }
        requires came { HaveStoresBut network.now came.now self.old.stores }
        ensures grown { OnOk result (AreGrown network.now self.old.stores self.new.stores) }
        ensures kept { OnErr result (KeepStores network.now self.old.stores self.new.stores) }
        ensures deadlines { OnOk result (self.new.deadlines ≡ self.old.deadlines ++ replicate (length network.now - length self.old.deadlines) NEVER) }
        ensures same { OnErr result (self.new.deadlines ≡ self.old.deadlines) }
        ensures keys { self.new.keys ≡ self.old.keys }
    {
        add_stores(alloc, network, &mut self.stores, came.as_slice())?;
        let more = network.places() - self.deadlines.len();
        self.deadlines.grow(alloc, more)
    }

    /// Drops the stores and the deadlines of states that left a network. Takes no memory.
    pub(crate) fn drop_left(&mut self, network: &Network)
        requires stores { length network.now ≤ length self.old.stores }
        requires deadlines { length network.now ≤ length self.old.deadlines }
        ensures stores { AreLeft network.now self.old.stores self.new.stores }
        ensures deadlines { self.new.deadlines ≡ take (length network.now) self.old.deadlines }
        ensures keys { self.new.keys ≡ self.old.keys }
    {
        drop_stores(network, &mut self.stores);
        self.deadlines.truncate(network.places());
    }

    /// Drops what is held at states that left a network, by their numbers where these are all noted. The keys stay: one
    /// that leads to a state that left is passed over, and forgotten as keys are swept, which comes the sooner the more
    /// of them are left behind. Takes no memory.
    pub fn shrink(&mut self, network: &Network)
        requires stores { length network.now ≤ length self.old.stores }
        requires deadlines { length self.old.deadlines ≡ length self.old.stores }
        requires noted { self.old.left.missed ≡ false → HaveNoStoresBut network.now self.old.left.numbers self.old.stores }
        ensures stores { AreLeft network.now self.old.stores self.new.stores }
        ensures deadlines { self.new.deadlines ≡ take (length network.now) self.old.deadlines }
        ensures keys { self.new.keys ≡ self.old.keys }
    {
        let lost = count_keyed(&self.stores, self.left.numbers.as_slice());
        self.keys.lose(lost);
        if self.left.missed {
            self.drop_left(network);
            return;
        }
        drop_noted(network, &mut self.stores, self.left.numbers.as_slice());
        self.deadlines.truncate(network.places());
    }
}
