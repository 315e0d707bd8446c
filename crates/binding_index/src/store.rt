//! The store of a waiting state.
ghost use Rattle.std.specs.Prelude.{◌≡◌, [], IfOk};
ghost use Rattle.instances.specs.Keys.{KeepsUsedKeys, key_of_places};
ghost use Rattle.binding_index.specs.Among.{is_among};
ghost use Rattle.binding_index.specs.KeyParts.{first_key as first_key_of};
ghost use Rattle.binding_index.specs.Stores.{condition_of, instances_of, key_of, ready_of};

use crate::key::first_key;
use crate::keyed_store::KeyedStore;
use event_types::{Memory, Tuple, Value};
use inst_chain::{Bead, Look};
use instances::{Instance, Instances, PlainStore, SpentBeads, Waiting};
use scalar_expr::{Conj, KeyPlaces};
use std::alloc::Global;
use steps::{Ledger, Steps};

/// A store with a key where the condition has a key part, and one without where it has none.
#[derive(Drop)]
pub enum Store {
    Plain(PlainStore),
    Keyed(KeyedStore),
}

impl Store {
    /// A store for the condition, with no instance.
    pub fn make(alloc: Global, choose: &Conj) -> Result<Store, Memory>
        ensures condition { IfOk result (λ store. condition_of store ≡ choose.now) }
        ensures key { IfOk result (λ store. key_of store ≡ first_key_of choose.now) }
        ensures instances { IfOk result (λ store. instances_of store ≡ []) }
        ensures ready { IfOk result (λ store. ready_of store ≡ []) }
    {
        if first_key(choose).is_some() {
            let store = KeyedStore::make(alloc, choose)?;
            return Ok(Store::Keyed(store));
        }
        let store = PlainStore::make(alloc, choose)?;
        Ok(Store::Plain(store))
    }

    /// The places of the attributes that are the key, if there is one. Takes no memory.
    pub fn key_places(&self) -> Option<KeyPlaces>
        ensures { key_of_places result ≡ key_of self.now }
    {
        match self {
            Store::Plain(_) => None,
            Store::Keyed(store) => Some(store.key_places()),
        }
    }

    /// Whether there is room for an instance with this key. A store without a key has no keys. Takes no
    /// memory.
    pub fn is_ready(&self, key: &Value) -> bool
        ensures { result ≡ is_among key.now (ready_of self.now) }
    {
        match self {
            Store::Plain(_) => false,
            Store::Keyed(store) => store.is_ready(key),
        }
    }

    /// Forgets the keys that no instance has. Takes no memory.
    pub fn forget_unused(&mut self)
        ensures same_instances { instances_of self.new ≡ instances_of self.old }
        ensures ready { KeepsUsedKeys (key_of self.old) (instances_of self.new) (ready_of self.old) (ready_of self.new) }
        ensures same_condition { condition_of self.new ≡ condition_of self.old }
        ensures same_key { key_of self.new ≡ key_of self.old }
    {
        match self {
            Store::Plain(_) => {}
            Store::Keyed(store) => store.forget_unused(),
        }
    }
}

impl Waiting for Store {
    ghost condition = { λ store. condition_of store };

    ghost key = { λ store. key_of store };

    ghost instances = { λ store. instances_of store };

    ghost ready_keys = { λ store. ready_of store };

    fn candidates(&self, event: &Tuple) -> Look<'_, Instance> {
        match self {
            Store::Plain(store) => store.candidates(event),
            Store::Keyed(store) => store.candidates(event),
        }
    }

    fn take<L: Ledger>(
        &mut self,
        event: &Tuple,
        choose: &Conj,
        steps: &mut Steps<L>,
        spent: &mut SpentBeads,
    ) {
        match self {
            Store::Plain(store) => store.take(event, choose, steps, spent),
            Store::Keyed(store) => store.take(event, choose, steps, spent),
        }
    }

    fn all(&self, alloc: Global) -> Result<Instances, Memory> {
        match self {
            Store::Plain(store) => store.all(alloc),
            Store::Keyed(store) => store.all(alloc),
        }
    }

    fn ready(&mut self, instance: &Instance) -> Result<(), Memory> {
        match self {
            Store::Plain(store) => store.ready(instance),
            Store::Keyed(store) => store.ready(instance),
        }
    }

    fn link(&mut self, bead: Bead<Instance>) {
        match self {
            Store::Plain(store) => store.link(bead),
            Store::Keyed(store) => store.link(bead),
        }
    }

    fn purge(&mut self, now: u64, since: Option<u64>) -> u128 {
        match self {
            Store::Plain(store) => store.purge(now, since),
            Store::Keyed(store) => store.purge(now, since),
        }
    }

    fn count(&self) -> u64 {
        match self {
            Store::Plain(store) => store.count(),
            Store::Keyed(store) => store.count(),
        }
    }
}
