//! A store with a key.
ghost use Rattle.std.specs.Prelude.{◌≡◌, ◌+◌, ◌≤◌, [], All, IfOk, IsSome, OnOk, Some};
ghost use Rattle.instances.specs.Births.{began_after};
ghost use Rattle.instances.specs.Bounds.{alive_instances};
ghost use Rattle.instances.specs.Keys.{KeepsUsedKeys, key_of_places};
ghost use Rattle.binding_index.specs.Among.{is_among};
ghost use Rattle.binding_index.specs.KeyParts.{first_key as first_key_of, key_of_part};

use crate::arranging::lower;
use crate::buckets::{Buckets, add_bucket, candidate_place, copy_all, count_all, forget_from};
use crate::cutting::keep_all_after;
use crate::emptied::{MOST, arrange_noted, arrange_or_note};
use crate::expiring::keep_all_alive;
use crate::key::{KeyPart, first_key};
use crate::near::{Near, place_near};
use deadlines::Deadlines;
use event_types::{Copied, List, Memory, Numbers, Tuple, Value};
use indexmap::IndexMap;
use inst_chain::{Bead, Chain, Look};
use instances::{Instance, Instances, SpentBeads, Waiting, purged_until};
use scalar_expr::{Conj, KeyPlaces};
use std::alloc::Global;
use std::marker::Model;
use steps::{Ledger, Steps};

/// A store that looks at the instances of one key alone.
#[derive(Drop)]
pub struct KeyedStore {
    condition: Conj,
    key: KeyPart,
    // the instances of each key that is ready
    buckets: Buckets,
    // the buckets from this place on have no instances, and those before have some, but for those at the noted places
    filled: usize,
    // the noted places
    emptied: Numbers,
    // by place, a time before which no instance of the bucket there starts
    starts: Deadlines,
    // where buckets were found last
    near: Near,
}

impl Model for KeyedStore {
    ghost use Rattle.binding_index.specs.Keyed.{Keyed};
    ghost use Rattle.binding_index.specs.KeyedCode.{keyed_code};

    ghost Value = { Keyed };

    ghost coded = { keyed_code };

    ghost use Rattle.binding_index.specs.Buckets.{AreBuckets, instances_in_order, keys_in_order};
    ghost use Rattle.binding_index.specs.KeyParts.{key_of_part};

    ghost view = { λ s. record { condition = s.condition; key = key_of_part s.key; ready = keys_in_order s.buckets.entries; instances = instances_in_order s.buckets.entries } };

    ghost invariant = { λ s. AreBuckets s.key.binding s.emptied s.filled s.starts s.buckets.entries };
}

impl KeyedStore {
    /// A store for the condition, by its first key part, with no instance.
    pub fn make(alloc: Global, choose: &Conj) -> Result<KeyedStore, Memory>
        requires { IsSome (first_key_of choose.now) }
        ensures condition { IfOk result (λ store. store.condition ≡ choose.now) }
        ensures key { IfOk result (λ store. first_key_of choose.now ≡ Some store.key) }
        ensures ready { IfOk result (λ store. store.ready ≡ []) }
        ensures instances { IfOk result (λ store. store.instances ≡ []) }
    {
        let key = first_key(choose).unwrap();
        let condition = choose.copy(alloc)?;
        let emptied = List::with_room(alloc, MOST)?;
        let starts = Deadlines::make(alloc, 0)?;
        Ok(KeyedStore {
            condition,
            key,
            buckets: IndexMap::new(alloc),
            filled: 0,
            emptied,
            starts,
            near: Near::new(),
        })
    }

    /// The places of the attributes that are the key. Takes no memory.
    pub fn key_places(&self) -> KeyPlaces
        ensures { key_of_places (Some result) ≡ Some self.now.key }
    {
        let KeyPart { event, binding } = self.key;
        KeyPlaces { event, binding }
    }

    /// Whether there is room for an instance with this key. Takes no memory.
    pub fn is_ready(&self, key: &Value) -> bool
        ensures { result ≡ is_among key.now self.now.ready }
    {
        place_near(&self.near, &self.buckets, key).is_some()
    }

    /// Forgets the keys that no instance has. Takes no memory.
    pub fn forget_unused(&mut self)
        ensures same_instances { self.new.instances ≡ self.old.instances }
        ensures ready { KeepsUsedKeys (Some self.old.key) self.new.instances self.old.ready self.new.ready }
        ensures same_condition { self.new.condition ≡ self.old.condition }
        ensures same_key { self.new.key ≡ self.old.key }
    {
        self.filled = arrange_noted(
            &mut self.buckets,
            &mut self.starts,
            self.filled,
            &mut self.emptied,
        );
        forget_from(&mut self.buckets, self.filled);
    }

    // Takes out the instances that began no later than `since`, where it is given.
    fn cut(&mut self, since: Option<u64>)
        ensures began { self.new.instances ≡ began_after since self.old.instances }
        ensures same_ready { self.new.ready ≡ self.old.ready }
        ensures same_condition { self.new.condition ≡ self.old.condition }
        ensures same_key { self.new.key ≡ self.old.key }
    {
        if let Some(since) = since {
            self.filled = arrange_noted(
                &mut self.buckets,
                &mut self.starts,
                self.filled,
                &mut self.emptied,
            );
            self.filled = keep_all_after(&mut self.buckets, &mut self.starts, self.filled, since);
        }
    }

    // Takes out the instances that no event after `now` can match, and forgets the keys that no instance has.
    // It gives a time before which none of the others starts.
    fn expire(&mut self, now: u64) -> u64
        ensures alive { self.new.instances ≡ alive_instances (now + 1) self.old.condition self.old.instances }
        ensures oldest { All (λ instance. result ≤ instance.tuple.from) self.new.instances }
        ensures ready { KeepsUsedKeys (Some self.old.key) self.new.instances self.old.ready self.new.ready }
        ensures same_condition { self.new.condition ≡ self.old.condition }
        ensures same_key { self.new.key ≡ self.old.key }
    {
        self.filled = arrange_noted(
            &mut self.buckets,
            &mut self.starts,
            self.filled,
            &mut self.emptied,
        );
        self.filled = keep_all_alive(
            &mut self.buckets,
            &mut self.starts,
            self.filled,
            &self.condition,
            now,
        );
        forget_from(&mut self.buckets, self.filled);
        self.starts.earliest().min(u64::MAX as u128) as u64
    }
}

impl Waiting for KeyedStore {
    ghost condition = { λ store. store.condition };

    ghost key = { λ store. Some store.key };

    ghost instances = { λ store. store.instances };

    ghost ready_keys = { λ store. store.ready };

    fn candidates(&self, event: &Tuple) -> Look<'_, Instance> {
        let key = event.vals().get(self.key.event);
        let Some(place) = candidate_place(&self.near, &self.buckets, key) else {
            return Look::none();
        };
        self.buckets[place].look()
    }

    fn take<L: Ledger>(
        &mut self,
        event: &Tuple,
        choose: &Conj,
        steps: &mut Steps<L>,
        spent: &mut SpentBeads,
    ) {
        let places = self.key_places();
        let key = event.vals().get(self.key.event);
        if let Some(place) = candidate_place(&self.near, &self.buckets, key) {
            self.buckets[place].take(event, choose, places, steps, spent);
            self.filled = arrange_or_note(
                &mut self.buckets,
                &mut self.starts,
                self.filled,
                &mut self.emptied,
                place,
            );
        }
    }

    fn all(&self, alloc: Global) -> Result<Instances, Memory> {
        copy_all(alloc, &self.buckets)
    }

    fn ready(&mut self, instance: &Instance) -> Result<(), Memory> {
        let key = instance.tuple.vals().get(self.key.binding);
        if place_near(&self.near, &self.buckets, key).is_some() {
            return Ok(());
        }
        let key = key.copied(*self.buckets.allocator())?;
        self.near.note(&key, self.buckets.len());
        add_bucket(&mut self.buckets, &mut self.starts, key)
    }

    /// Puts the instance in front of those with its key, at once however many there are.
    fn link(&mut self, bead: Bead<Instance>) {
        let mut chain = Chain::new();
        chain.link(bead);
        if let Some(instance) = chain.look().next() {
            let from = instance.tuple.from() as u128;
            let key = instance.tuple.vals().get(self.key.binding);
            if let Some(place) = place_near(&self.near, &self.buckets, key) {
                self.buckets[place].put(&mut chain);
                lower(&mut self.starts, place, from);
                self.filled = arrange_or_note(
                    &mut self.buckets,
                    &mut self.starts,
                    self.filled,
                    &mut self.emptied,
                    place,
                );
            }
        }
    }

    fn purge(&mut self, now: u64, since: Option<u64>) -> u128 {
        self.cut(since);
        let oldest = self.expire(now);
        purged_until(&self.condition, oldest, now)
    }

    fn count(&self) -> u64 {
        count_all(&self.buckets)
    }
}
