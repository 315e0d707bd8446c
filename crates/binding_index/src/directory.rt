//! The states to which a key leads.
ghost use Rattle.std.specs.Prelude.{◌≡◌, ◌≢◌, ℕ, ◌+◌, ◌-◌, ◌^◌, ◌↔◌, ◌⊎◌, [], filter, length, min, true, All, AllPairs, Contains, IfOk, OnErr, OnOk};
ghost use Rattle.event_types.specs.declared.value.Value.{Value};
ghost use Rattle.std.specs.List.{IsDistinct};
ghost use Rattle.std.specs.Map.{keys_of};
ghost use Rattle.binding_index.specs.Among.{is_key};
ghost use Rattle.binding_index.specs.Entries.{has_any};
ghost use Rattle.binding_index.specs.Leads.{Leads, StandOnce, is_ready_at, pairs_of, states_at};

use crate::entries::place_of;
use crate::store::Store;
use event_types::{Copied, Memory, Value};
use indexmap::IndexMap;
use short_lists::ShortList;
use std::alloc::Global;
use std::marker::Model;

/// For one attribute of the events of a stream: the numbers of the states whose stores may have a binding
/// with a key.
#[derive(Drop)]
pub struct Directory {
    states: IndexMap<Value, ShortList>,
    // how many pairs of a key and a state there are, or 2^64-1 where there are more
    pairs: u64,
}

impl Model for Directory {
    ghost use Rattle.std.specs.Prelude.{◌≡◌, ◌-◌, ◌^◌, min};
    ghost use Rattle.binding_index.specs.Leads.{Entries, StandOnce, pairs_of};

    ghost Value = { Entries };

    ghost view = { λ d. d.states.entries };

    ghost invariant = { λ d. (d.pairs ≡ min (pairs_of d.states.entries) (2 ^ 64 - 1)) × StandOnce d.states.entries };
}

impl Directory {
    /// A directory by which no key leads to a state. Takes no memory.
    pub fn new(alloc: Global) -> Directory
        ensures { result ≡ [] }
    {
        Directory {
            states: IndexMap::new(alloc),
            pairs: 0,
        }
    }

    /// The states to which a key leads, each once. Takes no memory.
    pub fn find(&self, key: &Value) -> &[usize]
        ensures states { result.now ≡ states_at self.now key.now }
        ensures once { AllPairs (λ state other. state ≢ other) result.now }
    {
        match self.states.get(key) {
            Some(states) => states.as_slice(),
            None => &[],
        }
    }

    /// The number of pairs of a key and a state to which it leads, or 2^64-1 where there are more. Takes
    /// no memory.
    pub fn pairs(&self) -> u64
        ensures count { result ≡ min (pairs_of self.now) (2 ^ 64 - 1) }
        ensures distinct { IsDistinct is_key (keys_of self.now) }
    {
        // `len` is called for its clause that no key comes twice
        let _len = self.states.len();
        self.pairs
    }

    /// Lets a key lead to a state.
    pub fn note(&mut self, key: &Value, state: usize) -> Result<(), Memory>
        ensures ok { OnOk result ((other : Value) (number : ℕ) → Leads self.new other number ↔ (Leads self.old other number ⊎ ((key.now ≡ other) × (state ≡ number)))) }
        ensures kept { OnErr result (self.new ≡ self.old) }
    {
        let added = lead(&mut self.states, key, state)?;
        self.pairs = self.pairs.saturating_add(added);
        Ok(())
    }

    /// Lets no key lead to a state any more where it isn't ready in the state's store, and forgets the keys that
    /// lead to none. Takes no memory.
    pub fn sweep(&mut self, stores: &[Option<Store>])
        ensures leads { (key : Value) (number : ℕ) → Leads self.new key number ↔ (Leads self.old key number × (is_ready_at stores.now number key ≡ true)) }
        ensures all_lead { All (λ entry. has_any entry.1 ≡ true) self.new }
    {
        for place in 0..self.states.len() {
            let (key, states) = self.states.pair_mut(place);
            keep_ready(states, key, stores);
        }
        self.states.retain(
            |_key: &Value, states: &mut ShortList| -> bool
                ensures { (result ≡ has_any states.old) × (states.new ≡ states.old) }
            { has_some(states) },
        );
        self.pairs = count_pairs(&self.states);
    }
}

// Lets a key lead to a state; gives how many pairs were added.
fn lead(states: &mut IndexMap<Value, ShortList>, key: &Value, state: usize) -> Result<u64, Memory>
    ensures added { IfOk result (λ added. pairs_of states.new.entries ≡ pairs_of states.old.entries + added) }
    ensures ok { OnOk result ((other : Value) (number : ℕ) → Leads states.new.entries other number ↔ (Leads states.old.entries other number ⊎ ((key.now ≡ other) × (state ≡ number)))) }
    ensures kept { OnErr result (states.new.entries ≡ states.old.entries) }
    ensures once { StandOnce states.old.entries → StandOnce states.new.entries }
{
    if let Some(place) = place_of(states, key) {
        return add(&mut states[place], state);
    }
    let alloc = *states.allocator();
    let key = key.copied(alloc)?;
    let mut numbers = ShortList::new(alloc);
    let added = add(&mut numbers, state)?;
    match states.insert(key, numbers) {
        Ok(_) => Ok(added),
        Err(_) => Err(Memory),
    }
}

// Adds a state's number, unless it is there; gives how many were added.
fn add(states: &mut ShortList, state: usize) -> Result<u64, Memory>
    ensures added { IfOk result (λ added. length states.new ≡ length states.old + added) }
    ensures ok { OnOk result ((number : ℕ) → Contains states.new number ↔ (Contains states.old number ⊎ (state ≡ number))) }
    ensures kept { OnErr result (states.new ≡ states.old) }
    ensures once { AllPairs (λ state other. state ≢ other) states.old → AllPairs (λ state other. state ≢ other) states.new }
{
    if states.as_slice().contains(&state) {
        return Ok(0);
    }
    states.add(state)?;
    Ok(1)
}

// The number of pairs, or 2^64-1 where there are more.
fn count_pairs(states: &IndexMap<Value, ShortList>) -> u64
    ensures { result ≡ min (pairs_of states.now.entries) (2 ^ 64 - 1) }
{
    let mut count: u64 = 0;
    for place in 0..states.len() {
        count = count.saturating_add(states[place].len() as u64);
    }
    count
}

// Whether there is a number.
fn has_some(states: &ShortList) -> bool
    ensures { result ≡ has_any states.now }
{
    states.len() > 0
}

// Keeps the states in whose stores the key is ready.
fn keep_ready(states: &mut ShortList, key: &Value, stores: &[Option<Store>])
    ensures { states.new ≡ filter (λ number. is_ready_at stores.now number key.now) states.old }
{
    let mut kept = 0;
    for place in 0..states.len() {
        let state = states.as_slice()[place];
        if is_ready(stores, state, key) {
            states.set(kept, state);
            kept += 1;
        }
    }
    states.truncate(kept);
}

// Whether the key is ready in the store of a state.
fn is_ready(stores: &[Option<Store>], state: usize, key: &Value) -> bool
    ensures { result ≡ is_ready_at stores.now state key.now }
{
    match stores.get(state) {
        Some(Some(store)) => store.is_ready(key),
        _ => false,
    }
}
