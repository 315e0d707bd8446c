//! Networks whose waiting states are found by how they are entered.
ghost use Rattle.std.specs.Prelude.{◌≡◌, ◌≢◌, ◌<◌, ◌-◌, ◌==◌, ℕ, [], Contains, IfNone, IfSome, IsTrue, OnErr, OnOk, Some, count_by, false, if◌then◌else◌, length, take};
ghost use Rattle.automaton.specs.Changes.{AddsEnd, AddsHop, AddsRoot, RemovesEnd, RemovesState};
ghost use Rattle.automaton.specs.Networks.{IsNetwork};
ghost use Rattle.automaton.specs.States.{edges_at, ends_at, entrance_at, is_used};
ghost use Rattle.automaton.specs.declared.network.Entrance.TheVariants.{Waiting};
ghost use Rattle.prefix_merge.specs.Buckets.{HaveSame, IsPut, IsTakenFrom, IsTakenOut};
ghost use Rattle.prefix_merge.specs.Holders.{StandsAt};
ghost use Rattle.prefix_merge.specs.Merging.{HasEnd, IsLowestFree};
ghost use Rattle.prefix_merge.specs.declared.holders.EndSpot.{EndSpot};
ghost use Rattle.stream_readers.specs.Readers.{AreReadersOf};

use crate::hashing::entrance_hash;
use crate::holders::{EndSpot, Holders, forget, note, note_moved, number_there};
use crate::places::make_place;
use crate::reading::{with_end, with_hop, without_end, without_state};
use automaton::{End, Hop, Network};
use event_types::{List, Memory, Numbers, StreamId};
use long_lists::FreeNumbers;
use std::alloc::Global;
use std::collections::HashMap;
use std::marker::Model;
use stream_readers::Readers;

// A network, which numbers are free, its waiting states in buckets by a hash of how each is entered, where each end
// stands, and what reads each stream, unless memory was wanting. A contract sees the network.
#[derive(Drop)]
pub(crate) struct Indexed {
    alloc: Global,
    network: Network,
    free: FreeNumbers,
    buckets: Buckets,
    holders: Holders,
    readers: Option<Readers>,
}

// The states in the bucket of each hash.
type Buckets = HashMap<u64, Numbers>;

impl Model for Indexed {
    ghost use Rattle.std.specs.Prelude.{List, Option};
    ghost use Rattle.automaton.specs.declared.network.State.{State};

    ghost Value = { List (Option State) };

    ghost use Rattle.std.specs.Coded.{coded_list, coded_option};
    ghost use Rattle.automaton.specs.contracts.network.State as state;

    ghost coded = { coded_list (coded_option state.the_row.coded) };

    ghost use Rattle.std.specs.Prelude.{IfSome};
    ghost use Rattle.prefix_merge.specs.Buckets.{AreInBuckets};
    ghost use Rattle.prefix_merge.specs.Holders.{AreHolders};
    ghost use Rattle.prefix_merge.specs.Places.{AreFree};
    ghost use Rattle.stream_readers.specs.Readers.{AreReadersOf};

    ghost view = { λ m. m.network };

    ghost invariant = { λ m. AreInBuckets m.buckets m.network × AreHolders m.holders m.network × IfSome m.readers (AreReadersOf m.network) × AreFree m.free m.network };
}

impl Indexed {
    pub(crate) fn new(alloc: Global) -> Indexed
        ensures { result ≡ [] }
    {
        Indexed {
            alloc,
            network: Network::new(alloc),
            free: FreeNumbers::new(alloc),
            buckets: HashMap::new(alloc),
            holders: HashMap::new(alloc),
            readers: Some(Readers::new(alloc)),
        }
    }

    // The network.
    pub(crate) fn network(&self) -> &Network
        ensures { result.now ≡ self.now }
    {
        &self.network
    }

    // What reads each stream, unless memory was wanting.
    pub(crate) fn readers(&self) -> Option<&Readers>
        ensures { IfSome result (λ readers. AreReadersOf self.now readers.now) }
    {
        self.readers.as_ref()
    }

    // Makes what reads each stream, where it isn't there.
    pub(crate) fn refile(&mut self, alloc: Global) -> Result<(), Memory>
        ensures { self.new ≡ self.old }
    {
        if self.readers.is_none() {
            self.readers = Some(Readers::make(alloc, &self.network)?);
        }
        Ok(())
    }

    // A number above those of all states.
    pub(crate) fn places(&self) -> usize
        ensures value { result ≡ length self.now }
        ensures network { IsNetwork self.now }
    {
        self.network.places()
    }

    // The lowest number that no state has.
    pub(crate) fn lowest_free(&self) -> usize
        ensures { IsLowestFree self.now result }
    {
        match self.free.lowest() {
            Some(number) => number,
            None => self.free.len(),
        }
    }

    // The number of a state that is entered from this one through the hop.
    pub(crate) fn next(&self, before: usize, hop: &Hop) -> Option<usize>
        ensures found { IfSome result (λ next. entrance_at self.now next ≡ Some (Waiting before hop.now)) }
        ensures absent { IfNone result ((next : ℕ) → entrance_at self.now next ≢ Some (Waiting before hop.now)) }
    {
        let hash = entrance_hash(before, &hop.step, &hop.wait);
        let states = self.buckets.get(&hash)?;
        first_entered(&self.network, states.as_slice(), before, hop)
    }

    // A root state comes, without edges and ends.
    pub(crate) fn add_root(&mut self, number: usize, stream: StreamId) -> Result<(), Memory>
        requires { IsLowestFree self.old number }
        ensures added { OnOk result (AddsRoot number stream self.old self.new) }
        ensures kept { OnErr result (self.new ≡ self.old) }
    {
        make_place(&mut self.free, number)?;
        self.network.add_root(self.alloc, number, stream)?;
        self.free.take(number);
        Ok(())
    }

    // The waiting state of a hop comes, to which a forward edge leads from the state before it.
    pub(crate) fn add_hop(&mut self, number: usize, before: usize, hop: &Hop) -> Result<(), Memory>
        requires number { IsLowestFree self.old number }
        requires before { IsTrue (is_used self.old before) }
        ensures added { OnOk result (AddsHop number before hop.now self.old self.new) }
        ensures kept { OnErr result (self.new ≡ self.old) }
    {
        make_place(&mut self.free, number)?;
        let hash = entrance_hash(before, &hop.step, &hop.wait);
        put(self.alloc, &mut self.buckets, hash, number)?;
        let readers = with_hop(self.readers.take(), &self.network, number, before, hop);
        let added = self.network.add_hop(self.alloc, number, before, hop);
        if added.is_err() {
            take_out(&mut self.buckets, hash, number);
        } else {
            self.readers = readers;
            self.free.take(number);
        }
        added
    }

    // Where the end with this number stands.
    pub(crate) fn holder(&self, number: usize) -> EndSpot
        requires { HasEnd self.now number }
        ensures there { StandsAt self.now number result }
        ensures only { (other : EndSpot) → StandsAt self.now number other → other ≡ result }
    {
        match self.holders.get(&number) {
            Some(spot) => *spot,
            None => unreachable!(),
        }
    }

    // An end of a new number comes to a state.
    pub(crate) fn add_end(&mut self, state: usize, end: End) -> Result<(), Memory>
        requires used { IsTrue (is_used self.old state) }
        requires new { ¬ HasEnd self.old end.number }
        ensures added { OnOk result (AddsEnd state end self.old self.new) }
        ensures kept { OnErr result (self.new ≡ self.old) }
    {
        let number = end.number;
        let place = self.network.ends(state).len();
        note(&mut self.holders, number, EndSpot { state, place })?;
        let readers = with_end(self.readers.take(), &self.network, state, &end);
        let added = self.network.add_end(state, end);
        if added.is_err() {
            forget(&mut self.holders, number);
        } else {
            self.readers = readers;
        }
        added
    }

    // The end of this number, which stands there, leaves, and the last one of its state takes its place. Takes no
    // memory.
    pub(crate) fn remove_end(&mut self, number: usize, spot: EndSpot)
        requires { StandsAt self.old number spot }
        ensures { RemovesEnd spot.state spot.place self.old self.new }
    {
        self.readers = without_end(self.readers.take(), &self.network, spot.state, spot.place);
        self.network.remove_end(spot.state, spot.place);
        forget(&mut self.holders, number);
        let moved = number_there(&self.network, spot);
        note_moved(&mut self.holders, moved, spot);
    }

    // A state without edges and ends leaves, with the edge that leads to it.
    pub(crate) fn remove_state(&mut self, number: usize)
        requires used { IsTrue (is_used self.old number) }
        requires last { edges_at self.old number ≡ [] }
        requires endless { ends_at self.old number ≡ [] }
        ensures { RemovesState number self.old self.new }
    {
        self.readers = without_state(self.readers.take(), &self.network, number);
        take_waiting(&mut self.buckets, &self.network, number);
        self.network.remove_state(number);
        self.free.free(number);
    }

    // Forgets the last place, which no state has.
    pub(crate) fn shrink(&mut self)
        requires some { 0 < length self.old }
        requires free { is_used self.old (length self.old - 1) ≡ false }
        ensures { self.new ≡ take (length self.old - 1) self.old }
    {
        self.network.shrink();
    }
}

// The first of the states that is entered from this one through the hop.
fn first_entered(network: &Network, states: &[usize], before: usize, hop: &Hop) -> Option<usize>
    ensures found { IfSome result (λ next. entrance_at network.now next ≡ Some (Waiting before hop.now)) }
    ensures absent { IfNone result ((next : ℕ) → Contains states.now next → entrance_at network.now next ≢ Some (Waiting before hop.now)) }
{
    for state in states {
        if network.is_entered(*state, before, hop) {
            return Some(*state);
        }
    }
    None
}

// Puts a state into the bucket of a hash.
fn put(alloc: Global, buckets: &mut Buckets, hash: u64, state: usize) -> Result<(), Memory>
    ensures ok { OnOk result (IsPut hash state buckets.old buckets.new) }
    ensures kept { OnErr result (HaveSame buckets.old buckets.new) }
{
    if let Some(states) = buckets.get_mut(&hash) {
        return states.add(state);
    }
    let mut states = List::new(alloc);
    states.add(state)?;
    buckets.insert(hash, states)?;
    Ok(())
}

// Takes a state out of its bucket, where it is a waiting state.
fn take_waiting(buckets: &mut Buckets, network: &Network, state: usize)
    requires { IsTrue (is_used network.now state) }
    ensures { IsTakenFrom network.now state buckets.old buckets.new }
{
    if let (Some(before), Some(wait)) = (network.before(state), network.wait(state)) {
        let hash = entrance_hash(before, network.step(state), wait);
        take_out(buckets, hash, state);
    }
}

// Takes a state out of the bucket of a hash, and an empty bucket away.
fn take_out(buckets: &mut Buckets, hash: u64, state: usize)
    ensures { IsTakenOut hash state buckets.old buckets.new }
{
    let Some(states) = buckets.get_mut(&hash) else {
        return;
    };
    drop_number(states, state);
    if states.len() == 0 {
        buckets.remove(&hash);
    }
}

// Takes a number out once, where it stands.
fn drop_number(numbers: &mut Numbers, number: usize)
    ensures { (n : ℕ) → count_by (λ other. other == n) numbers.new ≡ count_by (λ other. other == n) numbers.old - (if number == n then 1 else 0) }
{
    for place in 0..numbers.len() {
        if *numbers.get(place) == number {
            numbers.remove(place);
            return;
        }
    }
}
