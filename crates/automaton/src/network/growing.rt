//! Networks that grow and shrink by a state, an edge or an end.
ghost use Rattle.std.specs.Prelude.{◌≡◌, ◌<◌, ◌≤◌, ◌-◌, ◌==◌, ◌↔◌, [], IfSome, IsTrue, OnErr, OnOk, Some, count_by, false, length, position, slice_get, take};
ghost use Rattle.automaton.specs.Changes.{AddsEnd, AddsHop, AddsRoot, LosesEdge, RemovesEnd, RemovesState};
ghost use Rattle.automaton.specs.Growing.{IsTakenOver, IsUnedged, LosesEnd, edged, placed, without_last};
ghost use Rattle.automaton.specs.States.{Net, before_at, edges_at, edges_in, ends_at, ends_in, entrance_at, entrance_in, is_used};
ghost use Rattle.automaton.specs.declared.network.Entrance.TheVariants.{Waiting};

use super::{End, Entrance, Network, State};
use crate::line::Hop;
use crate::plain::{entered, put_edge, put_end};
use event_types::{List, Memory, Numbers, StreamId};
use std::alloc::Global;

impl Network {
    /// No states. Takes no memory.
    pub fn new(alloc: Global) -> Network
        ensures { result ≡ [] }
    {
        Network {
            slots: Vec::new(alloc),
            states: 0,
            edge_places: List::new(alloc),
            no_step: List::new(alloc),
        }
    }

    /// The number of the state before a waiting state.
    pub fn before(&self, state: usize) -> Option<usize>
        requires { IsTrue (is_used self.now state) }
        ensures { result ≡ before_at self.now state }
    {
        match &self.state(state).entrance {
            Entrance::Root(_) => None,
            Entrance::Waiting { from, .. } => Some(*from),
        }
    }

    /// Whether the number is that of a state that is entered from this one through the hop. Takes no memory.
    pub fn is_entered(&self, number: usize, before: usize, hop: &Hop) -> bool
        ensures { IsTrue result ↔ (entrance_at self.now number ≡ Some (Waiting before hop.now)) }
    {
        match self.slots.get(number) {
            Some(slot) => is_entered(slot, before, hop),
            None => false,
        }
    }

    /// A root state comes, without edges and ends.
    pub fn add_root(&mut self, alloc: Global, number: usize, stream: StreamId) -> Result<(), Memory>
        requires next { number ≤ length self.old }
        requires free { is_used self.old number ≡ false }
        ensures added { OnOk result (AddsRoot number stream self.old self.new) }
        ensures kept { OnErr result (self.new ≡ self.old) }
    {
        let state = entered(alloc, Entrance::Root(stream));
        put_slot(&mut self.slots, number, state)?;
        self.states += 1;
        Ok(())
    }

    /// The waiting state of a hop comes, to which a forward edge leads from the state before it.
    pub fn add_hop(
        &mut self,
        alloc: Global,
        number: usize,
        before: usize,
        hop: &Hop,
    ) -> Result<(), Memory>
        requires next { number ≤ length self.old }
        requires free { is_used self.old number ≡ false }
        requires before { IsTrue (is_used self.old before) }
        ensures added { OnOk result (AddsHop number before hop.now self.old self.new) }
        ensures kept { OnErr result (self.new ≡ self.old) }
    {
        make_room(&mut self.edge_places, number)?;
        let place = self.edges(before).len();
        let hop = hop.copy(alloc)?;
        let state = entered(alloc, Entrance::Waiting { from: before, hop });
        put_hop(&mut self.slots, number, before, state)?;
        note_place(&mut self.edge_places, number, place);
        self.states += 1;
        Ok(())
    }

    /// An end comes to a state.
    pub fn add_end(&mut self, state: usize, end: End) -> Result<(), Memory>
        requires { IsTrue (is_used self.old state) }
        ensures added { OnOk result (AddsEnd state end self.old self.new) }
        ensures kept { OnErr result (self.new ≡ self.old) }
    {
        put_end(&mut self.slots[state], end)
    }

    /// The end at a place of a state leaves, and the last one there takes its place. Takes no memory.
    pub fn remove_end(&mut self, state: usize, place: usize)
        requires used { IsTrue (is_used self.old state) }
        requires there { place < length (ends_at self.old state) }
        ensures { RemovesEnd state place self.old self.new }
    {
        drop_end(&mut self.slots[state], place);
    }

    /// A state from which no edge leads leaves, with the edge that leads to it; the last edge that leads on from the
    /// state before takes that one's place. Takes no memory.
    pub fn remove_state(&mut self, number: usize)
        requires used { IsTrue (is_used self.old number) }
        requires last { edges_at self.old number ≡ [] }
        ensures { RemovesState number self.old self.new }
    {
        let before = self.before(number);
        drop_edge(&mut self.slots, &mut self.edge_places, before, number);
        self.slots[number] = None;
        self.states -= 1;
    }

    /// Forgets the last place, which no state has. Takes no memory.
    pub fn shrink(&mut self)
        requires some { 0 < length self.old }
        requires free { is_used self.old (length self.old - 1) ≡ false }
        ensures { self.new ≡ take (length self.old - 1) self.old }
    {
        self.slots.truncate(self.slots.len() - 1);
    }
}

// Whether it is a state that is entered from this one through the hop.
fn is_entered(slot: &Option<State>, before: usize, hop: &Hop) -> bool
    ensures { IsTrue result ↔ (entrance_in slot.now ≡ Some (Waiting before hop.now)) }
{
    match slot {
        Some(state) => match &state.entrance {
            Entrance::Root(_) => false,
            Entrance::Waiting { from, hop: own } => *from == before && own.is_same(hop),
        },
        None => false,
    }
}

// Puts a state at a number.
fn put_slot(slots: &mut Vec<Option<State>>, number: usize, state: State) -> Result<(), Memory>
    requires { number ≤ length slots.old.items }
    ensures placed { OnOk result (slots.new.items ≡ placed number (Some state) slots.old.items) }
    ensures kept { OnErr result (slots.new.items ≡ slots.old.items) }
{
    if number < slots.len() {
        slots[number] = Some(state);
    } else {
        slots.push(Some(state))?;
    }
    Ok(())
}

// Puts a state at a number, and a forward edge that leads there.
fn put_hop(
    slots: &mut Vec<Option<State>>,
    number: usize,
    before: usize,
    state: State,
) -> Result<(), Memory>
    requires next { number ≤ length slots.old.items }
    requires before { before < length slots.old.items }
    ensures placed { OnOk result (slots.new.items ≡ placed number (Some state) (edged before number slots.old.items)) }
    ensures kept { OnErr result (slots.new.items ≡ slots.old.items) }
{
    put_edge(&mut slots[before], number)?;
    if put_slot(slots, number, state).is_err() {
        cut_edge(&mut slots[before]);
        return Err(Memory);
    }
    Ok(())
}

// Takes the last forward edge away.
fn cut_edge(slot: &mut Option<State>)
    ensures { slot.new ≡ without_last slot.old }
{
    if let Some(state) = slot {
        let len = state.edges.len();
        if 0 < len {
            state.edges.truncate(len - 1);
        }
    }
}

// Takes the forward edge to a state away, where one leads there; the last one takes its place.
fn drop_edge(
    slots: &mut Vec<Option<State>>,
    places: &mut Numbers,
    before: Option<usize>,
    next: usize,
)
    requires below { IfSome before (λ from. from < length slots.old.items) }
    requires one { IfSome before (λ from. count_by (λ edge. edge == next) (edges_at slots.old.items from) ≡ 1) }
    ensures { IsUnedged before next slots.old.items slots.new.items }
{
    if let Some(from) = before {
        cut_edges(&mut slots[from], places, next);
    }
}

// Takes the only forward edge to a state away; the last one takes its place.
fn cut_edges(slot: &mut Option<State>, places: &mut Numbers, next: usize)
    requires { count_by (λ edge. edge == next) (edges_in slot.old) ≡ 1 }
    ensures { LosesEdge next slot.old slot.new }
{
    if let Some(state) = slot {
        let place = place_of(&state.edges, places, next);
        drop_number(&mut state.edges, places, place);
    }
}

// The place of the only edge to a state: the noted one, or where it is found.
fn place_of(edges: &Numbers, places: &Numbers, next: usize) -> usize
    requires { count_by (λ edge. edge == next) edges.now ≡ 1 }
    ensures { slice_get edges.now result ≡ Some next }
{
    let place = noted(places, next);
    if place < edges.len() && *edges.get(place) == next {
        place
    } else {
        scan(edges, next)
    }
}

// The place of an edge to a state, wherever it stands.
fn scan(edges: &Numbers, next: usize) -> usize
    requires { count_by (λ edge. edge == next) edges.now ≡ 1 }
    ensures { slice_get edges.now result ≡ Some next }
{
    match find_edge(edges, next) {
        Some(place) => place,
        None => unreachable!(),
    }
}

// The place of the first edge to a state.
fn find_edge(edges: &Numbers, next: usize) -> Option<usize>
    ensures { result ≡ position (λ edge. edge == next) edges.now }
{
    edges.as_slice().iter().position(|edge| *edge == next)
}

// Takes the edge at a place out; the last one takes its place, which is noted.
fn drop_number(edges: &mut Numbers, places: &mut Numbers, place: usize)
    requires { place < length edges.old }
    ensures { IsTakenOver place edges.old edges.new }
{
    take_over(edges, place);
    if place < edges.len() {
        note_place(places, *edges.get(place), place);
    }
}

// The place that is noted for the edge to a state, or the first.
fn noted(places: &Numbers, number: usize) -> usize
    ensures { IfSome (slice_get places.now number) (λ place. result ≡ place) }
{
    if number < places.len() {
        *places.get(number)
    } else {
        0
    }
}

// Notes the place of the edge to a state, where there is room for it.
fn note_place(places: &mut Numbers, number: usize, place: usize)
    ensures { number < length places.old → slice_get places.new number ≡ Some place }
{
    if number < places.len() {
        *places.get_mut(number) = place;
    }
}

// Makes room to note the place of the edge to a state.
fn make_room(places: &mut Numbers, number: usize) -> Result<(), Memory>
    ensures { OnOk result (number < length places.new) }
{
    while places.len() <= number {
        places.add(0)?;
    }
    Ok(())
}

// Takes the end at a place away; the last one takes its place.
fn drop_end(slot: &mut Option<State>, place: usize)
    requires { place < length (ends_in slot.old) }
    ensures { LosesEnd place slot.old slot.new }
{
    if let Some(state) = slot {
        take_over(&mut state.ends, place);
    }
}

// Takes the item at a place out; the last one takes its place.
fn take_over<T: Drop>(items: &mut List<T>, place: usize)
    requires { place < length items.old }
    ensures { IsTakenOver place items.old items.new }
{
    if let Some(last) = items.pop() {
        if place < items.len() {
            *items.get_mut(place) = last;
        }
    }
}
