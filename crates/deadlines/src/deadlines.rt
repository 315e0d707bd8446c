//! Deadlines by place.
ghost use Rattle.std.specs.Prelude.{◌≡◌, ◌⊎◌, ◌<◌, ◌≤◌, ◌++◌, ℕ, All, Contains, IfNone, IfOk, IfSome, OnErr, OnOk, length, replicate, slice_index, slice_set, take};
ghost use Rattle.std.specs.List.{swap};

use crate::tournament::{fill_leaves, first_leaf, set_leaf};
use event_types::Memory;
use std::alloc::Global;
use std::marker::Model;

/// A deadline after all times of events, which are below 2^64.
pub const NEVER: u128 = u128::MAX;

/// A deadline for each of so many places, which are counted from 0.
///
/// It is a tournament tree: the deadlines stand behind their minima, two by two, so the earliest is the root.
/// The children of node n are 2n and 2n+1, and the root is node 1. A leaf that is no place has no deadline.
#[derive(Drop)]
pub struct Deadlines {
    nodes: Vec<u128>,
    // how many of the leaves are places, the first ones
    places: usize,
}

impl Model for Deadlines {
    ghost use Rattle.std.specs.Prelude.{◌≤◌, ℕ, List, length, take};
    ghost use Rattle.deadlines.specs.Tournament.{AreFree, IsTournament, leaves_of};

    ghost Value = { List ℕ };

    ghost view = { λ d. take d.places (leaves_of d.nodes.items) };

    ghost invariant = { λ d. IsTournament d.nodes.items × (d.places ≤ length (leaves_of d.nodes.items)) × AreFree d.places (leaves_of d.nodes.items) };
}

impl Deadlines {
    /// So many places without a deadline.
    pub fn make(alloc: Global, places: usize) -> Result<Deadlines, Memory>
        ensures { IfOk result (λ deadlines. deadlines ≡ replicate places NEVER) }
    {
        let Some(leaves) = places.checked_next_power_of_two() else {
            return Err(Memory);
        };
        let Some(count) = leaves.checked_mul(2) else {
            return Err(Memory);
        };
        let nodes = vec![in alloc; NEVER; count]?;
        Ok(Deadlines { nodes, places })
    }

    /// The number of places. Takes no memory.
    pub fn len(&self) -> usize
        ensures { result ≡ length self.now }
    {
        self.places
    }

    /// The earliest deadline, or `NEVER` where no place has one. Takes no memory.
    pub fn earliest(&self) -> u128
        ensures all { All (λ deadline. result ≤ deadline) self.now }
        ensures found { (result ≡ NEVER) ⊎ Contains self.now result }
    {
        self.nodes[1]
    }

    /// The deadline of a place. Takes no memory.
    pub fn get(&self, place: usize) -> u128
        requires { place < length self.now }
        ensures { result ≡ slice_index self.now place }
    {
        self.nodes[self.nodes.len() / 2 + place]
    }

    /// Gives a place another deadline. No more nodes are looked at than the tree is high, which no clause says.
    /// Takes no memory.
    pub fn set(&mut self, place: usize, deadline: u128)
        requires { place < length self.old }
        ensures { self.new ≡ slice_set self.old place deadline }
    {
        set_leaf(&mut self.nodes, place, deadline);
    }

    /// Exchanges the deadlines of two places. Takes no memory.
    pub fn swap(&mut self, place: usize, other: usize)
        requires place { place < length self.old }
        requires other { other < length self.old }
        ensures { self.new ≡ swap self.old place other }
    {
        let deadline = self.get(place);
        let others = self.get(other);
        self.set(place, others);
        self.set(other, deadline);
    }

    /// Adds so many places without a deadline, behind the others. The tree is made anew only where it has no leaves left
    /// for them, with twice as many at least, which no clause says.
    pub fn grow(&mut self, alloc: Global, more: usize) -> Result<(), Memory>
        ensures ok { OnOk result (self.new ≡ self.old ++ replicate more NEVER) }
        ensures kept { OnErr result (self.new ≡ self.old) }
    {
        let Some(places) = self.places.checked_add(more) else {
            return Err(Memory);
        };
        if places <= self.nodes.len() / 2 {
            self.places = places;
            return Ok(());
        }
        let mut grown = Deadlines::make(alloc, places)?;
        for place in 0..self.places {
            grown.set(place, self.get(place));
        }
        *self = grown;
        Ok(())
    }

    /// Forgets the places behind the first so many, and their deadlines, so that none of these is met any more. Takes no
    /// memory.
    pub fn truncate(&mut self, places: usize)
        requires { places ≤ length self.old }
        ensures { self.new ≡ take places self.old }
    {
        fill_leaves(&mut self.nodes, places, self.places, NEVER);
        self.places = places;
    }

    /// The first place whose deadline is at most this time. Where there is none, one comparison tells so, which no
    /// clause says. Takes no memory.
    pub fn first_until(&self, time: u128) -> Option<usize>
        ensures within { IfSome result (λ place. place < length self.now) }
        ensures found { IfSome result (λ place. slice_index self.now place ≤ time) }
        ensures before { IfSome result (λ place. (other : ℕ) → other < place → time < slice_index self.now other) }
        ensures absent { IfNone result (All (λ deadline. time < deadline) self.now) }
    {
        if time < self.nodes[1] {
            return None;
        }
        let place = first_leaf(&self.nodes, time);
        if place < self.places {
            Some(place)
        } else {
            None
        }
    }
}
