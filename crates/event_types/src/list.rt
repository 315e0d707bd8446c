//! A list of items.
ghost use Rattle.std.specs.Prelude.{◌≡◌, ◌<◌, [], ◌∷◌, ◌++◌, ◌↔◌, ◌≤◌, length, take, drop, slice_get, IsPermutation, IsSorted, IsSome, IfOk, IfErr, OnOk, OnErr};
ghost use Rattle.std.specs.List.{remove};
ghost use Rattle.std.specs.Option.{option_to_list};
ghost use Rattle.std.specs.Borrow.{sem};
ghost use Rattle.std.specs.Cmp.Lexicographic.{slice_cmp, slice_partial_cmp, pointwise, lists_equiv, lists_agrees, lists_total, lists_ties, lists_po, lists_per};

use crate::memory::Memory;
use std::alloc::Global;
use std::cmp::Ordering;
use std::marker::Model;

/// A list of items, in the order in which they were put.
#[derive(Drop)]
pub struct List<T> {
    held: Vec<T>,
}

impl<T> Model for List<T> {
    ghost use Rattle.std.specs.Prelude.{List};

    ghost Value = { List T };

    ghost view = { λ s. s.held.items };
}

/// Numbers of queries, states or streams, each counted from 0.
pub type Numbers = List<usize>;

impl<T> List<T> {
    /// Takes no memory.
    pub fn new(alloc: Global) -> List<T>
        ensures { result ≡ [] }
    {
        List {
            held: Vec::new(alloc),
        }
    }

    /// An empty list with room for so many items.
    pub fn with_room(alloc: Global, items: usize) -> Result<List<T>, Memory>
        ensures { IfOk result (λ list. list ≡ []) }
    {
        let held = Vec::with_capacity(alloc, items)?;
        Ok(List { held })
    }

    /// The number of items.
    pub fn len(&self) -> usize
        ensures { result ≡ length self.now }
    {
        self.held.len()
    }

    /// The item at a place, counted from 0.
    pub fn get(&self, place: usize) -> &T
        requires { place < length self.now }
        ensures { slice_get self.now place ≡ Some result.now }
    {
        &self.held[place]
    }

    /// The items in their order. Takes no memory.
    pub fn as_slice(&self) -> &[T]
        ensures { result.now ≡ self.now }
    {
        self.held.as_slice()
    }

    /// Puts the item at the end. Want of memory hands it back.
    #[inline(always)]
    pub fn push(&mut self, item: T) -> Result<(), T>
        ensures ok { OnOk result (self.new ≡ self.old ++ item ∷ []) }
        ensures handed_back { IfErr result (λ back. back ≡ item) }
        ensures kept { OnErr result (self.new ≡ self.old) }
    {
        match self.held.push(item) {
            Ok(()) => Ok(()),
            Err(refused) => Err(refused.value),
        }
    }

    /// Puts the item at the end. Want of memory drops it.
    #[inline(always)]
    pub fn add(&mut self, item: T) -> Result<(), Memory>
    where
        T: Drop,
        ensures ok { OnOk result (self.new ≡ self.old ++ item ∷ []) }
        ensures kept { OnErr result (self.new ≡ self.old) }
    {
        self.held.push(item)?;
        Ok(())
    }

    /// Moves the items of the other list to the end. Want of memory drops them.
    pub fn append(&mut self, more: List<T>) -> Result<(), Memory>
    where
        T: Drop,
        ensures ok { OnOk result (self.new ≡ self.old ++ more) }
        ensures kept { OnErr result (self.new ≡ self.old) }
    {
        let mut held = more.held;
        self.held.append(&mut held)?;
        Ok(())
    }

    /// Takes the last item out. Takes no memory.
    pub fn pop(&mut self) -> Option<T>
        ensures items { self.old ≡ self.new ++ option_to_list result }
        ensures found { IsSome result ↔ (0 < length self.old) }
    {
        self.held.pop()
    }

    /// Takes the item at a place out, counted from 0; those behind it move up. Takes no memory.
    pub fn remove(&mut self, place: usize) -> T
        requires { place < length self.old }
        ensures value { slice_get self.old place ≡ Some result }
        ensures others { self.new ≡ remove self.old place }
    {
        self.held.remove(place)
    }

    /// Drops the items behind the first so many, and keeps their room. Takes no memory.
    pub fn truncate(&mut self, len: usize)
    where
        T: Drop,
        ensures { self.new ≡ take len self.old }
    {
        self.held.truncate(len);
    }

    /// Drops the items from one place up to another; those behind them move up. Takes no memory.
    pub fn cut(&mut self, first: usize, end: usize)
    where
        T: Drop,
        requires up { first ≤ end }
        requires within { end ≤ length self.old }
        ensures { self.new ≡ take first self.old ++ drop end self.old }
    {
        for _ in first..end {
            self.held.remove(first);
        }
    }

    /// Drops all items and keeps their room. Takes no memory.
    pub fn clear(&mut self)
    where
        T: Drop,
        ensures { self.new ≡ [] }
    {
        self.held.clear();
    }

    /// Takes no memory.
    pub fn sort(&mut self)
    where
        T: Ord,
        ensures permutation { IsPermutation self.old self.new }
        ensures sorted { IsSorted T.cmp self.new }
    {
        self.held.sort_unstable();
    }
}

impl<T> List<T> {
    ghost use Rattle.event_types.specs.Lending.{lends_item};

    /// The item at a place, counted from 0, to be changed.
    pub fn get_mut(&mut self, place: usize) -> &mut T
        requires { place < length self.old }
        ensures* writes_back { sem 𝓛 (lends_item T.row self.entry place result) }
        ensures value { slice_get self.old place ≡ Some result.now }
    {
        &mut self.held[place]
    }
}

impl<T: PartialEq> PartialEq for List<T> {
    ghost eq = { λ x y. pointwise T.eq x y };

    ghost laws = { lists_per T.laws };

    fn eq(&self, other: &Self) -> bool {
        self.held == other.held
    }
}

impl<T: Eq> Eq for List<T> {
    ghost laws = { lists_equiv T.Eq.laws };
}

impl<T: PartialOrd> PartialOrd for List<T> {
    ghost partial_cmp = { λ x y. slice_partial_cmp T.partial_cmp x y };

    ghost laws = { lists_po T.PartialOrd.laws };

    fn partial_cmp(&self, other: &Self) -> Option<Ordering> {
        self.held.partial_cmp(&other.held)
    }
}

impl<T: Ord> Ord for List<T> {
    ghost cmp = { λ x y. slice_cmp T.cmp x y };

    ghost total = { lists_total T.total };

    ghost matches_partial_cmp = { λ x y. lists_agrees T.matches_partial_cmp x y };

    ghost matches_eq = { λ x y. lists_ties T.cmp T.matches_eq x y };

    fn cmp(&self, other: &Self) -> Ordering {
        self.held.cmp(&other.held)
    }
}

/// A type whose values can be copied where there is memory.
pub trait Copied {
    /// An equal value.
    fn copied(&self, alloc: Global) -> Result<Self, Memory>
        ensures { IfOk result (λ copy. copy ≡ self.now) };
}

impl<T: Copied + Drop> Copied for List<T> {
    fn copied(&self, alloc: Global) -> Result<Self, Memory> {
        let mut held = Vec::with_capacity(alloc, self.held.len())?;
        'items: for item in &self.held {
            held.push(item.copied(alloc)?)?;
        }
        Ok(List { held })
    }
}
