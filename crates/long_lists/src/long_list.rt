//! A long list from which items leave at any place.
ghost use Rattle.std.specs.Prelude.{◌≡◌, ◌<◌, ◌≤◌, [], ◌∷◌, ◌++◌, length, drop, reverse, slice_get, take, IfOk, OnOk, OnErr};
ghost use Rattle.std.specs.List.{remove};

use crate::blocks::Blocks;
use event_types::{List, Memory};
use std::alloc::Global;
use std::marker::Model;

/// A list of items, in the order in which they were put.
///
/// An item is read, put or taken out in a time that grows as the logarithm of the list's length, which no clause says.
#[derive(Drop)]
pub struct LongList<T> {
    held: Blocks<T>,
}

impl<T> Model for LongList<T> {
    ghost use Rattle.std.specs.Prelude.{List};
    ghost use Rattle.long_lists.specs.Blocks.{joined};

    ghost Value = { List T };

    ghost view = { λ s. joined s.held };
}

/// Numbers of streams, of ends or of queries, each counted from 0.
pub type LongNumbers = LongList<usize>;

impl<T> LongList<T> {
    /// Takes no memory.
    pub fn new(alloc: Global) -> LongList<T>
        ensures { result ≡ [] }
    {
        LongList {
            held: Blocks::new(alloc),
        }
    }

    /// The items of a list, in a time that grows as their number. Want of memory drops them.
    pub fn of(alloc: Global, items: List<T>) -> Result<LongList<T>, Memory>
    where
        T: Drop,
        ensures { IfOk result (λ list. list ≡ items) }
    {
        let mut list = LongList::new(alloc);
        list.append(items)?;
        Ok(list)
    }

    /// The number of items.
    pub fn len(&self) -> usize
        ensures { result ≡ length self.now }
    {
        self.held.len()
    }

    /// The item at a place, counted from 0. It is found by a division while items left only at the end.
    pub fn get(&self, place: usize) -> &T
        requires { place < length self.now }
        ensures { slice_get self.now place ≡ Some result.now }
    {
        self.held.item(place)
    }

    /// Puts the item at the end. Want of memory drops it.
    pub fn add(&mut self, item: T) -> Result<(), Memory>
    where
        T: Drop,
        ensures ok { OnOk result (self.new ≡ self.old ++ item ∷ []) }
        ensures kept { OnErr result (self.new ≡ self.old) }
    {
        if self.held.len() == usize::MAX {
            return Err(Memory);
        }
        if !self.held.has_room() {
            self.held.close()?;
        }
        self.held.put(item)
    }

    /// Moves the items of a list to the end, in a time that grows as their number. Want of memory drops them.
    pub fn append(&mut self, more: List<T>) -> Result<(), Memory>
    where
        T: Drop,
        ensures ok { OnOk result (self.new ≡ self.old ++ more) }
        ensures kept { OnErr result (self.new ≡ self.old) }
    {
        let len = self.len();
        let mut backwards = reversed(self.held.alloc(), more)?;
        while let Some(item) = backwards.pop() {
            if let Err(fault) = self.add(item) {
                self.truncate(len);
                return Err(fault);
            }
        }
        Ok(())
    }

    /// Takes the item at a place out, counted from 0; those behind it move up. Takes no memory.
    pub fn remove(&mut self, place: usize) -> T
    where
        T: Drop,
        requires { place < length self.old }
        ensures value { slice_get self.old place ≡ Some result }
        ensures others { self.new ≡ remove self.old place }
    {
        let spot = self.held.spot(place);
        self.held.take_out(spot)
    }

    /// Drops the items from one place up to another; those behind them move up. Each is found in a time that grows as the
    /// logarithm of the list's length. Takes no memory.
    pub fn cut(&mut self, first: usize, end: usize)
    where
        T: Drop,
        requires up { first ≤ end }
        requires within { end ≤ length self.old }
        ensures { self.new ≡ take first self.old ++ drop end self.old }
    {
        for _ in first..end {
            self.remove(first);
        }
    }

    /// Drops the items behind the first so many, in a time that grows as their number. Takes no memory.
    pub fn truncate(&mut self, len: usize)
    where
        T: Drop,
        ensures { self.new ≡ take len self.old }
    {
        self.held.truncate(len);
    }
}

// The items of a list from the last to the first.
fn reversed<T: Drop>(alloc: Global, items: List<T>) -> Result<List<T>, Memory>
    ensures { IfOk result (λ backwards. backwards ≡ reverse items) }
{
    let mut items = items;
    let mut backwards = List::with_room(alloc, items.len())?;
    while let Some(item) = items.pop() {
        backwards.add(item)?;
    }
    Ok(backwards)
}
