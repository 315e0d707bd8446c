//! Lists in blocks.
ghost use Rattle.std.specs.Prelude.{◌≡◌, ◌<◌, ◌≤◌, ◌+◌, ◌-◌, ◌^◌, ◌↔◌, [], ◌∷◌, ◌++◌, IsTrue, length, slice_get, slice_index_or, slice_set, take, OnErr, OnOk};
ghost use Rattle.std.specs.List.{remove};
ghost use Rattle.long_lists.specs.Blocks.{IsFullCount, IsPlaceIn, closed_of, joined};

use crate::nodes::Spot;
use crate::sum_tree::SumTree;
use event_types::{List, Memory};
use std::alloc::Global;
use std::marker::Model;
use std::mem;

// How many items a block has before another is opened behind it.
const BLOCK: usize = 64;

/// Items in blocks, one behind another.
///
/// Items are put into the last block until it is full. It is then closed, and another is opened behind it. Items leave
/// any block, and a closed one that is empty stays where it is, without room for items.
#[derive(Drop)]
pub(crate) struct Blocks<T> {
    closed: List<List<T>>,
    // of the closed blocks
    lengths: SumTree,
    // so many closed blocks, the first ones, are known to be full
    full: usize,
    last: List<T>,
    alloc: Global,
}

impl<T> Model for Blocks<T> {
    ghost use Rattle.std.specs.Prelude.{List, [], ◌∷◌, ◌++◌};
    ghost use Rattle.long_lists.specs.Blocks.{AreBlocks};

    ghost Value = { List (List T) };

    ghost view = { λ b. b.closed ++ b.last ∷ [] };

    ghost invariant = { λ b. AreBlocks b.closed b.lengths b.full b.last };
}

impl<T> Blocks<T> {
    /// One block, with no items. Takes no memory.
    pub(crate) fn new(alloc: Global) -> Blocks<T>
        ensures { result ≡ [] ∷ [] }
    {
        Blocks {
            closed: List::new(alloc),
            lengths: SumTree::new(alloc),
            full: 0,
            last: List::new(alloc),
            alloc,
        }
    }

    /// The allocator that the blocks were made with.
    pub(crate) fn alloc(&self) -> Global {
        self.alloc
    }

    /// The number of items. Takes no memory.
    pub(crate) fn len(&self) -> usize
        ensures { result ≡ length (joined self.now) }
    {
        self.lengths.sum() + self.last.len()
    }

    /// The number of closed blocks, all but the last one. Takes no memory.
    pub(crate) fn closed(&self) -> usize
        ensures { result + 1 ≡ length self.now }
    {
        self.closed.len()
    }

    /// The number of items in the closed blocks. Takes no memory.
    pub(crate) fn closed_len(&self) -> usize
        ensures { result ≡ length (joined (closed_of self.now)) }
    {
        self.lengths.sum()
    }

    /// The block at a place among the blocks, counted from 0. Takes no memory.
    pub(crate) fn block(&self, block: usize) -> &List<T>
        requires { block < length self.now }
        ensures { slice_get self.now block ≡ Some result.now }
    {
        if block < self.closed.len() {
            self.closed.get(block)
        } else {
            &self.last
        }
    }

    /// The item at a place, counted from 0. Takes no memory.
    pub(crate) fn item(&self, place: usize) -> &T
        requires { place < length (joined self.now) }
        ensures { slice_get (joined self.now) place ≡ Some result.now }
    {
        let spot = self.spot(place);
        self.block(spot.block).get(spot.offset)
    }

    /// The block in which the item at a place is, and the items before it there. While nothing has left a closed block,
    /// it is a division, else no more nodes are looked at than the tree is high, which no clause says. Takes no memory.
    pub(crate) fn spot(&self, place: usize) -> Spot
        requires { place < length (joined self.now) }
        ensures { IsPlaceIn self.now place result.block result.offset }
    {
        let block = place / BLOCK;
        if block < self.full {
            return Spot {
                block,
                offset: place % BLOCK,
            };
        }
        let closed = self.lengths.sum();
        if place < closed {
            return self.lengths.find(place);
        }
        Spot {
            block: self.closed.len(),
            offset: place - closed,
        }
    }

    /// Takes an item out of its block. No more items are moved than a block has. Takes no memory.
    pub(crate) fn take_out(&mut self, spot: Spot) -> T
    where
        T: Drop,
        requires block { spot.block < length self.old }
        requires offset { spot.offset < length (slice_index_or self.old spot.block []) }
        ensures value { slice_get (slice_index_or self.old spot.block []) spot.offset ≡ Some result }
        ensures others { self.new ≡ slice_set self.old spot.block (remove (slice_index_or self.old spot.block []) spot.offset) }
    {
        if spot.block == self.closed.len() {
            return self.last.remove(spot.offset);
        }
        let block = self.closed.get_mut(spot.block);
        let item = take_item(self.alloc, block, spot.offset);
        let left = block.len();
        self.lengths.set(spot.block, left);
        self.full = self.full.min(spot.block);
        item
    }

    /// Whether the last block is not full, which no clause says. Takes no memory.
    pub(crate) fn has_room(&self) -> bool {
        self.last.len() < BLOCK
    }

    /// Puts an item at the end of the last block. Want of memory drops it.
    pub(crate) fn put(&mut self, item: T) -> Result<(), Memory>
    where
        T: Drop,
        requires { length (joined self.old) + 1 < 2 ^ 64 }
        ensures closed { closed_of self.new ≡ closed_of self.old }
        ensures ok { OnOk result (joined self.new ≡ joined self.old ++ item ∷ []) }
        ensures kept { OnErr result (joined self.new ≡ joined self.old) }
    {
        self.last.add(item)?;
        Ok(())
    }

    /// Closes the last block, and opens another behind it.
    pub(crate) fn close(&mut self) -> Result<(), Memory>
    where
        T: Drop,
        ensures ok { OnOk result (self.new ≡ self.old ++ [] ∷ []) }
        ensures kept { OnErr result (self.new ≡ self.old) }
    {
        let opened = List::with_room(self.alloc, BLOCK)?;
        self.lengths.add(self.alloc, self.last.len())?;
        let closed = mem::replace(&mut self.last, opened);
        let len = closed.len();
        if let Err(back) = self.closed.push(closed) {
            self.last = back;
            self.lengths.pop();
            return Err(Memory);
        }
        self.full = count_full(self.full, self.closed.len(), len);
        Ok(())
    }

    /// Drops the items behind the first so many, in a time that grows as their number. Takes no memory.
    pub(crate) fn truncate(&mut self, len: usize)
    where
        T: Drop,
        ensures closed { closed_of self.new ≡ take (length self.new - 1) (closed_of self.old) }
        ensures items { joined self.new ≡ take len (joined self.old) }
    {
        while len < self.closed_len() {
            self.reopen();
        }
        let rest = len - self.closed_len();
        self.cut_last(rest);
    }

    /// Drops the last block; the one before it is open again. Takes no memory.
    pub(crate) fn reopen(&mut self)
    where
        T: Drop,
        requires { 1 < length self.old }
        ensures { self.new ≡ closed_of self.old }
    {
        let Some(last) = self.closed.pop() else {
            return;
        };
        self.lengths.pop();
        self.full = self.full.min(self.closed.len());
        self.last = last;
    }

    /// Drops the items of the last block behind the first so many. Takes no memory.
    pub(crate) fn cut_last(&mut self, len: usize)
    where
        T: Drop,
        ensures closed { closed_of self.new ≡ closed_of self.old }
        ensures items { joined self.new ≡ take (length (joined (closed_of self.old)) + len) (joined self.old) }
    {
        self.last.truncate(len);
    }
}

// Takes an item out of a block, and gives back the room of a block that has no more.
fn take_item<T: Drop>(alloc: Global, block: &mut List<T>, offset: usize) -> T
    requires { offset < length block.old }
    ensures value { slice_get block.old offset ≡ Some result }
    ensures others { block.new ≡ remove block.old offset }
{
    let item = block.remove(offset);
    if block.len() == 0 {
        *block = List::new(alloc);
    }
    item
}

// How many blocks, the first ones, are known to be full, where so many were, and the last of some has a length.
fn count_full(full: usize, blocks: usize, len: usize) -> usize
    requires { 0 < blocks }
    ensures { IsFullCount full blocks len result }
{
    if len == BLOCK && full == blocks - 1 {
        blocks
    } else {
        full
    }
}
