//! Numbers whose sums are known.
ghost use Rattle.std.specs.Prelude.{◌≡◌, ◌<◌, ◌≤◌, ◌+◌, ◌-◌, ◌^◌, [], ◌∷◌, ◌++◌, length, slice_index, slice_set, take, OnErr, OnOk, IfOk};
ghost use Rattle.std.specs.List.{sum};
ghost use Rattle.long_lists.specs.SumTree.{HasLeaves, HasMoreLeaves, HasRoom, IsSumTree, IsUnitAt};

use crate::nodes::{Spot, find_leaf, set_leaf, sum_before};
use event_types::Memory;
use std::alloc::Global;
use std::marker::Model;

/// A number for each block, whose sum is below 2^64.
///
/// They are the leaves of a tree, in which each other node has the sum of its two children. The children of node n are
/// 2n and 2n+1, and the root is node 1.
#[derive(Drop)]
pub(crate) struct SumTree {
    nodes: Vec<usize>,
    // how many of the leaves are numbers of blocks, the first ones; the others are 0
    count: usize,
}

impl Model for SumTree {
    ghost use Rattle.std.specs.Prelude.{ℕ, List, take};
    ghost use Rattle.long_lists.specs.SumTree.{HasLeaves, leaves_of};

    ghost Value = { List ℕ };

    ghost view = { λ t. take t.count (leaves_of t.nodes.items) };

    ghost invariant = { λ t. HasLeaves t.nodes.items t.count };
}

impl SumTree {
    /// Takes no memory.
    pub(crate) fn new(alloc: Global) -> SumTree
        ensures { result ≡ [] }
    {
        SumTree {
            nodes: Vec::new(alloc),
            count: 0,
        }
    }

    /// How many blocks there are. Takes no memory.
    pub(crate) fn len(&self) -> usize
        ensures { result ≡ length self.now }
    {
        self.count
    }

    /// The number of a block. Takes no memory.
    pub(crate) fn get(&self, block: usize) -> usize
        requires { block < length self.now }
        ensures { result ≡ slice_index self.now block }
    {
        self.nodes[self.nodes.len() / 2 + block]
    }

    /// The sum of all numbers. Takes no memory.
    pub(crate) fn sum(&self) -> usize
        ensures { result ≡ sum self.now }
    {
        if self.nodes.is_empty() {
            0
        } else {
            self.nodes[1]
        }
    }

    /// The sum of the numbers of the blocks before one. No more nodes are looked at than the tree is high, which no
    /// clause says. Takes no memory.
    pub(crate) fn before(&self, block: usize) -> usize
        requires { block < length self.now }
        ensures { result ≡ sum (take block self.now) }
    {
        sum_before(&self.nodes, block)
    }

    /// The block in which a unit lies, counted from 0 over the numbers of all blocks, and the units before it there. No
    /// more nodes are looked at than the tree is high, which no clause says. Takes no memory.
    pub(crate) fn find(&self, unit: usize) -> Spot
        requires { unit < sum self.now }
        ensures { IsUnitAt self.now unit result.block result.offset }
    {
        find_leaf(&self.nodes, unit)
    }

    /// Gives a block another number. No more nodes are looked at than the tree is high, which no clause says. Takes no
    /// memory.
    pub(crate) fn set(&mut self, block: usize, number: usize)
        requires within { block < length self.old }
        requires fits { sum (slice_set self.old block number) < 2 ^ 64 }
        ensures { self.new ≡ slice_set self.old block number }
    {
        set_leaf(&mut self.nodes, block, number);
    }

    /// Takes so many from the number of a block, where there is such a block. Takes no memory.
    pub(crate) fn lessen(&mut self, block: usize, by: usize)
        requires within { block < length self.old → by ≤ slice_index self.old block }
        requires fits { sum self.old < 2 ^ 64 }
        ensures { self.new ≡ slice_set self.old block (slice_index self.old block - by) }
    {
        if block < self.len() {
            let left = self.get(block) - by;
            self.set(block, left);
        }
    }

    /// Puts the number of one block more at the end. The tree is made anew only where it has no leaves left, with twice
    /// as many, which no clause says.
    pub(crate) fn add(&mut self, alloc: Global, number: usize) -> Result<(), Memory>
        requires { sum self.old + number < 2 ^ 64 }
        ensures ok { OnOk result (self.new ≡ self.old ++ number ∷ []) }
        ensures kept { OnErr result (self.new ≡ self.old) }
    {
        make_room(alloc, &mut self.nodes, self.count)?;
        set_leaf(&mut self.nodes, self.count, number);
        self.count += 1;
        Ok(())
    }

    /// Drops the numbers of the blocks behind the first so many. Takes no memory.
    pub(crate) fn truncate(&mut self, count: usize)
        ensures { self.new ≡ take count self.old }
    {
        while count < self.len() {
            self.pop();
        }
    }

    /// Drops the number of the last block. Takes no memory.
    pub(crate) fn pop(&mut self)
        requires { 0 < length self.old }
        ensures { self.new ≡ take (length self.old - 1) self.old }
    {
        let last = self.count - 1;
        set_leaf(&mut self.nodes, last, 0);
        self.count = last;
    }
}

// A leaf behind so many is left afterwards.
fn make_room(alloc: Global, nodes: &mut Vec<usize>, count: usize) -> Result<(), Memory>
    requires { HasLeaves nodes.old.items count }
    ensures ok { OnOk result (HasRoom nodes.old.items nodes.new.items count) }
    ensures kept { OnErr result (nodes.new.items ≡ nodes.old.items) }
{
    if count < nodes.len() / 2 {
        return Ok(());
    }
    *nodes = doubled(alloc, nodes)?;
    Ok(())
}

// A tree with twice as many leaves, of which the first are those of the other, and the others are 0.
fn doubled(alloc: Global, nodes: &[usize]) -> Result<Vec<usize>, Memory>
    requires { IsSumTree nodes.now }
    ensures { IfOk result (λ grown. HasMoreLeaves nodes.now grown.items) }
{
    let leaves = nodes.len() / 2;
    let Some(count) = nodes.len().max(1).checked_mul(2) else {
        return Err(Memory);
    };
    let mut grown = vec![in alloc; 0; count]?;
    for leaf in 0..leaves {
        set_leaf(&mut grown, leaf, nodes[leaves + leaf]);
    }
    Ok(grown)
}
