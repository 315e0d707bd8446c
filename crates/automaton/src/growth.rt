//! Layouts that grow and shrink in place.
ghost use Rattle.std.specs.Prelude.{◌≡◌, ◌<◌, ◌≤◌, IfOk, OnErr, OnOk, length};
ghost use Rattle.automaton.specs.Layouts.{cut_back, growth_behind, grown, shrunk, sizes_of};

use crate::layout::{Layout, copy_kind_lists, copy_numbers, numbers_from};
use event_types::{KindLists, Memory, Numbers};
use std::alloc::Global;

/// What a layout grows by, each list at the end.
#[derive(Drop)]
pub struct Growth {
    pub order: Numbers,
    pub outs: Numbers,
    pub kinds: KindLists,
}

/// What a layout loses: the streams from the place `first` of the order of work up to the place `end`, and the printed
/// stream at the place `out`. The kinds of all streams stay.
#[derive(Clone, Copy, Drop)]
pub struct Shrinkage {
    pub first: usize,
    pub end: usize,
    pub out: usize,
}

impl Growth {
    /// An equal growth.
    pub fn copy(&self, alloc: Global) -> Result<Growth, Memory>
        ensures { IfOk result (λ copy. copy ≡ self.now) }
    {
        let order = copy_numbers(alloc, self.order.as_slice())?;
        let outs = copy_numbers(alloc, self.outs.as_slice())?;
        let kinds = copy_kind_lists(alloc, self.kinds.as_slice())?;
        Ok(Growth { order, outs, kinds })
    }
}

/// How many streams a layout has in the order of work, printed, and in all.
#[derive(Clone, Copy, Drop)]
pub struct Sizes {
    pub worked: usize,
    pub printed: usize,
    pub all: usize,
}

impl Layout {
    /// Takes no memory.
    pub fn sizes(&self) -> Sizes
        ensures { result ≡ sizes_of self.now }
    {
        Sizes {
            worked: self.order.len(),
            printed: self.outs.len(),
            all: self.kinds.len(),
        }
    }

    /// What the layout has behind that of these sizes.
    pub fn growth_behind(&self, alloc: Global, sizes: Sizes) -> Result<Growth, Memory>
        requires worked { sizes.worked ≤ length self.now.order }
        requires printed { sizes.printed ≤ length self.now.outs }
        requires all { sizes.all ≤ length self.now.kinds }
        ensures { IfOk result (λ growth. growth ≡ growth_behind self.now sizes) }
    {
        let order = numbers_from(alloc, &self.order, sizes.worked)?;
        let outs = numbers_from(alloc, &self.outs, sizes.printed)?;
        let kinds = copy_kind_lists(alloc, &self.kinds.as_slice()[sizes.all..])?;
        Ok(Growth { order, outs, kinds })
    }

    /// Takes out what the layout has behind that of these sizes. Takes no memory.
    pub fn cut_back(&mut self, sizes: Sizes)
        ensures { self.new ≡ cut_back self.old sizes }
    {
        self.order.truncate(sizes.worked);
        self.outs.truncate(sizes.printed);
        self.kinds.truncate(sizes.all);
    }

    /// Puts a growth at the end. Want of memory drops it.
    pub fn grow(&mut self, growth: Growth) -> Result<(), Memory>
        ensures ok { OnOk result (self.new ≡ grown self.old growth) }
        ensures kept { OnErr result (self.new ≡ self.old) }
    {
        let before = self.sizes();
        self.order.append(growth.order)?;
        if let Err(_) = self.outs.append(growth.outs) {
            self.cut_back(before);
            return Err(Memory);
        }
        if let Err(_) = self.kinds.append(growth.kinds) {
            self.cut_back(before);
            return Err(Memory);
        }
        Ok(())
    }

    /// Takes a part out. Takes no memory.
    pub fn shrink(&mut self, part: Shrinkage)
        requires up { part.first ≤ part.end }
        requires within { part.end ≤ length self.old.order }
        requires printed { part.out < length self.old.outs }
        ensures { self.new ≡ shrunk self.old part }
    {
        self.order.cut(part.first, part.end);
        self.outs.remove(part.out);
    }
}
