//! A list of numbers, of which the first two stand in place.
ghost use Rattle.std.specs.Prelude.{◌≡◌, ◌<◌, ◌∷◌, ◌++◌, [], length, take, slice_set, OnErr, OnOk};

use event_types::Memory;
use smallvec::SmallVec;
use std::alloc::Global;
use std::marker::Model;

/// A list of numbers. Two stand in the list itself; where more come, all stand on the heap.
#[derive(Drop)]
pub struct ShortList {
    held: SmallVec<usize, 2>,
}

impl Model for ShortList {
    ghost use Rattle.std.specs.Prelude.{List, ℕ};

    ghost Value = { List ℕ };

    ghost view = { λ s. s.held.items };
}

impl ShortList {
    /// No numbers. Takes no memory.
    pub fn new(alloc: Global) -> ShortList
        ensures { result ≡ [] }
    {
        ShortList {
            held: SmallVec::new(alloc),
        }
    }

    /// How many numbers there are.
    #[inline(always)]
    pub fn len(&self) -> usize
        ensures { result ≡ length self.now }
    {
        self.held.len()
    }

    /// The numbers in their order. Takes no memory.
    #[inline(always)]
    pub fn as_slice(&self) -> &[usize]
        ensures { result.now ≡ self.now }
    {
        self.held.as_slice()
    }

    /// Puts a number at the end.
    #[inline(always)]
    pub fn add(&mut self, number: usize) -> Result<(), Memory>
        ensures ok { OnOk result (self.new ≡ self.old ++ number ∷ []) }
        ensures kept { OnErr result (self.new ≡ self.old) }
    {
        match self.held.push(number) {
            Ok(()) => Ok(()),
            Err(_) => Err(Memory),
        }
    }

    /// Puts a number at a place in place of the one there. Takes no memory.
    pub fn set(&mut self, place: usize, number: usize)
        requires { place < length self.old }
        ensures { self.new ≡ slice_set self.old place number }
    {
        self.held.as_mut_slice()[place] = number;
    }

    /// Drops the numbers behind the first so many, and keeps their room. Takes no memory.
    pub fn truncate(&mut self, len: usize)
        ensures { self.new ≡ take len self.old }
    {
        self.held.truncate(len);
    }

    /// Drops all numbers and keeps their room. Takes no memory.
    #[inline(always)]
    pub fn clear(&mut self)
        ensures { self.new ≡ [] }
    {
        self.held.clear();
    }
}
