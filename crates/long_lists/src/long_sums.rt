//! A long list of numbers whose sums are known.
ghost use Rattle.std.specs.Prelude.{◌≡◌, ◌<◌, ◌≤◌, ◌+◌, ◌^◌, [], ◌∷◌, ◌++◌, length, slice_get, sum_by, take, OnErr, OnOk};
ghost use Rattle.std.specs.List.{remove, sum};

use crate::blocks::Blocks;
use crate::sum_tree::SumTree;
use event_types::{List, Memory};
use std::alloc::Global;
use std::marker::Model;

/// A list of numbers whose sum is below 2^64.
///
/// A number is read, put or taken out, and the sum before a place is found, in a time that grows as the logarithm of the
/// list's length, which no clause says.
#[derive(Drop)]
pub struct LongSums {
    numbers: Blocks<usize>,
    // of the closed blocks
    sums: SumTree,
}

impl Model for LongSums {
    ghost use Rattle.std.specs.Prelude.{ℕ, List};
    ghost use Rattle.long_lists.specs.Blocks.{AreSums, joined};

    ghost Value = { List ℕ };

    ghost view = { λ s. joined s.numbers };

    ghost invariant = { λ s. AreSums s.numbers s.sums };
}

impl LongSums {
    /// Takes no memory.
    pub fn new(alloc: Global) -> LongSums
        ensures { result ≡ [] }
    {
        LongSums {
            numbers: Blocks::new(alloc),
            sums: SumTree::new(alloc),
        }
    }

    /// How many numbers there are.
    pub fn len(&self) -> usize
        ensures { result ≡ length self.now }
    {
        self.numbers.len()
    }

    /// The number at a place, counted from 0.
    pub fn get(&self, place: usize) -> usize
        requires { place < length self.now }
        ensures { slice_get self.now place ≡ Some result }
    {
        *self.numbers.item(place)
    }

    /// The sum of the numbers before a place.
    pub fn before(&self, place: usize) -> usize
        requires { place ≤ length self.now }
        ensures value { result ≡ sum_by (λ number. number) (take place self.now) }
        ensures whole { sum_by (λ number. number) self.now < 2 ^ 64 }
    {
        let closed = self.numbers.closed_len();
        if place < closed {
            let spot = self.numbers.spot(place);
            let first = sum_of_first(self.numbers.block(spot.block), spot.offset);
            return self.sums.before(spot.block) + first;
        }
        let last = self.numbers.block(self.numbers.closed());
        self.sums.sum() + sum_of_first(last, place - closed)
    }

    /// Puts a number at the end.
    pub fn add(&mut self, number: usize) -> Result<(), Memory>
        requires { sum_by (λ number. number) self.old + number < 2 ^ 64 }
        ensures ok { OnOk result (self.new ≡ self.old ++ number ∷ []) }
        ensures kept { OnErr result (self.new ≡ self.old) }
    {
        if self.numbers.len() == usize::MAX {
            return Err(Memory);
        }
        if !self.numbers.has_room() {
            self.open_block()?;
        }
        self.numbers.put(number)?;
        Ok(())
    }

    // Opens another block for the numbers.
    fn open_block(&mut self) -> Result<(), Memory>
        ensures { self.new ≡ self.old }
    {
        let last = self.numbers.block(self.numbers.closed());
        let sum = sum_of_first(last, last.len());
        self.sums.add(self.numbers.alloc(), sum)?;
        if let Err(fault) = self.numbers.close() {
            self.sums.pop();
            return Err(fault);
        }
        Ok(())
    }

    /// Takes the number at a place out, counted from 0; those behind it move up. Takes no memory.
    pub fn remove(&mut self, place: usize) -> usize
        requires { place < length self.old }
        ensures value { slice_get self.old place ≡ Some result }
        ensures others { self.new ≡ remove self.old place }
    {
        let spot = self.numbers.spot(place);
        let number = self.numbers.take_out(spot);
        self.sums.lessen(spot.block, number);
        number
    }

    /// Drops the numbers behind the first so many, in a time that grows as their number. Takes no memory.
    pub fn truncate(&mut self, len: usize)
        ensures { self.new ≡ take len self.old }
    {
        self.numbers.truncate(len);
        self.sums.truncate(self.numbers.closed());
    }
}

// The sum of the first numbers, so many.
fn sum_of_first(numbers: &List<usize>, count: usize) -> usize
    requires within { count ≤ length numbers.now }
    requires fits { sum numbers.now < 2 ^ 64 }
    ensures { result ≡ sum (take count numbers.now) }
{
    let mut sum = 0;
    for number in &numbers.as_slice()[..count] {
        sum += *number;
    }
    sum
}
