//! Which numbers are free.
ghost use Rattle.std.specs.Prelude.{◌≡◌, ◌<◌, ℕ, [], ◌∷◌, ◌++◌, IfNone, IfSome, OnErr, OnOk, Some, false, length, slice_get, slice_set, true};

use crate::sum_tree::SumTree;
use event_types::Memory;
use std::alloc::Global;
use std::marker::Model;

/// For each number below a length whether it is free.
///
/// The lowest free number is found, and a number taken or freed, in a time that grows as the logarithm of the length,
/// which no clause says.
#[derive(Drop)]
pub struct FreeNumbers {
    alloc: Global,
    // 1 for each free number, 0 for each other
    ones: SumTree,
}

impl Model for FreeNumbers {
    ghost use Rattle.std.specs.Prelude.{Bool, List};
    ghost use Rattle.long_lists.specs.Free.{AreOnes, are_one};

    ghost Value = { List Bool };

    ghost view = { λ f. are_one f.ones };

    ghost invariant = { λ f. AreOnes f.ones };
}

impl FreeNumbers {
    /// No numbers. Takes no memory.
    pub fn new(alloc: Global) -> FreeNumbers
        ensures { result ≡ [] }
    {
        FreeNumbers {
            alloc,
            ones: SumTree::new(alloc),
        }
    }

    /// A number above all of them. Takes no memory.
    pub fn len(&self) -> usize
        ensures { result ≡ length self.now }
    {
        self.ones.len()
    }

    /// The lowest free number. Takes no memory.
    pub fn lowest(&self) -> Option<usize>
        ensures free { IfSome result (λ number. slice_get self.now number ≡ Some true) }
        ensures lowest { IfSome result (λ number. (below : ℕ) → below < number → slice_get self.now below ≡ Some false) }
        ensures none { IfNone result ((number : ℕ) → number < length self.now → slice_get self.now number ≡ Some false) }
    {
        if self.ones.sum() == 0 {
            return None;
        }
        Some(self.ones.find(0).block)
    }

    /// Makes a number free. Takes no memory.
    pub fn free(&mut self, number: usize)
        requires { number < length self.old }
        ensures { self.new ≡ slice_set self.old number true }
    {
        self.ones.set(number, 1);
    }

    /// Takes a number, which isn't free then. Takes no memory.
    pub fn take(&mut self, number: usize)
        requires { number < length self.old }
        ensures { self.new ≡ slice_set self.old number false }
    {
        self.ones.set(number, 0);
    }

    /// Puts one number more at the end, which isn't free.
    pub fn add(&mut self) -> Result<(), Memory>
        ensures ok { OnOk result (self.new ≡ self.old ++ false ∷ []) }
        ensures kept { OnErr result (self.new ≡ self.old) }
    {
        if self.ones.len() == usize::MAX {
            return Err(Memory);
        }
        self.ones.add(self.alloc, 0)?;
        Ok(())
    }
}
