//! Distinct numbers below a size, with a table that tells whether a number is there.
ghost use Rattle.std.specs.Prelude.{◌≡◌, ◌≢◌, ◌<◌, ◌++◌, ◌∷◌, [], false, length, IfOk, OnOk, AllPairs};
ghost use Rattle.resubscribe.specs.Order.{is_among};

use event_types::{List, Memory, Numbers};
use std::alloc::Global;
use std::marker::Model;

/// Numbers in the order in which they were put, each with a mark, by which it is found at once.
#[derive(Drop)]
pub struct Marked {
    numbers: Numbers,
    marks: Vec<bool>,
}

impl Model for Marked {
    ghost use Rattle.std.specs.Prelude.{length};
    ghost use Rattle.resubscribe.specs.Marks.{Few, IsMarked};

    ghost Value = { Few };

    ghost view = { λ s. record { numbers = s.numbers; size = length s.marks.items } };

    ghost invariant = { λ s. IsMarked s.marks.items s.numbers };
}

impl Marked {
    /// No numbers; those from 0 up to a size can be put.
    pub fn new(alloc: Global, size: usize) -> Result<Marked, Memory>
        ensures { IfOk result (λ marked. marked ≡ record { numbers = []; size = size }) }
    {
        Ok(Marked {
            numbers: List::new(alloc),
            marks: vec![in alloc; false; size]?,
        })
    }

    /// Whether the number was put, by one look at its mark.
    pub fn has(&self, number: usize) -> bool
        requires { number < self.now.size }
        ensures { result ≡ is_among self.now.numbers number }
    {
        self.marks[number]
    }

    /// Puts a number at the end. Want of memory leaves them as they were.
    pub fn put(&mut self, number: usize) -> Result<(), Memory>
        requires small { number < self.old.size }
        requires new { is_among self.old.numbers number ≡ false }
        ensures ok { OnOk result (self.new ≡ record { numbers = self.old.numbers ++ number ∷ []; size = self.old.size }) }
        ensures room { length self.old.numbers < self.old.size }
    {
        self.numbers.add(number)?;
        self.marks[number] = true;
        Ok(())
    }

    /// The numbers in the order in which they were put.
    pub fn numbers(&self) -> &Numbers
        ensures value { result.now ≡ self.now.numbers }
        ensures distinct { AllPairs (λ x y. x ≢ y) self.now.numbers }
    {
        &self.numbers
    }

    /// The numbers in the order in which they were put, without their marks.
    pub fn into_numbers(self) -> Numbers
        ensures value { result ≡ self.numbers }
        ensures distinct { AllPairs (λ x y. x ≢ y) self.numbers }
    {
        self.numbers
    }
}
