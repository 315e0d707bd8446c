//! A count of steps that holds no bytes at run time.
//!
//! Contracts see `Steps` as a number.
#![tactic(auto)]

ghost use Rattle.std.specs.Prelude.{◌≡◌, ◌+◌, ◌<◌};

use std::marker::{Brand, Model};
use std::sync::ledger::{Blank, Book, Share};

/// Names one count of steps. It has no functions.
pub use std::sync::ledger::Ledger;

/// The ledger of a caller that asks for no bound on its steps.
pub type Quiet = Brand;

/// How many steps were taken since the count was made.
#[derive(Drop)]
pub struct Steps<L: Ledger> {
    book: Book<L>,
    share: Share<L>,
}

impl<L: Ledger> Model for Steps<L> {
    ghost use Rattle.std.specs.Prelude.{ℕ, ◌<◌};

    ghost Value = { ℕ };

    ghost view = { λ s. s.book.total };

    ghost invariant = { λ s. 0 < s.share.parts };
}

impl<L: Ledger> Steps<L> {
    /// Starts the count of a ledger, whose blank no second count can have.
    pub fn new(blank: Blank) -> Steps<L>
        requires name { blank.name ≡ L.name }
        requires parts { blank.parts ≡ L.parts }
        requires some { 0 < blank.parts }
        ensures { result ≡ 0 }
    {
        let (book, share) = blank.open();
        Steps { book, share }
    }

    /// Counts one step, for proofs alone: the count holds no bytes when the program runs.
    pub fn tick(&mut self)
        ensures { self.new ≡ self.old + 1 }
    {
        self.book.add(&mut self.share, 1);
    }
}
