//! The states that leave a network.
ghost use Rattle.std.specs.Prelude.{◌≡◌, ℕ, [], false};
ghost use Rattle.prefix_merge.specs.Coming.{Notes};

use event_types::{List, Numbers};
use std::alloc::Global;

/// The numbers of states that left, and whether one found no room among them.
#[derive(Drop)]
pub struct Left {
    pub numbers: Numbers,
    pub missed: bool,
}

impl Left {
    /// None. Takes no memory.
    pub fn new(alloc: Global) -> Left
        ensures numbers { result.numbers ≡ [] }
        ensures missed { result.missed ≡ false }
    {
        Left {
            numbers: List::new(alloc),
            missed: false,
        }
    }

    /// Forgets them, and keeps their room. Takes no memory.
    pub fn clear(&mut self)
        ensures numbers { self.new.numbers ≡ [] }
        ensures missed { self.new.missed ≡ false }
    {
        self.numbers.clear();
        self.missed = false;
    }

    // Notes a state that leaves.
    pub(crate) fn note(&mut self, number: usize)
        ensures noted { Notes self.new number }
        ensures kept { (other : ℕ) → Notes self.old other → Notes self.new other }
    {
        if self.numbers.add(number).is_err() {
            self.missed = true;
        }
    }
}
