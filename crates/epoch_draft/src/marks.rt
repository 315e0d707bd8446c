//! Numbers that are marked.
ghost use Rattle.std.specs.Prelude.{◌≡◌, ◌<◌, [], false, true, Contains, length, OnOk};
ghost use Rattle.std.specs.List.{All};
ghost use Rattle.epoch_draft.specs.Marks.{AreLowered, AreMarks, MarksMore, MarksNoOther};

use crate::filling::fit;
use event_types::{List, Memory, Numbers};
use std::alloc::Global;

/// Numbers below a bound, of which some are marked: for each whether it is, and the marked ones.
#[derive(Drop)]
pub struct Marks {
    pub flags: List<bool>,
    pub numbers: Numbers,
}

impl Marks {
    /// No number is marked, and there is room for none. Takes no memory.
    pub fn new(alloc: Global) -> Marks
        ensures are { AreMarks result }
        ensures flags { result.flags ≡ [] }
        ensures none { result.numbers ≡ [] }
    {
        Marks {
            flags: List::new(alloc),
            numbers: List::new(alloc),
        }
    }

    /// Takes each mark away, and makes room for exactly the numbers below a bound. After want of memory there may be
    /// room for fewer.
    pub(crate) fn fit(&mut self, bound: usize) -> Result<(), Memory>
        requires { AreMarks self.old }
        ensures are { AreMarks self.new }
        ensures none { self.new.numbers ≡ [] }
        ensures as_many { OnOk result (length self.new.flags ≡ bound) }
    {
        self.clear();
        fit(&mut self.flags, bound, false)
    }

    /// Marks a number. After want of memory all that were marked still are.
    #[inline(always)]
    pub fn mark(&mut self, number: usize) -> Result<(), Memory>
        requires marks { AreMarks self.old }
        requires number { number < length self.old.flags }
        ensures more { MarksMore self.old self.new }
        ensures no_other { MarksNoOther number self.old self.new }
        ensures marked { OnOk result (Contains self.new.numbers number) }
    {
        if *self.flags.get(number) {
            return Ok(());
        }
        match self.numbers.push(number) {
            Ok(()) => {
                *self.flags.get_mut(number) = true;
                Ok(())
            }
            Err(_) => Err(Memory),
        }
    }

    /// Takes each mark away, and keeps the room. Takes no memory.
    pub fn clear(&mut self)
        requires { AreMarks self.old }
        ensures are { AreMarks self.new }
        ensures as_many { length self.new.flags ≡ length self.old.flags }
        ensures none { self.new.numbers ≡ [] }
    {
        lower(&mut self.flags, self.numbers.as_slice());
        self.numbers.clear();
    }
}

// Takes down the flags of these numbers.
fn lower(flags: &mut List<bool>, numbers: &[usize])
    requires { All (λ number. number < length flags.old) numbers.now }
    ensures { AreLowered numbers.now flags.old flags.new }
{
    for number in numbers {
        *flags.get_mut(*number) = false;
    }
}
