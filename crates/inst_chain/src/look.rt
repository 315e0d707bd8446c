//! Reading a chain.
ghost use Rattle.std.specs.Prelude.{◌≡◌, ◌++◌, [], option_copied, option_to_list};
ghost use Rattle.inst_chain.specs.Heads.{head};

use crate::chain::Chain;
use crate::sight::{Sight, read, survey};
use std::marker::Model;

/// A reader of a chain, from the front.
#[derive(Drop)]
pub struct Look<'a, T> {
    at: Option<Sight<'a, T>>,
}

impl<'a, T> Model for Look<'a, T> {
    ghost use Rattle.std.specs.Prelude.{List};
    ghost use Rattle.inst_chain.specs.Items.{items};

    ghost Value = { List T };

    ghost view = { λ look. items look.at };
}

impl<'a, T: Drop> Look<'a, T> {
    /// A reader that has nothing to give. Takes no memory.
    pub fn none() -> Look<'a, T>
        ensures { result ≡ [] }
    {
        Look { at: None }
    }

    /// The next value, and none exactly past the last. Takes no memory.
    pub fn next(&mut self) -> Option<&'a T>
        ensures first { option_copied result ≡ head self.old }
        ensures rest { self.old ≡ option_to_list (option_copied result) ++ self.new }
    {
        let sight = std::mem::replace(&mut self.at, None)?;
        let (value, rest) = read(sight);
        self.at = rest;
        Some(value)
    }
}

impl<T: Drop> Chain<T> {
    /// Reads the values from the front. Takes no memory.
    pub fn look(&self) -> Look<'_, T>
        ensures { result ≡ self.now }
    {
        match &self.run {
            None => Look { at: None },
            Some(run) => Look {
                at: Some(survey(run)),
            },
        }
    }
}
