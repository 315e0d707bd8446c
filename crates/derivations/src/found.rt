//! What an expression gives: the tuples of a stream as they stand there, or those that were made.
ghost use Rattle.std.specs.Prelude.{◌≡◌};
ghost use Rattle.derivations.specs.Found.{tuples_found};

use crate::deriv::{Derived, Deriveds};

/// Tuples that stand in a stream, or that were made.
#[derive(Drop)]
pub(crate) enum Found<'a> {
    There(&'a [Derived]),
    Made(Deriveds),
}

impl<'a> Found<'a> {
    // The tuples in their order.
    pub(crate) fn as_slice(&self) -> &[Derived]
        ensures { result.now ≡ tuples_found self.now }
    {
        match self {
            Found::There(tuples) => tuples,
            Found::Made(tuples) => tuples.as_slice(),
        }
    }
}
