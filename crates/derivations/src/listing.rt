//! Whether a tuple is listed with a derivation, and copies of what is listed.
ghost use Rattle.std.specs.Prelude.{◌≡◌, ◌↔◌, Contains, IfOk, IsTrue};
ghost use Rattle.derivations.specs.Views.{derivation_of};

use crate::deriv::{Deriv, Derived, Deriveds};
use event_types::{List, Memory, Tuple};
use std::alloc::Global;

/// Whether the tuple is listed with the derivation.
pub fn is_listed(found: &[Derived], tuple: &Tuple, deriv: &Deriv) -> bool
    ensures { IsTrue result ↔ Contains found.now (record { tuple = tuple.now; by = derivation_of deriv.now }) }
{
    for one in found {
        if is_of(one, tuple, deriv) {
            return true;
        }
    }
    false
}

// Whether it is this tuple with this derivation.
fn is_of(one: &Derived, tuple: &Tuple, deriv: &Deriv) -> bool
    ensures { IsTrue result ↔ (one.now ≡ record { tuple = tuple.now; by = derivation_of deriv.now }) }
{
    one.tuple == *tuple && one.deriv == *deriv
}

/// Equal tuples with equal derivations.
pub fn copy_listed(alloc: Global, found: &[Derived]) -> Result<Deriveds, Memory>
    ensures { IfOk result (λ copies. copies ≡ found.now) }
{
    let mut copies = List::new(alloc);
    for one in found {
        copies.add(one.copy(alloc)?)?;
    }
    Ok(copies)
}
