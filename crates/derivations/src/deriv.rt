//! Derivations.
ghost use Rattle.std.specs.Prelude.{◌≡◌, IfOk, map};
ghost use Rattle.derivations.specs.Views.{derivation_of};

use event_types::{List, Memory, Tuple};
use std::alloc::Global;
use std::marker::Model;

/// How a tuple came about: by which event, counted from 1 in the history; by a tuple of a query's stream;
/// on which side of UNION; by both tuples of NEXT; by the first binding of FOLD and the events of its
/// iterations. FILTER and SELECT leave no trace.
///
/// Over three events of S, each after the one before, `S NEXT {TRUE} S` gives two tuples: by
/// `Next(Event(1), Event(2))` and by `Next(Event(2), Event(3))`.
#[derive(Drop)]
pub enum Deriv {
    Event(usize),
    Query(Box<Deriv>),
    Left(Box<Deriv>),
    Right(Box<Deriv>),
    Next(Box<Deriv>, Box<Deriv>),
    Fold(Box<Deriv>, Derivs),
}

/// Derivations one after another.
pub type Derivs = List<Deriv>;

/// A tuple, and how it came about.
#[derive(Drop)]
pub struct Derived {
    pub tuple: Tuple,
    pub deriv: Deriv,
}

impl Model for Derived {
    ghost use Rattle.derivations.specs.Codes.{derived_code};
    ghost use Rattle.derivations.specs.DerivedTuples.{DerivedTuple};
    ghost use Rattle.derivations.specs.Views.{derivation_of};

    ghost Value = { DerivedTuple };

    ghost coded = { derived_code };

    ghost view = { λ x. record { tuple = x.tuple; by = derivation_of x.deriv } };
}

/// Tuples, each with how it came about.
pub type Deriveds = List<Derived>;

/// A list of such tuples for each stream, or for each query.
pub type Table = List<Deriveds>;

impl Deriv {
    /// An equal derivation.
    #[cycle(copies)]
    pub fn copy(&self, alloc: Global) -> Result<Deriv, Memory>
        ensures { IfOk result (λ copy. derivation_of copy ≡ derivation_of self.now) }
    {
        match self {
            Deriv::Event(place) => Ok(Deriv::Event(*place)),
            Deriv::Query(by) => Ok(Deriv::Query(boxed(alloc, by)?)),
            Deriv::Left(by) => Ok(Deriv::Left(boxed(alloc, by)?)),
            Deriv::Right(by) => Ok(Deriv::Right(boxed(alloc, by)?)),
            Deriv::Next(by, next) => Ok(Deriv::Next(boxed(alloc, by)?, boxed(alloc, next)?)),
            Deriv::Fold(by, events) => {
                Ok(Deriv::Fold(boxed(alloc, by)?, copy_all(alloc, events.as_slice())?))
            }
        }
    }
}

// An equal derivation in a box.
#[cycle(copies)]
fn boxed(alloc: Global, deriv: &Deriv) -> Result<Box<Deriv>, Memory>
    ensures { IfOk result (λ copy. derivation_of copy.value ≡ derivation_of deriv.now) }
{
    let copy = deriv.copy(alloc)?;
    Ok(Box::new(alloc, copy)?)
}

// Equal derivations.
#[cycle(copies)]
pub(crate) fn copy_all(alloc: Global, derivs: &[Deriv]) -> Result<Derivs, Memory>
    ensures { IfOk result (λ copies. map derivation_of copies ≡ map derivation_of derivs.now) }
{
    let mut copies = List::new(alloc);
    for place in 0..derivs.len() {
        copies.add(derivs[place].copy(alloc)?)?;
    }
    Ok(copies)
}

impl Derived {
    /// An equal tuple with an equal derivation.
    pub fn copy(&self, alloc: Global) -> Result<Derived, Memory>
        ensures { IfOk result (λ copy. copy ≡ self.now) }
    {
        let tuple = self.tuple.copy(alloc)?;
        let deriv = self.deriv.copy(alloc)?;
        Ok(Derived { tuple, deriv })
    }
}
