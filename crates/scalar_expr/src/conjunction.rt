//! Conjunctions.
ghost use Rattle.std.specs.Prelude.{◌≡◌, ◌<◌, ◌++◌, ◌↔◌, length, map, slice_get, IfOk, IsTrue, OnOk};
ghost use Rattle.std.specs.List.{list_all};
ghost use Rattle.std.specs.Option.{option_map};
ghost use Rattle.scalar_expr.specs.Canonical.{AreCanonical, distinct_parts};
ghost use Rattle.scalar_expr.specs.Classes.{are_fixed, class_of, class_of_part, is_fixed};
ghost use Rattle.scalar_expr.specs.Views.{pr_of};

use crate::copying::copy_pred;
use crate::part::{Part, classed, is_fixed};
use crate::predicate::Pred;
use event_types::Memory;
use std::alloc::Global;
use std::marker::Model;

/// Predicates that all have to hold, in their canonical order and without doubles.
#[derive(Drop)]
pub struct Conj {
    parts: Vec<Pred>,
    // Whether all parts are fixed.
    fixed: bool,
}

impl Model for Conj {
    ghost use Rattle.std.specs.Prelude.{List, map};
    ghost use Rattle.semantics.specs.Codes.{conj_code};
    ghost use Rattle.semantics.specs.Scalars.{Pr};
    ghost use Rattle.scalar_expr.specs.Canonical.{AreCanonical};
    ghost use Rattle.scalar_expr.specs.Views.{pr_of};

    ghost Value = { List Pr };

    ghost coded = { conj_code };

    ghost view = { λ c. map pr_of c.parts.items };

    ghost use Rattle.std.specs.Prelude.{◌≡◌};
    ghost use Rattle.scalar_expr.specs.Classes.{are_fixed};

    ghost invariant = { λ c. AreCanonical (map pr_of c.parts.items) × (c.fixed ≡ are_fixed (map pr_of c.parts.items)) };
}

impl Conj {
    // The predicates in their canonical order, each once.
    pub(crate) fn of(parts: Vec<Pred>) -> Conj
        ensures { result ≡ distinct_parts (map pr_of parts.items) }
    {
        let mut parts = parts;
        parts.sort_unstable();
        parts.dedup();
        Conj::in_order(parts)
    }

    // The predicates, which are in their canonical order, each once.
    fn in_order(parts: Vec<Pred>) -> Conj
        requires { AreCanonical (map pr_of parts.items) }
        ensures { result ≡ map pr_of parts.items }
    {
        let fixed = all_fixed(&parts);
        Conj { parts, fixed }
    }

    // The predicates as they stand.
    pub(crate) fn parts(&self) -> &[Pred]
        ensures { map pr_of result.now ≡ self.now }
    {
        self.parts.as_slice()
    }

    /// The number of parts. Takes no memory.
    pub fn size(&self) -> usize
        ensures value { result ≡ length self.now }
        ensures canonical { AreCanonical self.now }
    {
        self.parts.len()
    }

    /// The class of the part at a place, counted from 0. Takes no memory.
    pub fn part(&self, place: usize) -> Part<'_>
        requires { place < length self.now }
        ensures { option_map class_of (slice_get self.now place) ≡ Some (class_of_part result) }
    {
        classed(&self.parts[place])
    }

    /// Whether each part compares an attribute of the event with a literal. Takes no memory.
    pub fn is_fixed(&self) -> bool
        ensures { result ≡ are_fixed self.now }
    {
        self.fixed
    }

    /// The conjunction of the parts of both.
    pub fn both(&self, alloc: Global, other: &Conj) -> Result<Conj, Memory>
        ensures { IfOk result (λ condition. condition ≡ distinct_parts (self.now ++ other.now)) }
    {
        let mut parts = Vec::new(alloc);
        add_copies(alloc, &mut parts, &self.parts)?;
        add_copies(alloc, &mut parts, &other.parts)?;
        Ok(Conj::of(parts))
    }

    /// Whether both have the same parts. Takes no memory.
    pub fn is_same(&self, other: &Conj) -> bool
        ensures { IsTrue result ↔ (self.now ≡ other.now) }
    {
        self.parts() == other.parts()
    }

    /// An equal conjunction.
    pub fn copy(&self, alloc: Global) -> Result<Conj, Memory>
        ensures { IfOk result (λ copy. copy ≡ self.now) }
    {
        let mut parts = Vec::new(alloc);
        add_copies(alloc, &mut parts, &self.parts)?;
        Ok(Conj::in_order(parts))
    }
}

// Whether all predicates are fixed parts.
fn all_fixed(parts: &[Pred]) -> bool
    ensures { result ≡ list_all (λ p. is_fixed (pr_of p)) parts.now }
{
    parts.iter().all(is_fixed)
}

// Puts equal predicates behind those that are there.
fn add_copies(alloc: Global, parts: &mut Vec<Pred>, more: &[Pred]) -> Result<(), Memory>
    ensures { OnOk result (map pr_of parts.new.items ≡ map pr_of parts.old.items ++ map pr_of more.now) }
{
    'more: for part in more {
        let copy = copy_pred(alloc, part)?;
        parts.push(copy)?;
    }
    Ok(())
}
