//! NEXT: each binding joined with its nexts, with the derivations of both.
ghost use Rattle.std.specs.Prelude.{◌≡◌, ◌++◌, ◌∷◌, [], ◌<◌, ◌&&◌, if◌then◌else◌, nat_le, IfOk, IsTrue, OnOk, Some, map};
ghost use Rattle.std.specs.List.{All, filter, flat_map};
ghost use Rattle.semantics.specs.Nexts.{is_eligible};
ghost use Rattle.scalar_expr.specs.Fits.{AllFit};
ghost use Rattle.derivations.specs.DerivedTuples.{derived_eligible, derived_join, derived_matches, derived_nexts};
ghost use Rattle.derivations.specs.Fitting.{FitsWith};
ghost use Rattle.derivations.specs.Rising.{Rises};
ghost use Rattle.derivations.specs.Earliest.{IsPast, least_at, lesser_if, lesser_of};

use crate::deriv::{Deriv, Derived, Deriveds};
use crate::side::Side;
use crate::sides::{Sides, sides_of};
use event_types::{List, Memory, Tuple};
use scalar_expr::{Conj, can_follow, join};
use std::alloc::Global;
use steps::{Ledger, Steps};

// Adds the matches of each binding.
pub(crate) fn add_all_matches<L: Ledger>(
    alloc: Global,
    out: &mut Deriveds,
    condition: &Conj,
    bindings: &[Derived],
    found: &[Derived],
    steps: &mut Steps<L>,
) -> Result<(), Memory>
    requires { All (λ binding. FitsWith condition.now found.now binding.tuple) bindings.now }
    ensures { OnOk result (out.new ≡ out.old ++ flat_map (derived_matches condition.now found.now) bindings.now) }
{
    let sides = sides_of(alloc, condition, bindings, found)?;
    for binding in bindings {
        add_matches(alloc, out, condition, binding, &sides, steps)?;
    }
    Ok(())
}

// Adds the binding joined with each of its nexts.
fn add_matches<L: Ledger>(
    alloc: Global,
    out: &mut Deriveds,
    condition: &Conj,
    binding: &Derived,
    found: &Sides<'_>,
    steps: &mut Steps<L>,
) -> Result<(), Memory>
    requires { FitsWith condition.now found.now binding.now.tuple }
    ensures { OnOk result (out.new ≡ out.old ++ derived_matches condition.now found.now binding.now) }
{
    let nexts = nexts_of(alloc, condition, &binding.tuple, found, steps)?;
    add_joined(alloc, out, binding, nexts.as_slice())
}

// Adds the binding joined with each of the tuples.
fn add_joined(
    alloc: Global,
    out: &mut Deriveds,
    binding: &Derived,
    nexts: &[Derived],
) -> Result<(), Memory>
    requires { All (λ next. binding.now.tuple.at < next.tuple.from) nexts.now }
    ensures { OnOk result (out.new ≡ out.old ++ map (derived_join binding.now) nexts.now) }
{
    for next in nexts {
        out.add(join_derived(alloc, binding, next)?)?;
    }
    Ok(())
}

// The binding joined with a tuple.
fn join_derived(alloc: Global, binding: &Derived, next: &Derived) -> Result<Derived, Memory>
    requires { binding.now.tuple.at < next.now.tuple.from }
    ensures { IfOk result (λ joined. joined ≡ derived_join binding.now next.now) }
{
    let tuple = join(alloc, &binding.tuple, &next.tuple)?;
    let by = binding.deriv.copy(alloc)?;
    let next_by = next.deriv.copy(alloc)?;
    Ok(Derived {
        tuple,
        deriv: Deriv::Next(Box::new(alloc, by)?, Box::new(alloc, next_by)?),
    })
}

// The nexts of a binding.
pub(crate) fn nexts_of<L: Ledger>(
    alloc: Global,
    condition: &Conj,
    binding: &Tuple,
    found: &Sides<'_>,
    steps: &mut Steps<L>,
) -> Result<Deriveds, Memory>
    requires { FitsWith condition.now found.now binding.now }
    ensures { IfOk result (λ nexts. nexts ≡ derived_nexts condition.now binding.now found.now) }
{
    let side = found.side_for(condition, binding);
    match first_time(condition, binding, side, steps) {
        Some(time) => eligible_by(alloc, condition, binding, side, time, steps),
        None => Ok(List::new(alloc)),
    }
}

// The detection time of the first tuple that is eligible for a binding.
fn first_time<L: Ledger>(
    condition: &Conj,
    binding: &Tuple,
    found: &Side<'_>,
    steps: &mut Steps<L>,
) -> Option<u64>
    requires { FitsWith condition.now found.now binding.now }
    ensures { result ≡ least_at (derived_eligible condition.now binding.now found.now) }
{
    let mut first = None;
    for place in found.start_after(binding.at())..found.len() {
        let one = found.get(place);
        if is_over(found, first, one.tuple.at()) {
            return first;
        }
        first = noted(first, condition, binding, &one.tuple, steps);
    }
    first
}

// Whether a time is after the first one, and no tuple behind it is detected earlier.
fn is_over(found: &Side<'_>, first: Option<u64>, time: u64) -> bool
    ensures { IsTrue result → IsPast first time × Rises found.now }
{
    is_past(first, time) && found.rises()
}

// Whether a time is after another, if there is one.
fn is_past(first: Option<u64>, time: u64) -> bool
    ensures { IsTrue result → IsPast first time }
{
    match first {
        Some(other) => other < time,
        None => false,
    }
}

// The lesser of a time, if there is one, and that of a tuple, where this is eligible for a binding.
fn noted<L: Ledger>(
    first: Option<u64>,
    condition: &Conj,
    binding: &Tuple,
    tuple: &Tuple,
    steps: &mut Steps<L>,
) -> Option<u64>
    requires { AllFit condition.now tuple.now (Some binding.now) }
    ensures { result ≡ lesser_if (is_eligible condition.now binding.now tuple.now) first tuple.now.at }
{
    if can_follow(condition, binding, tuple, steps) {
        Some(lesser(first, tuple.at()))
    } else {
        first
    }
}

// The lesser of a time and another, if there is one.
fn lesser(first: Option<u64>, time: u64) -> u64
    ensures { result ≡ lesser_of first time }
{
    match first {
        Some(other) if other <= time => other,
        _ => time,
    }
}

// The tuples that are eligible for a binding and detected no later than a time.
fn eligible_by<L: Ledger>(
    alloc: Global,
    condition: &Conj,
    binding: &Tuple,
    found: &Side<'_>,
    time: u64,
    steps: &mut Steps<L>,
) -> Result<Deriveds, Memory>
    requires { FitsWith condition.now found.now binding.now }
    ensures { IfOk result (λ nexts. nexts ≡ filter (λ x. is_eligible condition.now binding.now x.tuple && nat_le x.tuple.at time) found.now) }
{
    let mut nexts = List::new(alloc);
    for place in found.start_after(binding.at())..found.len() {
        let one = found.get(place);
        if is_over(found, Some(time), one.tuple.at()) {
            return Ok(nexts);
        }
        let is_next = is_eligible_by(condition, binding, &one.tuple, time, steps);
        add_where(alloc, &mut nexts, is_next, one)?;
    }
    Ok(nexts)
}

// Adds the tuple where it is one of the nexts.
fn add_where(alloc: Global, out: &mut Deriveds, is_next: bool, one: &Derived) -> Result<(), Memory>
    ensures { OnOk result (out.new ≡ out.old ++ (if is_next then one.now ∷ [] else [])) }
{
    if !is_next {
        return Ok(());
    }
    out.add(one.copy(alloc)?)
}

// Whether the tuple is eligible for the binding and detected no later than a time.
fn is_eligible_by<L: Ledger>(
    condition: &Conj,
    binding: &Tuple,
    tuple: &Tuple,
    time: u64,
    steps: &mut Steps<L>,
) -> bool
    requires { AllFit condition.now tuple.now (Some binding.now) }
    ensures { result ≡ (is_eligible condition.now binding.now tuple.now && nat_le tuple.now.at time) }
{
    can_follow(condition, binding, tuple, steps) && tuple.at() <= time
}
