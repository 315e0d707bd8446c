//! NEXT: each binding joined with the tuples that are eligible for it and detected first.
ghost use Rattle.std.specs.Prelude.{◌≡◌, ◌++◌, ◌<◌, IfOk, OnOk, map};
ghost use Rattle.std.specs.List.{All, filter, flat_map};
ghost use Rattle.semantics.specs.Denotation.{joined, matches};
ghost use Rattle.semantics.specs.Nexts.{earliest, is_earliest, is_eligible, nexts};
ghost use Rattle.algebra.specs.Suits.{FitsPairs};

use event_types::{List, Memory, Tuple, Tuples};
use scalar_expr::{Conj, can_follow, join};
use std::alloc::Global;
use steps::{Ledger, Steps};

// Adds the matches of each binding.
pub(crate) fn add_all_matches<L: Ledger>(
    alloc: Global,
    out: &mut Tuples,
    condition: &Conj,
    bindings: &[Tuple],
    tuples: &[Tuple],
    steps: &mut Steps<L>,
) -> Result<(), Memory>
    requires { All (FitsPairs condition.now tuples.now) bindings.now }
    ensures { OnOk result (out.new ≡ out.old ++ flat_map (matches condition.now tuples.now) bindings.now) }
{
    for binding in bindings {
        add_matches(alloc, out, condition, binding, tuples, steps)?;
    }
    Ok(())
}

// Adds the binding joined with each of its nexts.
fn add_matches<L: Ledger>(
    alloc: Global,
    out: &mut Tuples,
    condition: &Conj,
    binding: &Tuple,
    tuples: &[Tuple],
    steps: &mut Steps<L>,
) -> Result<(), Memory>
    requires { FitsPairs condition.now tuples.now binding.now }
    ensures { OnOk result (out.new ≡ out.old ++ matches condition.now tuples.now binding.now) }
{
    let found = nexts_of(alloc, condition, binding, tuples, steps)?;
    add_joined(alloc, out, binding, found.as_slice())
}

// Adds the binding joined with each of the tuples.
fn add_joined(
    alloc: Global,
    out: &mut Tuples,
    binding: &Tuple,
    tuples: &[Tuple],
) -> Result<(), Memory>
    requires { All (λ tuple. binding.now.at < tuple.from) tuples.now }
    ensures { OnOk result (out.new ≡ out.old ++ map (joined binding.now) tuples.now) }
{
    for tuple in tuples {
        out.add(join(alloc, binding, tuple)?)?;
    }
    Ok(())
}

// The nexts of a binding.
pub(crate) fn nexts_of<L: Ledger>(
    alloc: Global,
    condition: &Conj,
    binding: &Tuple,
    tuples: &[Tuple],
    steps: &mut Steps<L>,
) -> Result<Tuples, Memory>
    requires { FitsPairs condition.now tuples.now binding.now }
    ensures { IfOk result (λ found. found ≡ nexts condition.now binding.now tuples.now) }
{
    let found = eligible_for(alloc, condition, binding, tuples, steps)?;
    first_of(alloc, found.as_slice())
}

// The tuples that are eligible for a binding.
fn eligible_for<L: Ledger>(
    alloc: Global,
    condition: &Conj,
    binding: &Tuple,
    tuples: &[Tuple],
    steps: &mut Steps<L>,
) -> Result<Tuples, Memory>
    requires { FitsPairs condition.now tuples.now binding.now }
    ensures { IfOk result (λ found. found ≡ filter (is_eligible condition.now binding.now) tuples.now) }
{
    let mut found = List::new(alloc);
    for tuple in tuples {
        if can_follow(condition, binding, tuple, steps) {
            found.add(tuple.copy(alloc)?)?;
        }
    }
    Ok(found)
}

// The tuples that are detected first.
fn first_of(alloc: Global, tuples: &[Tuple]) -> Result<Tuples, Memory>
    ensures { IfOk result (λ found. found ≡ earliest tuples.now) }
{
    let mut found = List::new(alloc);
    for tuple in tuples {
        if has_none_before(tuples, tuple) {
            found.add(tuple.copy(alloc)?)?;
        }
    }
    Ok(found)
}

// Whether none of the tuples is detected before this one.
fn has_none_before(tuples: &[Tuple], tuple: &Tuple) -> bool
    ensures { result ≡ is_earliest tuples.now tuple.now }
{
    tuples.iter().all(|other| tuple.at() <= other.at())
}
