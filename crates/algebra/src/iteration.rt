//! FOLD: the runs of iterations from each binding.
ghost use Rattle.std.specs.Prelude.{◌≡◌, ◌++◌, ◌<◌, IfOk, OnOk, length, Some};
ghost use Rattle.std.specs.List.{All, filter, flat_map};
ghost use Rattle.semantics.specs.Runs.{goers, runs, runs_within};
ghost use Rattle.semantics.specs.Truth.{all_true};
ghost use Rattle.algebra.specs.Suits.{FitsPairs, SuitsRuns};

use crate::matching::nexts_of;
use event_types::{List, Memory, Tuple, Tuples};
use scalar_expr::{Conj, Map, holds, rebind};
use std::alloc::Global;
use steps::{Ledger, Steps};

/// A FOLD over tuples: the condition that a next event meets, the one under which the iteration goes on with
/// it, and what the new binding has.
#[derive(Clone, Copy)]
pub(crate) struct Fold<'a> {
    pub choose: &'a Conj,
    pub on: &'a Conj,
    pub projection: &'a Map,
    pub tuples: &'a [Tuple],
}

/// Adds the runs from each binding.
pub(crate) fn add_all_runs<L: Ledger>(
    alloc: Global,
    out: &mut Tuples,
    fold: &Fold<'_>,
    bindings: &[Tuple],
    steps: &mut Steps<L>,
) -> Result<(), Memory>
    requires { All (λ binding. SuitsRuns (length fold.now.tuples.now) fold.now.choose.now fold.now.on.now fold.now.projection.now.parts fold.now.tuples.now binding) bindings.now }
    ensures { OnOk result (out.new ≡ out.old ++ flat_map (runs fold.now.choose.now fold.now.on.now fold.now.projection.now.parts fold.now.tuples.now) bindings.now) }
{
    for binding in bindings {
        add_runs(alloc, out, fold, binding, fold.tuples.len(), steps)?;
    }
    Ok(())
}

// Adds the runs from a binding of at most so many events each.
fn add_runs<L: Ledger>(
    alloc: Global,
    out: &mut Tuples,
    fold: &Fold<'_>,
    binding: &Tuple,
    most: usize,
    steps: &mut Steps<L>,
) -> Result<(), Memory>
    requires { SuitsRuns most fold.now.choose.now fold.now.on.now fold.now.projection.now.parts fold.now.tuples.now binding.now }
    ensures { OnOk result (out.new ≡ out.old ++ runs_within most fold.now.choose.now fold.now.on.now fold.now.projection.now.parts fold.now.tuples.now binding.now) }
{
    if most == 0 {
        return Ok(());
    }
    let found = goers_of(alloc, fold, binding, steps)?;
    for event in found.as_slice() {
        let new_binding = rebind(alloc, fold.projection, binding, event)?;
        out.add(new_binding.copy(alloc)?)?;
        add_runs(alloc, out, fold, &new_binding, most - 1, steps)?;
    }
    Ok(())
}

// The nexts of a binding with which the iteration goes on.
fn goers_of<L: Ledger>(
    alloc: Global,
    fold: &Fold<'_>,
    binding: &Tuple,
    steps: &mut Steps<L>,
) -> Result<Tuples, Memory>
    requires choose { FitsPairs fold.now.choose.now fold.now.tuples.now binding.now }
    requires on { FitsPairs fold.now.on.now fold.now.tuples.now binding.now }
    ensures { IfOk result (λ found. found ≡ goers fold.now.choose.now fold.now.on.now fold.now.tuples.now binding.now) }
{
    let found = nexts_of(alloc, fold.choose, binding, fold.tuples, steps)?;
    passing(alloc, fold.on, binding, found.as_slice(), steps)
}

// The tuples for which the condition holds with the binding.
fn passing<L: Ledger>(
    alloc: Global,
    condition: &Conj,
    binding: &Tuple,
    tuples: &[Tuple],
    steps: &mut Steps<L>,
) -> Result<Tuples, Memory>
    requires { FitsPairs condition.now tuples.now binding.now }
    ensures { IfOk result (λ found. found ≡ filter (λ tuple. all_true condition.now tuple (Some binding.now)) tuples.now) }
{
    let mut found = List::new(alloc);
    for tuple in tuples {
        if holds(condition, tuple, Some(binding), steps) {
            found.add(tuple.copy(alloc)?)?;
        }
    }
    Ok(found)
}
