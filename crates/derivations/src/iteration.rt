//! FOLD: the runs of iterations from each binding, with the derivations of their events.
ghost use Rattle.std.specs.Prelude.{◌≡◌, ◌++◌, ◌<◌, [], IfOk, OnOk, length, map, Some};
ghost use Rattle.std.specs.List.{All, filter, flat_map};
ghost use Rattle.semantics.specs.Truth.{all_true};
ghost use Rattle.algebra.specs.Suits.{SuitsRuns};
ghost use Rattle.derivations.specs.DerivedTuples.{derived_fold, derived_goers, derived_runs, tuples_in};
ghost use Rattle.derivations.specs.Fitting.{FitsWith};
ghost use Rattle.scalar_expr.specs.Fits.{Fits};
ghost use Rattle.derivations.specs.Folds.{IsFurther, IsSuited, run_of, runs_behind, runs_left};
ghost use Rattle.derivations.specs.Views.{derivation_of};

use crate::deriv::{Deriv, Derived, Deriveds, Derivs, copy_all};
use crate::matching::nexts_of;
use crate::sides::Sides;
use event_types::{List, Memory, Tuple};
use scalar_expr::{Conj, Map, holds, rebind};
use std::alloc::Global;
use steps::{Ledger, Steps};

/// A FOLD over tuples: the condition that a next event meets, the one under which the iteration goes on with
/// it, and what the new binding has.
#[derive(Drop)]
pub(crate) struct Fold<'a, 'b> {
    pub choose: &'a Conj,
    pub on: &'a Conj,
    pub projection: &'a Map,
    pub found: Sides<'b>,
}

// Adds the runs from each binding.
pub(crate) fn add_all_runs<L: Ledger>(
    alloc: Global,
    out: &mut Deriveds,
    fold: &Fold<'_, '_>,
    bindings: &[Derived],
    steps: &mut Steps<L>,
) -> Result<(), Memory>
    requires { All (λ binding. SuitsRuns (length fold.now.found) fold.now.choose.now fold.now.on.now fold.now.projection.now.parts (tuples_in fold.now.found) binding.tuple) bindings.now }
    ensures { OnOk result (out.new ≡ out.old ++ flat_map (derived_runs fold.now.choose.now fold.now.on.now fold.now.projection.now.parts fold.now.found) bindings.now) }
{
    for binding in bindings {
        add_runs_of(alloc, out, fold, binding, steps)?;
    }
    Ok(())
}

/// An iteration that goes on: the derivations of its events, its binding, and how many events more it may have.
#[derive(Drop)]
pub(crate) struct Going {
    events: Derivs,
    binding: Tuple,
    most: usize,
}

/// Iterations that go on, the next one last.
pub(crate) type Goings = List<Going>;

// Adds the runs from a binding: each iteration's own tuple stands before what it goes on with.
fn add_runs_of<L: Ledger>(
    alloc: Global,
    out: &mut Deriveds,
    fold: &Fold<'_, '_>,
    binding: &Derived,
    steps: &mut Steps<L>,
) -> Result<(), Memory>
    requires { SuitsRuns (length fold.now.found) fold.now.choose.now fold.now.on.now fold.now.projection.now.parts (tuples_in fold.now.found) binding.now.tuple }
    ensures { OnOk result (out.new ≡ out.old ++ derived_runs fold.now.choose.now fold.now.on.now fold.now.projection.now.parts fold.now.found binding.now) }
{
    let start = started(alloc, fold, binding)?;
    let mut left = List::new(alloc);
    add_branches(alloc, &mut left, fold, &start, steps)?;
    while let Some(going) = left.pop() {
        add_branches(alloc, &mut left, fold, &going, steps)?;
        out.add(fold_of(alloc, &binding.deriv, going)?)?;
    }
    Ok(())
}

// The iteration that has no event yet.
fn started(alloc: Global, fold: &Fold<'_, '_>, binding: &Derived) -> Result<Going, Memory>
    ensures events { IfOk result (λ going. map derivation_of going.events ≡ []) }
    ensures binding { IfOk result (λ going. going.binding ≡ binding.now.tuple) }
    ensures most { IfOk result (λ going. going.most ≡ length fold.now.found) }
{
    Ok(Going {
        events: List::new(alloc),
        binding: binding.tuple.copy(alloc)?,
        most: fold.found.len(),
    })
}

// Adds the iterations with which one goes on, by one event more each.
fn add_branches<L: Ledger>(
    alloc: Global,
    left: &mut Goings,
    fold: &Fold<'_, '_>,
    going: &Going,
    steps: &mut Steps<L>,
) -> Result<(), Memory>
    requires suits { IsSuited fold.now.choose.now fold.now.on.now fold.now.projection.now.parts fold.now.found going.now }
    requires others { All (IsSuited fold.now.choose.now fold.now.on.now fold.now.projection.now.parts fold.now.found) left.old }
    ensures runs { OnOk result (runs_left fold.now.choose.now fold.now.on.now fold.now.projection.now.parts fold.now.found left.new
        ≡ runs_behind fold.now.choose.now fold.now.on.now fold.now.projection.now.parts fold.now.found going.now ++ runs_left fold.now.choose.now fold.now.on.now fold.now.projection.now.parts fold.now.found left.old) }
    ensures suited { OnOk result (All (IsSuited fold.now.choose.now fold.now.on.now fold.now.projection.now.parts fold.now.found) left.new) }
{
    if going.most == 0 {
        return Ok(());
    }
    let mut goers = goers_of(alloc, fold, &going.binding, steps)?;
    while let Some(event) = goers.pop() {
        left.add(further(alloc, fold.projection, going, event)?)?;
    }
    Ok(())
}

// The iteration with one event more.
fn further(alloc: Global, projection: &Map, going: &Going, event: Derived) -> Result<Going, Memory>
    requires some { 0 < going.now.most }
    requires later { going.now.binding.at < event.tuple.from }
    requires fits { All (λ s. Fits s event.tuple (Some going.now.binding)) projection.now.parts }
    ensures { IfOk result (IsFurther projection.now.parts going.now event) }
{
    let binding = rebind(alloc, projection, &going.binding, &event.tuple)?;
    let mut events = copy_all(alloc, going.events.as_slice())?;
    events.add(event.deriv)?;
    Ok(Going {
        events,
        binding,
        most: going.most - 1,
    })
}

// The tuple of the events so far.
fn fold_of(alloc: Global, first: &Deriv, going: Going) -> Result<Derived, Memory>
    ensures { IfOk result (λ made. made ≡ derived_fold (derivation_of first.now) (run_of going)) }
{
    let by = first.copy(alloc)?;
    Ok(Derived {
        tuple: going.binding,
        deriv: Deriv::Fold(Box::new(alloc, by)?, going.events),
    })
}

// The nexts of a binding with which the iteration goes on.
fn goers_of<L: Ledger>(
    alloc: Global,
    fold: &Fold<'_, '_>,
    binding: &Tuple,
    steps: &mut Steps<L>,
) -> Result<Deriveds, Memory>
    requires choose { FitsWith fold.now.choose.now fold.now.found binding.now }
    requires on { FitsWith fold.now.on.now fold.now.found binding.now }
    ensures { IfOk result (λ goers. goers ≡ derived_goers fold.now.choose.now fold.now.on.now fold.now.found binding.now) }
{
    let nexts = nexts_of(alloc, fold.choose, binding, &fold.found, steps)?;
    passing(alloc, fold.on, binding, nexts.as_slice(), steps)
}

// The tuples for which the condition holds with the binding.
fn passing<L: Ledger>(
    alloc: Global,
    condition: &Conj,
    binding: &Tuple,
    nexts: &[Derived],
    steps: &mut Steps<L>,
) -> Result<Deriveds, Memory>
    requires { FitsWith condition.now nexts.now binding.now }
    ensures { IfOk result (λ found. found ≡ filter (λ x. all_true condition.now x.tuple (Some binding.now)) nexts.now) }
{
    let mut found = List::new(alloc);
    for next in nexts {
        if holds(condition, &next.tuple, Some(binding), steps) {
            found.add(next.copy(alloc)?)?;
        }
    }
    Ok(found)
}
