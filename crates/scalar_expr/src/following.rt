//! What an event makes of a binding.
ghost use Rattle.std.specs.Prelude.{◌≡◌, ◌+◌, ◌++◌, ◌<◌, ◌≤◌, IfOk, OnOk, Some};
ghost use Rattle.std.specs.List.{All};
ghost use Rattle.semantics.specs.Runs.{rebound};
ghost use Rattle.scalar_expr.specs.Fits.{Fits, AllFit};
ghost use Rattle.semantics.specs.Denotation.{joined};
ghost use Rattle.semantics.specs.Nexts.{is_eligible};

use crate::conjunction::Conj;
use crate::projection::{Map, apply};
use crate::truth::holds;
use crate::values::add_copy;
use event_types::{List, Memory, Tuple, Vals};
use std::alloc::Global;
use steps::{Ledger, Steps};

/// The new binding of an iteration.
pub fn rebind(
    alloc: Global,
    projection: &Map,
    binding: &Tuple,
    event: &Tuple,
) -> Result<Tuple, Memory>
    requires later { binding.now.at < event.now.from }
    requires fits { All (λ s. Fits s event.now (Some binding.now)) projection.now.parts }
    ensures { IfOk result (λ tuple. tuple ≡ rebound projection.now.parts binding.now event.now) }
{
    apply(
        alloc,
        projection,
        event,
        Some(binding),
        binding.from(),
        event.at(),
    )
}

/// The values of both, from the start of the left tuple to the detection of the right one.
pub fn join(alloc: Global, left: &Tuple, right: &Tuple) -> Result<Tuple, Memory>
    requires { left.now.at < right.now.from }
    ensures { IfOk result (λ tuple. tuple ≡ joined left.now right.now) }
{
    let room = left.vals().len().saturating_add(right.vals().len());
    let mut vals = List::with_room(alloc, room)?;
    add_vals(alloc, &mut vals, left.vals())?;
    add_vals(alloc, &mut vals, right.vals())?;
    match Tuple::make(vals, left.from(), right.at()) {
        Ok(tuple) => Ok(tuple),
        Err(_) => unreachable!(),
    }
}

// Adds equal values.
fn add_vals(alloc: Global, vals: &mut Vals, more: &Vals) -> Result<(), Memory>
    ensures { OnOk result (vals.new ≡ vals.old ++ more.now) }
{
    for value in more.as_slice() {
        add_copy(alloc, vals, value)?;
    }
    Ok(())
}

/// Whether the tuple is eligible for the binding. Takes no memory.
pub fn can_follow<L: Ledger>(
    condition: &Conj,
    binding: &Tuple,
    tuple: &Tuple,
    steps: &mut Steps<L>,
) -> bool
    requires { AllFit condition.now tuple.now (Some binding.now) }
    ensures value { result ≡ is_eligible condition.now binding.now tuple.now }
    ensures ticks { steps.new ≤ steps.old + 1 }
{
    binding.at() < tuple.from() && holds(condition, tuple, Some(binding), steps)
}
