//! Steps with one more stage, in their canonical form.
ghost use Rattle.std.specs.Prelude.{◌≡◌, map, IfOk, OnOk};
ghost use Rattle.automaton.specs.declared.step.Stage.TheVariants.{Keep, Make};
ghost use Rattle.scalar_expr.specs.Views.{sc_of};
ghost use Rattle.splitter.specs.Stages.{JoinsLast, are_events, is_identity, kept, staged};

use automaton::{Stage, Step};
use event_types::Memory;
use scalar_expr::{Conj, Map, Scalar};
use std::alloc::Global;

// Adds a Keep. Beside another it becomes one with it, and an empty one is dropped.
pub(crate) fn add_keep(alloc: Global, step: &mut Step, condition: &Conj) -> Result<(), Memory>
    ensures { OnOk result (step.new ≡ staged step.old (Keep condition.now)) }
{
    if condition.size() == 0 {
        return Ok(());
    }
    keep_behind(alloc, step, condition)
}

// Adds a Keep of a condition that isn't empty.
fn keep_behind(alloc: Global, step: &mut Step, condition: &Conj) -> Result<(), Memory>
    ensures { OnOk result (step.new ≡ kept step.old condition.now) }
{
    match joined_with_last(alloc, step, condition)? {
        Some(both) => {
            let last = step.len() - 1;
            *step.get_mut(last) = Stage::Keep(both);
            Ok(())
        }
        None => step.add(Stage::Keep(condition.copy(alloc)?)),
    }
}

// The condition of both, where the step ends in a Keep.
fn joined_with_last(alloc: Global, step: &Step, condition: &Conj) -> Result<Option<Conj>, Memory>
    ensures { IfOk result (λ both. JoinsLast step.now condition.now both) }
{
    match step.as_slice().last() {
        Some(last) => match last {
            Stage::Keep(other) => Ok(Some(other.both(alloc, condition)?)),
            Stage::Make(_) => Ok(None),
        },
        None => Ok(None),
    }
}

// Adds a Make, unless it is the identity.
pub(crate) fn add_make(alloc: Global, step: &mut Step, projection: &Map) -> Result<(), Memory>
    ensures { OnOk result (step.new ≡ staged step.old (Make projection.now)) }
{
    if is_same(projection) {
        return Ok(());
    }
    step.add(Stage::Make(projection.copy(alloc)?))
}

// Whether the projection is the identity on its width.
fn is_same(projection: &Map) -> bool
    ensures { result ≡ is_identity projection.now }
{
    projection.parts.len() == projection.width && are_in_turn(projection.parts.as_slice())
}

// Whether the scalars are the attributes of the event in turn.
fn are_in_turn(scalars: &[Scalar]) -> bool
    ensures { result ≡ are_events 0 (map sc_of scalars.now) }
{
    for place in 0..scalars.len() {
        match &scalars[place] {
            Scalar::Event(at) => {
                if *at != place {
                    return false;
                }
            }
            _ => return false,
        }
    }
    true
}
