//! Tuples on their way through steps, with the number of tests.
ghost use Rattle.std.specs.Prelude.{◌≡◌, ◌+◌, ◌≤◌, true, IfOk, IsTrue};
ghost use Rattle.automaton.specs.Steps.{pass};
ghost use Rattle.stream_readers.specs.Targets.{only_fixed};
ghost use Rattle.epoch_draft.specs.Found.{IsFixedStage, IsLeftOf};
ghost use Rattle.epoch_draft.specs.Suits.{StepSuits};
ghost use Rattle.epoch_draft.specs.Work.{keeps};

use crate::draft::Draft;
use automaton::Stage;
use event_types::{Memory, Tuple};
use scalar_expr::holds;
use steps::{Ledger, Steps};

/// What the tuple is after the stages, or nothing where one of them doesn't let it pass. Its values stand in room that the
/// draft keeps for values, if it keeps any.
#[inline(always)]
pub(crate) fn pass_on<L: Ledger>(
    draft: &mut Draft,
    step: &[Stage],
    tuple: &Tuple,
    steps: &mut Steps<L>,
) -> Result<Option<Tuple>, Memory>
    requires { StepSuits step.now tuple.now }
    ensures value { IfOk result (λ passed. passed ≡ pass step.now tuple.now) }
    ensures same { draft.new ≡ draft.old }
    ensures ticks { steps.new ≤ steps.old + keeps step.now }
{
    if step.is_empty() {
        return Ok(Some(draft.made.copy(tuple)?));
    }
    pass_stages(draft, step, tuple, steps)
}

/// The same of any stages.
pub(crate) fn pass_stages<L: Ledger>(
    draft: &mut Draft,
    step: &[Stage],
    tuple: &Tuple,
    steps: &mut Steps<L>,
) -> Result<Option<Tuple>, Memory>
    requires { StepSuits step.now tuple.now }
    ensures value { IfOk result (λ passed. passed ≡ pass step.now tuple.now) }
    ensures same { draft.new ≡ draft.old }
    ensures ticks { steps.new ≤ steps.old + keeps step.now }
{
    match step {
        [] => Ok(Some(draft.made.copy(tuple)?)),
        [Stage::Keep(condition), rest @ ..] => {
            if holds(condition, tuple, None, steps) {
                pass_stages(draft, rest, tuple, steps)
            } else {
                Ok(None)
            }
        }
        [Stage::Make(projection), rest @ ..] => {
            let projected = draft.made.project(projection, tuple)?;
            pass_made(draft, rest, projected, steps)
        }
    }
}

/// The same of a tuple that is handed over, and so isn't copied.
pub(crate) fn pass_made<L: Ledger>(
    draft: &mut Draft,
    step: &[Stage],
    tuple: Tuple,
    steps: &mut Steps<L>,
) -> Result<Option<Tuple>, Memory>
    requires { StepSuits step.now tuple }
    ensures value { IfOk result (λ passed. passed ≡ pass step.now tuple) }
    ensures same { draft.new ≡ draft.old }
    ensures ticks { steps.new ≤ steps.old + keeps step.now }
{
    match step {
        [] => Ok(Some(tuple)),
        [Stage::Keep(condition), rest @ ..] => {
            if holds(condition, &tuple, None, steps) {
                pass_made(draft, rest, tuple, steps)
            } else {
                Ok(None)
            }
        }
        [Stage::Make(projection), rest @ ..] => {
            let projected = draft.made.project(projection, &tuple)?;
            draft.made.keep_room(tuple);
            pass_made(draft, rest, projected, steps)
        }
    }
}

/// What a tuple has still to pass of a step by whose first fixed parts it was found: a condition of nothing but
/// fixed parts isn't tested again. Takes no memory.
pub(crate) fn left_of(step: &[Stage]) -> &[Stage]
    ensures { IsLeftOf step.now result.now }
{
    match step.first() {
        Some(stage) if is_fixed_stage(stage) => &step[1..],
        _ => step,
    }
}

/// The same of a step that may be known to ask nothing but fixed parts, and is not looked at then. Takes no memory.
#[inline(always)]
pub(crate) fn left_unless(passes: bool, step: &[Stage]) -> &[Stage]
    requires { passes ≡ true → only_fixed step.now ≡ true }
    ensures { IsLeftOf step.now result.now }
{
    if passes { &[] } else { left_of(step) }
}

// Whether a stage is a condition of fixed parts alone.
fn is_fixed_stage(stage: &Stage) -> bool
    ensures { IsTrue result → IsFixedStage stage.now }
{
    match stage {
        Stage::Keep(condition) => condition.is_fixed(),
        Stage::Make(_) => false,
    }
}
