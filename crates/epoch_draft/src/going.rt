//! Instances on their ways out of a state.
ghost use Rattle.std.specs.Prelude.{◌≡◌, ◌+◌, ◌<◌, ◌≤◌, ◌∷◌, [], IfOk, IfSome, IsTrue, OnOk, Some, length, map};
ghost use Rattle.std.specs.List.{All};
ghost use Rattle.automaton.specs.States.{Net, is_used, step_at};
ghost use Rattle.automaton.specs.Steps.{pass};
ghost use Rattle.stream_readers.specs.Ways.{Into, Out, ways_at};
ghost use Rattle.semantics.specs.Births.{is_after};
ghost use Rattle.epoch_laws.specs.Instances.{began};
ghost use Rattle.epoch_draft.specs.Drafts.{DraftFits, Grows, IsDraftOf};
ghost use Rattle.epoch_draft.specs.Going.{GoesInto};
ghost use Rattle.epoch_draft.specs.Made.{IsLastIn};
ghost use Rattle.epoch_draft.specs.StoredNetworks.{IsWaitingState};
ghost use Rattle.epoch_draft.specs.Moves.{moves_on};
ghost use Rattle.epoch_draft.specs.Suits.{LeavingSuits, StepSuits};
ghost use Rattle.epoch_draft.specs.Work.{keeps, ways_work};

use crate::draft::Draft;
use crate::passing::{pass_made, pass_on, pass_stages};
use crate::waiting_state::WaitingState;
use automaton::{End, Network, Stage};
use event_types::{Memory, StreamId, Tuple};
use instances::Instance;
use steps::{Ledger, Steps};

/// An end, and the stages through which a tuple goes out by it; they do with it what those of the end's step do.
#[derive(Drop)]
pub(crate) struct WayOut<'a> {
    pub(crate) end: &'a End,
    pub(crate) step: &'a [Stage],
}

/// A tuple that began at the time `first` goes out by an end, where that is after the end's birth. Where a stream ends
/// with the tuple, `last` may be that; the result may be such a stream again. After want of memory the draft is of no
/// more use.
#[inline(always)]
pub(crate) fn go_out<L: Ledger>(
    draft: &mut Draft,
    way: &WayOut<'_>,
    tuple: &Tuple,
    first: u64,
    last: Option<StreamId>,
    steps: &mut Steps<L>,
) -> Result<Option<StreamId>, Memory>
    requires fits { DraftFits (length draft.old.made) (length draft.old.beads) draft.old }
    requires below { way.now.end.now.out < length draft.old.made }
    requires suits { StepSuits way.now.step.now tuple.now }
    requires passes { pass way.now.step.now tuple.now ≡ pass way.now.end.now.step tuple.now }
    requires last { IsLastIn draft.old.made tuple.now last }
    ensures grows { OnOk result ((net : Net) → length draft.old.beads ≡ length net → Grows net (moves_on (Out way.now.end.now ∷ []) (began first tuple.now)) draft.old draft.new) }
    ensures last { IfOk result (λ last. IsLastIn draft.new.made tuple.now last) }
    ensures ticks { steps.new ≤ steps.old + keeps way.now.step.now }
{
    if !is_read(way.end.birth, first) {
        return Ok(last);
    }
    let stream = way.end.out;
    if way.step.is_empty() {
        draft.add_copy(stream, tuple, last)?;
        return Ok(Some(stream));
    }
    match pass_stages(draft, way.step, tuple, steps)? {
        Some(passed) => {
            draft.add_made(stream, passed)?;
            Ok(other_than(stream, last))
        }
        None => Ok(last),
    }
}

// A stream, if there is one and it isn't this one.
fn other_than(stream: StreamId, last: Option<StreamId>) -> Option<StreamId>
    ensures { IfSome result (λ other. (last ≡ Some other) × (other ≡ stream → ⊥)) }
{
    match last {
        Some(other) if other != stream => last,
        _ => None,
    }
}

// The same of a tuple that is handed over, and so isn't copied.
fn hand_out<L: Ledger>(
    draft: &mut Draft,
    end: &End,
    tuple: Tuple,
    first: u64,
    steps: &mut Steps<L>,
) -> Result<(), Memory>
    requires fits { DraftFits (length draft.old.made) (length draft.old.beads) draft.old }
    requires below { end.now.out < length draft.old.made }
    requires suits { StepSuits end.now.step tuple }
    ensures grows { OnOk result ((net : Net) → length draft.old.beads ≡ length net → Grows net (moves_on (Out end.now ∷ []) (began first tuple)) draft.old draft.new) }
    ensures ticks { steps.new ≤ steps.old + keeps end.now.step }
{
    if !is_read(end.birth, first) {
        return Ok(());
    }
    match pass_made(draft, end.step.as_slice(), tuple, steps)? {
        Some(passed) => draft.add_made(end.out, passed),
        None => Ok(()),
    }
}

// Whether a query of this birth reads what began at the time `first`.
fn is_read(birth: Option<u64>, first: u64) -> bool
    ensures { result ≡ is_after birth first }
{
    match birth {
        Some(birth) => birth < first,
        None => true,
    }
}

/// A tuple that began at the time `first` goes by a forward edge into the state with a number. It passes these stages,
/// which do with it what those of the edge do. After want of memory the draft is of no more use.
pub(crate) fn go_into<L: Ledger>(
    draft: &mut Draft,
    state: usize,
    step: &[Stage],
    tuple: &Tuple,
    first: u64,
    steps: &mut Steps<L>,
) -> Result<(), Memory>
    requires fits { DraftFits (length draft.old.made) (length draft.old.beads) draft.old }
    requires below { state < length draft.old.beads }
    requires suits { StepSuits step.now tuple.now }
    ensures grows { OnOk result (GoesInto state step.now (began first tuple.now) draft.old draft.new) }
    ensures made { OnOk result (draft.new.made ≡ draft.old.made) }
    ensures ticks { steps.new ≤ steps.old + keeps step.now }
{
    match pass_on(draft, step, tuple, steps)? {
        Some(passed) => {
            let instance = Instance {
                tuple: passed,
                first,
            };
            draft.add_bead(state, instance)
        }
        None => Ok(()),
    }
}

// An instance goes into each of these states.
fn go_into_all<L: Ledger>(
    network: &Network,
    draft: &mut Draft,
    states: &[usize],
    instance: &Instance,
    steps: &mut Steps<L>,
) -> Result<(), Memory>
    requires used { All (λ state. IsTrue (is_used network.now state)) states.now }
    requires fits { DraftFits (length draft.old.made) (length network.now) draft.old }
    requires suits { All (λ state. StepSuits (step_at network.now state) instance.now.tuple) states.now }
    ensures grows { OnOk result (Grows network.now (moves_on (map Into states.now) instance.now) draft.old draft.new) }
    ensures ticks { steps.new ≤ steps.old + ways_work network.now (map Into states.now) }
{
    for state in states {
        go_into(
            draft,
            *state,
            network.step(*state).as_slice(),
            &instance.tuple,
            instance.first,
            steps,
        )?;
    }
    Ok(())
}

// An instance goes out by each of these ends.
fn go_out_all<L: Ledger>(
    network: &Network,
    draft: &mut Draft,
    ends: &[End],
    instance: &Instance,
    steps: &mut Steps<L>,
) -> Result<(), Memory>
    requires below { All (λ end. end.out < length draft.old.made) ends.now }
    requires fits { DraftFits (length draft.old.made) (length network.now) draft.old }
    requires suits { All (λ end. StepSuits end.step instance.now.tuple) ends.now }
    ensures grows { OnOk result (Grows network.now (moves_on (map Out ends.now) instance.now) draft.old draft.new) }
    ensures ticks { steps.new ≤ steps.old + ways_work network.now (map Out ends.now) }
{
    let mut last = None;
    for end in ends {
        let way = WayOut {
            end,
            step: end.step.as_slice(),
        };
        last = go_out(draft, &way, &instance.tuple, instance.first, last, steps)?;
    }
    Ok(())
}

// An instance goes out by each of these ends. If there is one alone, the instance is handed over to it.
fn hand_out_all<L: Ledger>(
    network: &Network,
    draft: &mut Draft,
    ends: &[End],
    instance: Instance,
    steps: &mut Steps<L>,
) -> Result<(), Memory>
    requires below { All (λ end. end.out < length draft.old.made) ends.now }
    requires fits { DraftFits (length draft.old.made) (length network.now) draft.old }
    requires suits { All (λ end. StepSuits end.step instance.tuple) ends.now }
    ensures grows { OnOk result (Grows network.now (moves_on (map Out ends.now) instance) draft.old draft.new) }
    ensures ticks { steps.new ≤ steps.old + ways_work network.now (map Out ends.now) }
{
    match ends {
        [end] => hand_out(draft, end, instance.tuple, instance.first, steps),
        _ => go_out_all(network, draft, ends, &instance, steps),
    }
}

/// An instance leaves a waiting state on all ways. After want of memory the draft is of no
/// more use.
pub(crate) fn leave<L: Ledger>(
    waiting: &WaitingState<'_>,
    draft: &mut Draft,
    instance: Instance,
    steps: &mut Steps<L>,
) -> Result<(), Memory>
    requires waiting { IsWaitingState waiting.now }
    requires draft { IsDraftOf waiting.now.network.now draft.old }
    requires suits { LeavingSuits waiting.now.network.now waiting.now.state instance.tuple }
    ensures grows { OnOk result (Grows waiting.now.network.now (moves_on (ways_at waiting.now.network.now waiting.now.state) instance) draft.old draft.new) }
    ensures ticks { steps.new ≤ steps.old + ways_work waiting.now.network.now (ways_at waiting.now.network.now waiting.now.state) }
{
    go_into_all(
        waiting.network,
        draft,
        waiting.network.edges(waiting.state).as_slice(),
        &instance,
        steps,
    )?;
    let ends = waiting.network.ends(waiting.state).as_slice();
    match &waiting.wait.fold {
        Some(_) => {
            go_out_all(waiting.network, draft, ends, &instance, steps)?;
            draft.add_bead(waiting.state, instance)
        }
        None => hand_out_all(waiting.network, draft, ends, instance, steps),
    }
}
