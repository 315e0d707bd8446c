//! What reads one stream.
ghost use Rattle.std.specs.Prelude.{◌≡◌, ◌++◌, ◌∷◌, [], IsPermutation, IsTrue, OnOk, length, map};
ghost use Rattle.std.specs.List.{All, flat_map, range_with_len};
ghost use Rattle.automaton.specs.Networks.{IsNetwork};
ghost use Rattle.automaton.specs.States.{ends_at, is_used};
ghost use Rattle.static_index.specs.Conditions.{HasId, with_condition, without};
ghost use Rattle.static_index.specs.FixedParts.{fixed_parts};
ghost use Rattle.stream_readers.specs.Filing.{filed_to};
ghost use Rattle.stream_readers.specs.Leaving.{left_by};
ghost use Rattle.stream_readers.specs.Targets.{end_at, targets_at};
ghost use Rattle.stream_readers.specs.Ways.{first_parts};
ghost use Rattle.stream_readers.specs.declared.target.Target.TheVariants.{Edge};

use crate::leaving::Gone;
use crate::target::{Target, end_by};
use crate::target_index::TargetIndex;
use automaton::{Network, Stage, Step};
use event_types::Memory;
use scalar_expr::{Conj, Pred, normal};
use static_index::StaticIndex;
use std::alloc::Global;

/// What reads a stream: the targets of its roots, and the states that wait on it by their numbers, each under
/// what is asked of a tuple alone.
#[derive(Drop)]
pub struct Reader {
    pub(crate) targets: TargetIndex,
    pub(crate) waits: StaticIndex,
}

impl Reader {
    /// Nothing. Takes no memory.
    pub(crate) fn new(alloc: Global) -> Reader
        ensures { result ≡ record { targets = []; waits = [] } }
    {
        Reader {
            targets: TargetIndex::new(alloc),
            waits: StaticIndex::new(alloc),
        }
    }

    /// Adds the targets of a root. After want of memory the reader is of no more use.
    pub(crate) fn add_root(
        &mut self,
        alloc: Global,
        network: &Network,
        number: usize,
    ) -> Result<(), Memory>
        requires used { IsTrue (is_used network.now number) }
        requires network { IsNetwork network.now }
        ensures targets { OnOk result (IsPermutation self.new.targets (self.old.targets ++ map (filed_to network.now) (targets_at network.now number))) }
        ensures waits { self.new.waits ≡ self.old.waits }
    {
        add_edges(
            alloc,
            &mut self.targets,
            network,
            network.edges(number).as_slice(),
        )?;
        add_ends(alloc, &mut self.targets, network, number)
    }

    /// Adds a target under the condition at the head of the step to it, or under none.
    pub(crate) fn add_target(
        &mut self,
        alloc: Global,
        target: Target,
        step: &Step,
    ) -> Result<(), Memory>
        ensures targets { OnOk result (IsPermutation self.new.targets (self.old.targets ++ record { target = target; parts = first_parts step.now } ∷ [])) }
        ensures waits { self.new.waits ≡ self.old.waits }
    {
        add_target(alloc, &mut self.targets, target, step)
    }

    /// A target leaves.
    pub(crate) fn leave(&mut self, gone: Gone)
        ensures { self.new ≡ record self.old { targets = flat_map (left_by gone) self.old.targets } }
    {
        self.targets.leave(gone);
    }

    /// Adds a state that waits by a condition. Want of memory leaves the reader as it was.
    pub(crate) fn add_wait(&mut self, number: usize, choose: &Conj) -> Result<(), Memory>
        requires { ¬ HasId number self.old.waits }
        ensures { OnOk result (self.new ≡ record self.old { waits = with_condition (record { id = number; parts = fixed_parts choose.now }) self.old.waits }) }
    {
        self.waits.add(number, choose)
    }

    /// A waiting state leaves. Takes no memory.
    pub(crate) fn leave_wait(&mut self, number: usize)
        requires { HasId number self.old.waits }
        ensures { self.new ≡ record self.old { waits = without number self.old.waits } }
    {
        self.waits.remove(number);
    }
}

// Adds edges into these states.
fn add_edges(
    alloc: Global,
    index: &mut TargetIndex,
    network: &Network,
    states: &[usize],
) -> Result<(), Memory>
    requires { All (λ state. IsTrue (is_used network.now state)) states.now }
    ensures { OnOk result (IsPermutation index.new (index.old ++ map (λ state. filed_to network.now (Edge state)) states.now)) }
{
    for state in states {
        add_target(alloc, index, Target::Edge(*state), network.step(*state))?;
    }
    Ok(())
}

// Adds the ends of a state.
fn add_ends(
    alloc: Global,
    index: &mut TargetIndex,
    network: &Network,
    number: usize,
) -> Result<(), Memory>
    requires { IsTrue (is_used network.now number) }
    ensures { OnOk result (IsPermutation index.new (index.old ++ map (λ place. filed_to network.now (end_at network.now number place)) (range_with_len 0 (length (ends_at network.now number))))) }
{
    let ends = network.ends(number);
    for place in 0..ends.len() {
        let step = &ends.get(place).step;
        add_target(alloc, index, end_by(number, place, step), step)?;
    }
    Ok(())
}

// Adds a target under the condition at the head of the step to it, or under none.
fn add_target(
    alloc: Global,
    index: &mut TargetIndex,
    target: Target,
    step: &Step,
) -> Result<(), Memory>
    ensures { OnOk result (IsPermutation index.new (index.old ++ record { target = target; parts = first_parts step.now } ∷ [])) }
{
    match step.as_slice().first() {
        Some(Stage::Keep(condition)) => index.add(target, condition),
        _ => index.add(target, &normal(alloc, Pred::True)?),
    }
}
