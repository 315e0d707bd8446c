//! The kinds of the tuples that a line gives.
ghost use Rattle.std.specs.Prelude.{◌≡◌, List, ◌++◌, map, slice_get, IfOk, None, OnOk, Some};
ghost use Rattle.std.specs.List.{All};
ghost use Rattle.event_types.specs.declared.kind.Kind.{Kind};
ghost use Rattle.semantics.specs.Typing.{AreOfKinds};
ghost use Rattle.scalar_expr.specs.Kinds.{HasPlace, sc_kind};
ghost use Rattle.scalar_expr.specs.Views.{sc_of};
ghost use Rattle.automaton.specs.LineKinds.{HopGives, LineGives, StageGives, StepGives, TurnGives};

use crate::layout::copy_kinds;
use crate::line::{Hop, Line};
use crate::step::{Stage, Step};
use crate::wait::Wait;
use event_types::{KindLists, Kinds, List, Memory};
use scalar_expr::{Map, Scalar, kind_of};
use std::alloc::Global;

impl Line {
    /// The kinds of the tuples that leave the line's last step, over streams of these kinds; the kinds
    /// of its out stream aren't looked at.
    pub fn gives(&self, alloc: Global, streams: &KindLists) -> Result<Kinds, Memory>
        requires { (out : List Kind) × LineGives streams.now self.now out }
        ensures { IfOk result (λ out. LineGives streams.now self.now out) }
    {
        let mut kinds = copy_kinds(alloc, streams.get(self.root))?;
        for hop in self.hops.as_slice() {
            kinds = hop_gives(alloc, streams, hop, kinds)?;
        }
        step_gives(alloc, &self.last, kinds)
    }
}

// The kinds of what leaves the hop's wait.
fn hop_gives(alloc: Global, streams: &KindLists, hop: &Hop, kinds: Kinds) -> Result<Kinds, Memory>
    requires { (out : List Kind) × HopGives streams.now hop.now kinds out }
    ensures { IfOk result (λ out. HopGives streams.now hop.now kinds out) }
{
    let binding = step_gives(alloc, &hop.step, kinds)?;
    turn_gives(&hop.wait, streams.get(hop.wait.stream), binding)
}

// The kinds of what a binding becomes with an event.
fn turn_gives(wait: &Wait, event: &Kinds, binding: Kinds) -> Result<Kinds, Memory>
    requires { (out : List Kind) × TurnGives wait.now.fold binding event.now out }
    ensures { IfOk result (λ out. TurnGives wait.now.fold binding event.now out) }
{
    match &wait.fold {
        Some(_) => Ok(binding),
        None => joined_kinds(binding, event),
    }
}

// The kinds with those of the event behind them.
fn joined_kinds(binding: Kinds, event: &Kinds) -> Result<Kinds, Memory>
    ensures { IfOk result (λ out. out ≡ binding ++ event.now) }
{
    let mut out = binding;
    add_kinds(&mut out, event)?;
    Ok(out)
}

// Adds equal kinds.
fn add_kinds(kinds: &mut Kinds, more: &Kinds) -> Result<(), Memory>
    ensures { OnOk result (kinds.new ≡ kinds.old ++ more.now) }
{
    for kind in more.as_slice() {
        kinds.add(*kind)?;
    }
    Ok(())
}

// The kinds of what passes the step.
fn step_gives(alloc: Global, step: &Step, kinds: Kinds) -> Result<Kinds, Memory>
    requires { (out : List Kind) × StepGives step.now kinds out }
    ensures { IfOk result (λ out. StepGives step.now kinds out) }
{
    let mut kinds = kinds;
    for stage in step.as_slice() {
        kinds = stage_gives(alloc, stage, kinds)?;
    }
    Ok(kinds)
}

// The kinds of what passes the stage.
fn stage_gives(alloc: Global, stage: &Stage, kinds: Kinds) -> Result<Kinds, Memory>
    requires { (out : List Kind) × StageGives stage.now kinds out }
    ensures { IfOk result (λ out. StageGives stage.now kinds out) }
{
    match stage {
        Stage::Keep(_) => Ok(kinds),
        Stage::Make(projection) => made_kinds(alloc, projection, &kinds),
    }
}

// The kinds of the projection's values.
fn made_kinds(alloc: Global, projection: &Map, kinds: &Kinds) -> Result<Kinds, Memory>
    requires { (out : List Kind) × AreOfKinds projection.now.parts kinds.now None out }
    ensures { IfOk result (λ out. AreOfKinds projection.now.parts kinds.now None out) }
{
    kinds_of(alloc, projection.parts.as_slice(), kinds)
}

// The kinds of scalars over an event.
fn kinds_of(alloc: Global, scalars: &[Scalar], kinds: &Kinds) -> Result<Kinds, Memory>
    requires { All (λ s. HasPlace (sc_of s) kinds.now None) scalars.now }
    ensures { IfOk result (λ out. out ≡ map (λ s. sc_kind (sc_of s) kinds.now None) scalars.now) }
{
    let mut out = List::new(alloc);
    'scalars: for scalar in scalars {
        out.add(kind_of(scalar, kinds, None))?;
    }
    Ok(out)
}
