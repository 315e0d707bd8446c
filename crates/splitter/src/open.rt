//! Lines that don't say yet which stream they publish.
ghost use Rattle.std.specs.Prelude.{◌≡◌, ◌++◌, ◌∷◌, [], map, IfOk, OnOk};
ghost use Rattle.automaton.specs.declared.step.Stage.TheVariants.{Keep, Make};
ghost use Rattle.splitter.specs.Splitting.{published_on, with_hop, with_stage};

use crate::stages::{add_keep, add_make};
use automaton::{Hop, Hops, Line, Lines, Step, Wait};
use event_types::{List, Memory, StreamId};
use scalar_expr::{Conj, Map};
use std::alloc::Global;

/// An automaton line without the stream that it publishes: its root, the hops to its waiting states in order, and the step
/// of its last edge.
#[derive(Drop)]
pub struct Open {
    pub root: StreamId,
    pub hops: Hops,
    pub last: Step,
}

// The line that gives a stream as it is.
pub(crate) fn read_line(alloc: Global, stream: StreamId) -> Result<Vec<Open>, Memory>
    ensures { IfOk result (λ lines. lines.items ≡ record { root = stream; hops = []; last = [] } ∷ []) }
{
    let mut lines = Vec::new(alloc);
    lines.push(Open {
        root: stream,
        hops: List::new(alloc),
        last: List::new(alloc),
    })?;
    Ok(lines)
}

// Adds a Keep to each line's last step.
pub(crate) fn keep_each(alloc: Global, lines: &mut [Open], condition: &Conj) -> Result<(), Memory>
    ensures { OnOk result (lines.new ≡ map (with_stage (Keep condition.now)) lines.old) }
{
    for place in 0..lines.len() {
        keep_one(alloc, &mut lines[place], condition)?;
    }
    Ok(())
}

fn keep_one(alloc: Global, line: &mut Open, condition: &Conj) -> Result<(), Memory>
    ensures { OnOk result (line.new ≡ with_stage (Keep condition.now) line.old) }
{
    add_keep(alloc, &mut line.last, condition)
}

// Adds a Make to each line's last step.
pub(crate) fn make_each(alloc: Global, lines: &mut [Open], projection: &Map) -> Result<(), Memory>
    ensures { OnOk result (lines.new ≡ map (with_stage (Make projection.now)) lines.old) }
{
    for place in 0..lines.len() {
        make_one(alloc, &mut lines[place], projection)?;
    }
    Ok(())
}

fn make_one(alloc: Global, line: &mut Open, projection: &Map) -> Result<(), Memory>
    ensures { OnOk result (line.new ≡ with_stage (Make projection.now) line.old) }
{
    add_make(alloc, &mut line.last, projection)
}

// Adds a hop to each line: its last step leads to the wait.
pub(crate) fn hop_each(alloc: Global, lines: &mut [Open], wait: &Wait) -> Result<(), Memory>
    ensures { OnOk result (lines.new ≡ map (with_hop wait.now) lines.old) }
{
    for place in 0..lines.len() {
        hop_one(alloc, &mut lines[place], wait)?;
    }
    Ok(())
}

fn hop_one(alloc: Global, line: &mut Open, wait: &Wait) -> Result<(), Memory>
    ensures { OnOk result (line.new ≡ with_hop wait.now line.old) }
{
    let wait = wait.copy(alloc)?;
    let step = std::mem::replace(&mut line.last, List::new(alloc));
    line.hops.add(Hop { step, wait })
}

// Adds the lines, which publish this stream, to those that are there.
pub(crate) fn publish_each(lines: &mut Lines, more: Vec<Open>, out: StreamId) -> Result<(), Memory>
    ensures { OnOk result (lines.new ≡ lines.old ++ map (published_on out) more.items) }
{
    for line in more {
        let Open { root, hops, last } = line;
        lines.add(Line {
            root,
            hops,
            last,
            out,
        })?;
    }
    Ok(())
}
