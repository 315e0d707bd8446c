//! Plain networks, in which lines share no waiting state.
ghost use Rattle.std.specs.Prelude.{◌≡◌, ◌<◌, ◌++◌, ◌∷◌, [], List, length, position, IfOk, OnErr, OnOk};
ghost use Rattle.std.specs.Option.{unwrap_or};
ghost use Rattle.automaton.specs.declared.line.Line.{Line};
ghost use Rattle.automaton.specs.Growing.{IsWhole, ended, hopped, rooted, with_edge, with_end};
ghost use Rattle.automaton.specs.Plain.{IsPlain};
ghost use Rattle.automaton.specs.States.{root_in, tells};

use crate::line::{Hop, Line, Lines};
use crate::network::{End, Entrance, Network, State};
use event_types::{Copied, List, Memory, StreamId};
use std::alloc::Global;

impl Network {
    /// One root state for each stream in which a line begins, and one waiting state for each hop of each
    /// line. The number of an end is the place of its line, counted from 0, and it has no birth.
    pub fn plain(alloc: Global, lines: &Lines) -> Result<Network, Memory>
        ensures { IfOk result (λ network. IsPlain lines.now network) }
    {
        let mut slots = Vec::new(alloc);
        for number in 0..lines.len() {
            add_line(alloc, &mut slots, lines.get(number), number)?;
        }
        Ok(Network::of(alloc, slots))
    }
}

// Adds a line with states of its own, up to its root.
fn add_line(
    alloc: Global,
    slots: &mut Vec<Option<State>>,
    line: &Line,
    number: usize,
) -> Result<(), Memory>
    ensures { OnOk result ((lines : List Line) → number ≡ length lines → IsWhole lines slots.old.items → IsWhole (lines ++ line.now ∷ []) slots.new.items) }
{
    let mut tip = root_state(alloc, slots, line.root)?;
    for hop in line.hops.as_slice() {
        tip = add_hop(alloc, slots, tip, hop)?;
    }
    let step = line.last.copied(alloc)?;
    let end = End {
        step,
        out: line.out,
        number,
        birth: None,
    };
    put_end(&mut slots[tip], end)
}

// The number of the stream's root state, which is added where there is none.
fn root_state(
    alloc: Global,
    slots: &mut Vec<Option<State>>,
    stream: StreamId,
) -> Result<usize, Memory>
    ensures value { IfOk result (λ root. root ≡ unwrap_or (position (λ slot. tells stream (root_in slot)) slots.old.items) (length slots.old.items)) }
    ensures rooted { OnOk result (slots.new.items ≡ rooted stream (position (λ slot. tells stream (root_in slot)) slots.old.items) slots.old.items) }
{
    match find_root(slots, stream) {
        Some(root) => Ok(root),
        None => {
            let root = slots.len();
            slots.push(Some(entered(alloc, Entrance::Root(stream))))?;
            Ok(root)
        }
    }
}

// The first root state of a stream.
fn find_root(slots: &[Option<State>], stream: StreamId) -> Option<usize>
    ensures { result ≡ position (λ slot. tells stream (root_in slot)) slots.now }
{
    slots.iter().position(|slot| is_root(slot, stream))
}

// Whether it is the root state of the stream.
fn is_root(slot: &Option<State>, stream: StreamId) -> bool
    ensures { result ≡ tells stream (root_in slot.now) }
{
    match slot {
        Some(state) => match &state.entrance {
            Entrance::Root(root) => *root == stream,
            Entrance::Waiting { .. } => false,
        },
        None => false,
    }
}

// A state that is entered so, without edges and ends.
pub(crate) fn entered(alloc: Global, entrance: Entrance) -> State
    ensures { result ≡ record { entrance = entrance; edges = []; ends = [] } }
{
    State {
        entrance,
        edges: List::new(alloc),
        ends: List::new(alloc),
    }
}

// Adds the waiting state of a hop, to which a forward edge leads from the state before it.
fn add_hop(
    alloc: Global,
    slots: &mut Vec<Option<State>>,
    before: usize,
    hop: &Hop,
) -> Result<usize, Memory>
    requires { before < length slots.old.items }
    ensures value { IfOk result (λ next. next ≡ length slots.old.items) }
    ensures hopped { OnOk result (slots.new.items ≡ hopped before hop.now slots.old.items) }
{
    let next = slots.len();
    put_edge(&mut slots[before], next)?;
    let hop = hop.copy(alloc)?;
    slots.push(Some(entered(alloc, Entrance::Waiting { from: before, hop })))?;
    Ok(next)
}

// Adds a forward edge.
pub(crate) fn put_edge(slot: &mut Option<State>, next: usize) -> Result<(), Memory>
    ensures edge { OnOk result (slot.new ≡ with_edge next slot.old) }
    ensures kept { OnErr result (slot.new ≡ slot.old) }
{
    if let Some(state) = slot {
        state.edges.add(next)?;
    }
    Ok(())
}

// Adds an end.
pub(crate) fn put_end(slot: &mut Option<State>, end: End) -> Result<(), Memory>
    ensures end { OnOk result (slot.new ≡ with_end end slot.old) }
    ensures kept { OnErr result (slot.new ≡ slot.old) }
{
    if let Some(state) = slot {
        state.ends.add(end)?;
    }
    Ok(())
}
