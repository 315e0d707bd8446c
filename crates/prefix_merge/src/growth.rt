//! Networks that grow by a line.
ghost use Rattle.std.specs.Prelude.{◌≡◌, ◌≤◌, IfOk, IsTrue, OnErr, OnOk, Some, [], drop, length, max, ◌+◌, take};
ghost use Rattle.automaton.specs.Changes.{RemovesState};
ghost use Rattle.automaton.specs.States.{Net, edges_at, ends_at, is_used, root_at};
ghost use Rattle.prefix_merge.specs.Coming.{ListsCome};
ghost use Rattle.prefix_merge.specs.Growth.{Grows, Plants, Reaches, end_of};
ghost use Rattle.prefix_merge.specs.Merging.{HasEnd, IsLowestFree};

use crate::indexed::Indexed;
use automaton::{End, Hop, Line};
use event_types::{Copied, Memory, Numbers};
use std::alloc::Global;

// The state to which the first hops of a line lead, and how many they are.
#[derive(Drop)]
pub(crate) struct Reached {
    pub(crate) state: usize,
    pub(crate) place: usize,
}

// How far a line comes through states that are there.
pub(crate) fn reach(network: &Indexed, root: usize, line: &Line) -> Reached
    requires { root_at network.now root ≡ Some line.now.root }
    ensures reached { Reaches network.now line.now result.state result.place }
    ensures place { result.place ≤ length line.now.hops }
{
    let mut state = root;
    let mut place = 0;
    while place < line.hops.len() {
        match network.next(state, line.hops.get(place)) {
            Some(next) => {
                state = next;
                place += 1;
            }
            None => return Reached { state, place },
        }
    }
    Reached { state, place }
}

// Adds the states of hops one after another, from a state on, and at the last one an end, and lists the numbers of
// these states.
pub(crate) fn grow(
    network: &mut Indexed,
    tip: usize,
    hops: &[Hop],
    end: End,
    came: &mut Numbers,
) -> Result<(), Memory>
    requires tip { IsTrue (is_used network.old tip) }
    requires end { ¬ HasEnd network.old end.number }
    ensures grown { OnOk result (Grows tip hops.now end network.old network.new) }
    ensures came { OnOk result (ListsCome network.old network.new came.old came.new) }
    ensures kept { OnErr result (network.new ≡ network.old) }
{
    let Some((hop, rest)) = hops.split_first() else {
        network.add_end(tip, end)?;
        return Ok(());
    };
    let number = network.lowest_free();
    let places = network.places();
    came.add(number)?;
    network.add_hop(number, tip, hop)?;
    match grow(network, number, rest, end, came) {
        Ok(()) => Ok(()),
        Err(fault) => {
            take_back(network, number, places);
            Err(fault)
        }
    }
}

// Adds the root state of a line, the states of its hops and its end, and lists the numbers of these states.
pub(crate) fn plant(
    network: &mut Indexed,
    number: usize,
    line: &Line,
    end: End,
    came: &mut Numbers,
) -> Result<(), Memory>
    requires number { IsLowestFree network.old number }
    requires end { ¬ HasEnd network.old end.number }
    ensures planted { OnOk result (Plants number line.now end network.old network.new) }
    ensures came { OnOk result (ListsCome network.old network.new came.old came.new) }
    ensures kept { OnErr result (network.new ≡ network.old) }
{
    let places = network.places();
    came.add(number)?;
    network.add_root(number, line.root)?;
    match grow(network, number, line.hops.as_slice(), end, came) {
        Ok(()) => Ok(()),
        Err(fault) => {
            take_back(network, number, places);
            Err(fault)
        }
    }
}

// The hops of a line from a place on.
pub(crate) fn hops_from(line: &Line, place: usize) -> &[Hop]
    requires { place ≤ length line.now.hops }
    ensures { result.now ≡ drop place line.now.hops }
{
    &line.hops.as_slice()[place..]
}

// The end of a line, with its number and its birth.
pub(crate) fn numbered_end(
    alloc: Global,
    line: &Line,
    number: usize,
    birth: Option<u64>,
) -> Result<End, Memory>
    ensures { IfOk result (λ end. end ≡ end_of line.now number birth) }
{
    let step = line.last.copied(alloc)?;
    Ok(End {
        step,
        out: line.out,
        number,
        birth,
    })
}

// Takes a state away that came when there were so many places.
fn take_back(network: &mut Indexed, number: usize, places: usize)
    requires used { IsTrue (is_used network.old number) }
    requires last { edges_at network.old number ≡ [] }
    requires endless { ends_at network.old number ≡ [] }
    requires next { number ≤ places }
    requires places { length network.old ≡ max places (number + 1) }
    ensures { (left : Net) × RemovesState number network.old left × (network.new ≡ take places left) }
{
    network.remove_state(number);
    if number == places {
        network.shrink();
    }
}
