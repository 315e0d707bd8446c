//! Where ends stand.
ghost use Rattle.std.specs.Prelude.{◌≡◌, ◌==◌, ℕ, IfSome, IsSome, IsTrue, None, OnErr, OnOk, Some, if◌then◌else◌, nat_eq};
ghost use Rattle.std.specs.HashMap.{get};
ghost use Rattle.automaton.specs.States.{is_used};
ghost use Rattle.prefix_merge.specs.Holders.{TellsOf, TellsOfSome};
ghost use Rattle.prefix_merge.specs.Merging.{number_at};

use automaton::Network;
use event_types::Memory;
use std::collections::HashMap;

// Where an end stands: its state, and its place among the ends there, counted from 0.
#[derive(Clone, Copy, Drop)]
pub(crate) struct EndSpot {
    pub(crate) state: usize,
    pub(crate) place: usize,
}

// Where the end of each number stands.
pub(crate) type Holders = HashMap<usize, EndSpot>;

// The number of the end that stands there, if one does.
pub(crate) fn number_there(network: &Network, spot: EndSpot) -> Option<usize>
    requires { IsTrue (is_used network.now spot.state) }
    ensures { result ≡ number_at network.now spot.state spot.place }
{
    let ends = network.ends(spot.state);
    if spot.place < ends.len() {
        Some(ends.get(spot.place).number)
    } else {
        None
    }
}

// Notes where an end stands.
pub(crate) fn note(holders: &mut Holders, end: usize, spot: EndSpot) -> Result<(), Memory>
    ensures ok { OnOk result (TellsOf end (Some spot) holders.old holders.new) }
    ensures kept { OnErr result ((other : ℕ) → get nat_eq holders.new other ≡ get nat_eq holders.old other) }
{
    holders.insert(end, spot)?;
    Ok(())
}

// Notes where the end stands that moved, if one did. Takes no memory.
pub(crate) fn note_moved(holders: &mut Holders, moved: Option<usize>, spot: EndSpot)
    requires { IfSome moved (λ end. IsSome (get nat_eq holders.old end)) }
    ensures { TellsOfSome moved spot holders.old holders.new }
{
    let Some(end) = moved else {
        return;
    };
    match holders.get_mut(&end) {
        Some(noted) => *noted = spot,
        None => unreachable!(),
    }
}

// Forgets where an end stands. Takes no memory.
pub(crate) fn forget(holders: &mut Holders, end: usize)
    ensures { TellsOf end None holders.old holders.new }
{
    holders.remove(&end);
}
