//! Networks that states leave which no end uses.
ghost use Rattle.std.specs.Prelude.{◌≡◌, ℕ, [], IsTrue, None, false, if◌then◌else◌, nat_eq};
ghost use Rattle.std.specs.HashMap.{get};
ghost use Rattle.automaton.specs.Networks.{IsNetwork};
ghost use Rattle.automaton.specs.Prefixes.{Prefix};
ghost use Rattle.automaton.specs.States.{Net, edges_at, ends_at, is_used, tells};
ghost use Rattle.prefix_merge.specs.Coming.{NotesLeft};
ghost use Rattle.prefix_merge.specs.Growth.{IsTable};
ghost use Rattle.prefix_merge.specs.Pruning.{IsPruned, IsPruning, IsShortened, IsWanted};

use crate::indexed::Indexed;
use crate::left::Left;
use automaton::Network;
use event_types::StreamId;
use std::collections::HashMap;

// The number of the root state of each stream that has one.
pub(crate) type Roots = HashMap<StreamId, usize>;

// Whether an edge leads on from a state, or an end stands there.
fn is_wanted(network: &Network, state: usize) -> bool
    requires { IsTrue (is_used network.now state) }
    ensures wanted { IsTrue result → IsWanted network.now state }
    ensures unwanted { result ≡ false → (edges_at network.now state ≡ []) × (ends_at network.now state ≡ []) }
{
    network.edges(state).len() != 0 || network.ends(state).len() != 0
}

// Forgets the root state of a stream, where it is one's.
fn forget(roots: &mut Roots, stream: Option<StreamId>)
    ensures { (other : ℕ) → get nat_eq roots.new other ≡ (if tells other stream then None else get nat_eq roots.old other) }
{
    if let Some(stream) = stream {
        roots.remove(&stream);
    }
}

// Forgets the places behind the last state.
pub(crate) fn shorten(network: &mut Indexed)
    ensures { IsShortened network.old network.new }
{
    let mut places = network.places();
    while 0 < places && !network.network().used(places - 1) {
        network.shrink();
        places -= 1;
    }
}

// Takes a state away that leads nowhere, then the one before it, as long as no edge leads on from there and
// no end stands there, and notes these.
pub(crate) fn prune(network: &mut Indexed, roots: &mut Roots, tip: usize, left: &mut Left)
    requires used { IsTrue (is_used network.old tip) }
    requires network { IsNetwork network.old }
    ensures pruned { (whole : Net) (prefix : Prefix) → IsPruning whole prefix tip network.old → IsPruned whole network.new }
    ensures roots { IsTable roots.old network.old → IsTable roots.new network.new }
    ensures left { NotesLeft network.old network.new left.old left.new }
{
    let states = network.network();
    if is_wanted(states, tip) {
        return;
    }
    forget(roots, states.root(tip));
    let before = states.before(tip);
    network.remove_state(tip);
    left.note(tip);
    match before {
        Some(before) => prune(network, roots, before, left),
        None => {}
    }
}
