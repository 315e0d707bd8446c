//! What reads each stream of a network, as a state or an end is to come or to leave. After want of memory there
//! are no readers.
ghost use Rattle.std.specs.Prelude.{◌≡◌, ◌<◌, IfSome, IsTrue, [], false, length};
ghost use Rattle.automaton.specs.Changes.{AddsEnd, AddsHop, RemovesEnd, RemovesState};
ghost use Rattle.automaton.specs.States.{Net, edges_at, ends_at, is_used};
ghost use Rattle.stream_readers.specs.Readers.{AreReadersOf};

use automaton::{End, Hop, Network};
use stream_readers::Readers;

// The readers of a network to which the waiting state of a hop is to come.
pub(crate) fn with_hop(
    readers: Option<Readers>,
    network: &Network,
    number: usize,
    before: usize,
    hop: &Hop,
) -> Option<Readers>
    requires readers { IfSome readers (AreReadersOf network.now) }
    requires free { is_used network.now number ≡ false }
    requires before { IsTrue (is_used network.now before) }
    ensures { IfSome result (λ filed. (new : Net) → AddsHop number before hop.now network.now new → AreReadersOf new filed) }
{
    let mut readers = readers?;
    match readers.add_hop(network, number, before, hop) {
        Ok(()) => Some(readers),
        Err(_) => None,
    }
}

// The readers of a network to which an end is to come.
pub(crate) fn with_end(
    readers: Option<Readers>,
    network: &Network,
    state: usize,
    end: &End,
) -> Option<Readers>
    requires readers { IfSome readers (AreReadersOf network.now) }
    requires used { IsTrue (is_used network.now state) }
    ensures { IfSome result (λ filed. (new : Net) → AddsEnd state end.now network.now new → AreReadersOf new filed) }
{
    let mut readers = readers?;
    match readers.add_end(network, state, end) {
        Ok(()) => Some(readers),
        Err(_) => None,
    }
}

// The readers of a network that the end at a place of a state is to leave.
pub(crate) fn without_end(
    readers: Option<Readers>,
    network: &Network,
    state: usize,
    place: usize,
) -> Option<Readers>
    requires readers { IfSome readers (AreReadersOf network.now) }
    requires used { IsTrue (is_used network.now state) }
    requires there { place < length (ends_at network.now state) }
    ensures { IfSome result (λ left. (new : Net) → RemovesEnd state place network.now new → AreReadersOf new left) }
{
    let mut readers = readers?;
    readers.remove_end(network, state, place);
    Some(readers)
}

// The readers of a network that a state without edges and ends is to leave.
pub(crate) fn without_state(
    readers: Option<Readers>,
    network: &Network,
    number: usize,
) -> Option<Readers>
    requires readers { IfSome readers (AreReadersOf network.now) }
    requires used { IsTrue (is_used network.now number) }
    requires last { edges_at network.now number ≡ [] }
    requires endless { ends_at network.now number ≡ [] }
    ensures { IfSome result (λ left. (new : Net) → RemovesState number network.now new → AreReadersOf new left) }
{
    let mut readers = readers?;
    readers.remove_state(network, number);
    Some(readers)
}
