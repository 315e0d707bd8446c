//! The births of the ends that use a state.
ghost use Rattle.std.specs.Prelude.{◌≡◌, IsTrue};
ghost use Rattle.automaton.specs.Networks.{IsNetwork};
ghost use Rattle.automaton.specs.States.{is_used};
ghost use Rattle.epoch_laws.specs.Births.{IsLeastBirth};
ghost use Rattle.epoch_draft.specs.Behind.{IsBirthBehind};
ghost use Rattle.epoch_draft.specs.BirthLists.{births_of, births_within, least_with, lesser, lesser_of};

use automaton::{End, Network};

/// The least birth of the ends that use a state, where none is the least of all, and none where no end uses
/// the state. Takes no memory.
pub(crate) fn least_birth(network: &Network, state: usize) -> Option<u64>
    requires { IsTrue (is_used network.now state) }
    ensures { IsLeastBirth (IsBirthBehind network.now state) result }
{
    least_within(network, state, network.places(), None).unwrap_or(None)
}

// The least of a birth, if there is one, and those of the ends at a state and behind it, at most so many forward
// edges on.
fn least_within(
    network: &Network,
    state: usize,
    hops: usize,
    least: Option<Option<u64>>,
) -> Option<Option<u64>>
    requires used { IsTrue (is_used network.now state) }
    requires network { IsNetwork network.now }
    ensures { result ≡ least_with least (births_within network.now hops state) }
{
    let mut least = least_at(network.ends(state).as_slice(), least);
    if hops == 0 {
        return least;
    }
    for next in network.edges(state).as_slice() {
        least = least_within(network, *next, hops - 1, least);
    }
    least
}

// The same of the births of these ends.
fn least_at(ends: &[End], least: Option<Option<u64>>) -> Option<Option<u64>>
    ensures { result ≡ least_with least (births_of ends.now) }
{
    let mut least = least;
    for end in ends {
        least = Some(lower(least, end.birth));
    }
    least
}

// The lesser of a birth, if there is one, and another.
fn lower(least: Option<Option<u64>>, birth: Option<u64>) -> Option<u64>
    ensures { result ≡ lesser_of least birth }
{
    match least {
        Some(least) => lower_of(least, birth),
        None => birth,
    }
}

// The lesser of two births.
fn lower_of(least: Option<u64>, birth: Option<u64>) -> Option<u64>
    ensures { result ≡ lesser least birth }
{
    match (least, birth) {
        (Some(least), Some(birth)) => Some(least.min(birth)),
        _ => None,
    }
}
