//! What comes of the tuples of a stream in an epoch.
ghost use Rattle.std.specs.Prelude.{◌≡◌, ◌+◌, ◌<◌, ◌≤◌, ◌++◌, IfOk, IsTrue, OnOk, length, map, sum_by};
ghost use Rattle.std.specs.List.{All, flat_map};
ghost use Rattle.automaton.specs.Networks.{IsNetwork};
ghost use Rattle.automaton.specs.States.{is_used};
ghost use Rattle.stream_readers.specs.Targets.{IsTarget, way_of};
ghost use Rattle.stream_readers.specs.Ways.{MeetsParts};
ghost use Rattle.epoch_laws.specs.Instances.{begins};
ghost use Rattle.epoch_draft.specs.Drafts.{Grows, IsDraftOf};
ghost use Rattle.epoch_draft.specs.Held.{held};
ghost use Rattle.epoch_draft.specs.Made.{IsLastIn};
ghost use Rattle.epoch_draft.specs.StoredNetworks.{IsStoredNetwork};
ghost use Rattle.epoch_draft.specs.Meeting.{GrowsByMet, Lists, ListsAll, moves_of, moves_of_all, pair_of};
ghost use Rattle.epoch_draft.specs.Moves.{moves_on};
ghost use Rattle.epoch_draft.specs.Stores.{HasStores};
ghost use Rattle.epoch_draft.specs.Suits.{MeetingSuits, TupleSuits, WaySuits};
ghost use Rattle.epoch_draft.specs.Tests.{stream_work, tuple_work};
ghost use Rattle.epoch_draft.specs.Work.{state_work, ways_work};

use crate::draft::{Draft, Pair};
use crate::drawing::Drawing;
use crate::going::{WayOut, go_into, go_out};
use crate::matching::meet_wait;
use crate::passing::{left_of, left_unless};
use crate::stored_network::StoredNetwork;
use automaton::Network;
use event_types::{Memory, StreamId, Tuple};
use steps::{Ledger, Steps};
use stream_readers::Target;

// At each state that was found: what the tuple makes of the instances there goes all ways out of the state. Each
// state is listed with the tuple's stream and place.
fn meet_waits<L: Ledger>(
    stored: &StoredNetwork<'_>,
    drawing: &mut Drawing,
    stream: StreamId,
    place: usize,
    tuple: &Tuple,
    steps: &mut Steps<L>,
) -> Result<(), Memory>
    requires network { IsNetwork stored.now.network.now }
    requires used { All (λ state. IsTrue (is_used stored.now.network.now state)) drawing.old.found.waits }
    requires stores { HasStores stored.now.network.now stored.now.stores.now }
    requires draft { IsDraftOf stored.now.network.now drawing.old.draft }
    requires suits { All (MeetingSuits stored.now.network.now (held stored.now.stores.now) tuple.now) drawing.old.found.waits }
    ensures grows { OnOk result (GrowsByMet stored.now.network.now (held stored.now.stores.now) tuple.now drawing.old.found.waits drawing.old.draft drawing.new.draft) }
    ensures pairs { OnOk result (drawing.new.pairs ≡ drawing.old.pairs ++ map (pair_of stream place) drawing.old.found.waits) }
    ensures agenda { drawing.new.agenda.entries ≡ drawing.old.agenda.entries }
    ensures ticks { steps.new ≤ steps.old + sum_by (state_work stored.now.network.now (held stored.now.stores.now) tuple.now) drawing.old.found.waits }
{
    for index in 0..drawing.found.waits.len() {
        let state = *drawing.found.waits.get(index);
        let pair = Pair {
            state,
            stream,
            place,
        };
        drawing.pairs.add(pair)?;
        meet_wait(
            stored.network,
            stored.stores,
            &mut drawing.draft,
            state,
            tuple,
            steps,
        )?;
    }
    Ok(())
}

// A tuple, which begins here, goes to each of these targets, by which it was found. What goes into several states shares
// its values.
fn go_all<L: Ledger>(
    network: &Network,
    draft: &mut Draft,
    targets: &[Target],
    tuple: &Tuple,
    steps: &mut Steps<L>,
) -> Result<(), Memory>
    requires targets { All (IsTarget network.now) targets.now }
    requires draft { IsDraftOf network.now draft.old }
    requires suits { All (λ target. All (WaySuits network.now tuple.now) (way_of network.now target)) targets.now }
    requires met { All (λ target. All (MeetsParts network.now tuple.now) (way_of network.now target)) targets.now }
    ensures grows { OnOk result (Grows network.now (moves_on (flat_map (way_of network.now) targets.now) (begins tuple.now)) draft.old draft.new) }
    ensures ticks { steps.new ≤ steps.old + ways_work network.now (flat_map (way_of network.now) targets.now) }
{
    if targets.is_empty() {
        return Ok(());
    }
    if !lead_into_several(targets) {
        return go_each(network, draft, targets, tuple, steps);
    }
    let shared = tuple.shared(draft.alloc)?;
    go_each(network, draft, targets, &shared, steps)
}

// Whether several of these targets lead into a state. Takes no memory.
fn lead_into_several(targets: &[Target]) -> bool {
    let mut leads = false;
    for target in targets {
        if let Target::Edge(_) = target {
            if leads {
                return true;
            }
            leads = true;
        }
    }
    false
}

// The same, whether its values are shared or not.
fn go_each<L: Ledger>(
    network: &Network,
    draft: &mut Draft,
    targets: &[Target],
    tuple: &Tuple,
    steps: &mut Steps<L>,
) -> Result<(), Memory>
    requires targets { All (IsTarget network.now) targets.now }
    requires draft { IsDraftOf network.now draft.old }
    requires suits { All (λ target. All (WaySuits network.now tuple.now) (way_of network.now target)) targets.now }
    requires met { All (λ target. All (MeetsParts network.now tuple.now) (way_of network.now target)) targets.now }
    ensures grows { OnOk result (Grows network.now (moves_on (flat_map (way_of network.now) targets.now) (begins tuple.now)) draft.old draft.new) }
    ensures ticks { steps.new ≤ steps.old + ways_work network.now (flat_map (way_of network.now) targets.now) }
{
    let mut last = None;
    for target in targets {
        last = go(network, draft, *target, tuple, last, steps)?;
    }
    Ok(())
}

// A tuple, which begins here, goes to a target by which it was found. Where a stream ends with the tuple, `last` may be
// that; the result may be such a stream again.
fn go<L: Ledger>(
    network: &Network,
    draft: &mut Draft,
    target: Target,
    tuple: &Tuple,
    last: Option<StreamId>,
    steps: &mut Steps<L>,
) -> Result<Option<StreamId>, Memory>
    requires target { IsTarget network.now target }
    requires draft { IsDraftOf network.now draft.old }
    requires suits { All (WaySuits network.now tuple.now) (way_of network.now target) }
    requires met { All (MeetsParts network.now tuple.now) (way_of network.now target) }
    requires last { IsLastIn draft.old.made tuple.now last }
    ensures grows { OnOk result (Grows network.now (moves_on (way_of network.now target) (begins tuple.now)) draft.old draft.new) }
    ensures last { IfOk result (λ last. IsLastIn draft.new.made tuple.now last) }
    ensures ticks { steps.new ≤ steps.old + ways_work network.now (way_of network.now target) }
{
    match target {
        Target::Edge(state) => {
            let step = left_of(network.step(state).as_slice());
            go_into(draft, state, step, tuple, tuple.at(), steps)?;
            Ok(last)
        }
        Target::End(place) => {
            let end = network.ends(place.state).get(place.place);
            let step = left_unless(place.passes, end.step.as_slice());
            go_out(draft, &WayOut { end, step }, tuple, tuple.at(), last, steps)
        }
    }
}

// Makes what comes of a tuple of a stream, which stands there at a place.
fn meet_tuple<L: Ledger>(
    stored: &StoredNetwork<'_>,
    drawing: &mut Drawing,
    stream: StreamId,
    place: usize,
    tuple: &Tuple,
    steps: &mut Steps<L>,
) -> Result<(), Memory>
    requires stored { IsStoredNetwork stored.now }
    requires draft { IsDraftOf stored.now.network.now drawing.old.draft }
    requires suits { TupleSuits stored.now.network.now (held stored.now.stores.now) stream tuple.now }
    ensures grows { OnOk result (Grows stored.now.network.now (moves_of stored.now.network.now (held stored.now.stores.now) stream tuple.now) drawing.old.draft drawing.new.draft) }
    ensures lists { OnOk result (Lists stored.now.network.now (held stored.now.stores.now) stream place tuple.now drawing.old.pairs drawing.new.pairs) }
    ensures agenda { drawing.new.agenda.entries ≡ drawing.old.agenda.entries }
    ensures ticks { steps.new ≤ steps.old + tuple_work stored.now.network.now (held stored.now.stores.now) stream tuple.now }
{
    stored
        .readers
        .find_targets(stream, tuple, &mut drawing.found)?;
    go_all(
        stored.network,
        &mut drawing.draft,
        drawing.found.targets.as_slice(),
        tuple,
        steps,
    )?;
    stored
        .readers
        .find_waits(stream, tuple, &mut drawing.found)?;
    stored
        .keys
        .find(stored.network, stream, tuple, &mut drawing.found)?;
    meet_waits(stored, drawing, stream, place, tuple, steps)
}

/// Makes what comes of the tuples of a stream, and lists them with the waiting states. After want of memory
/// the drawing is of no more use.
pub(crate) fn meet_stream<L: Ledger>(
    stored: &StoredNetwork<'_>,
    drawing: &mut Drawing,
    stream: StreamId,
    tuples: &[Tuple],
    steps: &mut Steps<L>,
) -> Result<(), Memory>
    requires stored { IsStoredNetwork stored.now }
    requires draft { IsDraftOf stored.now.network.now drawing.old.draft }
    requires suits { All (TupleSuits stored.now.network.now (held stored.now.stores.now) stream) tuples.now }
    ensures grows { OnOk result (Grows stored.now.network.now (moves_of_all stored.now.network.now (held stored.now.stores.now) stream tuples.now) drawing.old.draft drawing.new.draft) }
    ensures lists { OnOk result (ListsAll stored.now.network.now (held stored.now.stores.now) stream tuples.now drawing.old.pairs drawing.new.pairs) }
    ensures agenda { drawing.new.agenda.entries ≡ drawing.old.agenda.entries }
    ensures ticks { steps.new ≤ steps.old + stream_work stored.now.network.now (held stored.now.stores.now) stream tuples.now }
{
    for (place, tuple) in tuples.iter().enumerate() {
        meet_tuple(stored, drawing, stream, place, tuple, steps)?;
    }
    Ok(())
}
