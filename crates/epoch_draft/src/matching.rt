//! What a tuple makes of the instances that wait at a state.
ghost use Rattle.std.specs.Prelude.{◌≡◌, ◌+◌, ◌<◌, ◌≤◌, IfOk, IsTrue, OnOk, Some, length, option_to_list, sum_by};
ghost use Rattle.std.specs.List.{All};
ghost use Rattle.instances.specs.Keys.{key_matches, key_of_places};
ghost use Rattle.automaton.specs.Networks.{IsNetwork};
ghost use Rattle.automaton.specs.States.{is_used};
ghost use Rattle.epoch_draft.specs.Drafts.{Grows, IsDraftOf};
ghost use Rattle.epoch_draft.specs.Held.{held};
ghost use Rattle.epoch_draft.specs.StoredNetworks.{IsWaitingState};
ghost use Rattle.epoch_draft.specs.Meeting.{met_at};
ghost use Rattle.epoch_draft.specs.Moves.{moves_from};
ghost use Rattle.epoch_draft.specs.Pairs.{followed, met, paired, paired_with};
ghost use Rattle.epoch_draft.specs.Stores.{HasStores};
ghost use Rattle.epoch_draft.specs.Suits.{LeavingSuits, MeetingSuits, TurnSuits, WaitSuits};
ghost use Rattle.epoch_draft.specs.Work.{binding_work, pair_work, state_work, turn_work};

use crate::draft::Draft;
use crate::going::leave;
use crate::stores::Stores;
use crate::waiting_state::WaitingState;
use automaton::{Network, Turn, Wait};
use event_types::{Memory, Tuple};
use inst_chain::Look;
use instances::{Instance, Waiting, can_follow_found};
use scalar_expr::{KeyPlaces, holds};
use steps::{Ledger, Steps};

// What the tuple makes of the binding, which it found by a key, if there is one, if it is eligible.
fn pair_up<L: Ledger>(
    draft: &mut Draft,
    wait: &Wait,
    key: Option<KeyPlaces>,
    binding: &Tuple,
    tuple: &Tuple,
    steps: &mut Steps<L>,
) -> Result<Option<Tuple>, Memory>
    requires suits { WaitSuits wait.now binding.now tuple.now }
    requires found { IsTrue (key_matches (key_of_places key) tuple.now binding.now) }
    ensures value { IfOk result (λ made. option_to_list made ≡ paired wait.now binding.now tuple.now) }
    ensures same { draft.new ≡ draft.old }
    ensures ticks { steps.new ≤ steps.old + pair_work wait.now }
{
    if can_follow_found(&wait.choose, key, binding, tuple, steps) {
        follow(draft, &wait.fold, binding, tuple, steps)
    } else {
        Ok(None)
    }
}

// What the tuple, which is eligible, makes of the binding.
fn follow<L: Ledger>(
    draft: &mut Draft,
    fold: &Option<Turn>,
    binding: &Tuple,
    tuple: &Tuple,
    steps: &mut Steps<L>,
) -> Result<Option<Tuple>, Memory>
    requires later { binding.now.at < tuple.now.from }
    requires suited { TurnSuits fold.now binding.now tuple.now }
    ensures value { IfOk result (λ made. option_to_list made ≡ followed fold.now binding.now tuple.now) }
    ensures same { draft.new ≡ draft.old }
    ensures ticks { steps.new ≤ steps.old + turn_work fold.now }
{
    match fold {
        None => Ok(Some(draft.made.join(binding, tuple)?)),
        Some(turn) => {
            if holds(&turn.on, tuple, Some(binding), steps) {
                Ok(Some(draft.made.rebind(&turn.set, binding, tuple)?))
            } else {
                Ok(None)
            }
        }
    }
}

// What the tuple makes of an instance, which it found by a key, if there is one, leaves the state where it waits.
fn meet_instance<L: Ledger>(
    waiting: &WaitingState<'_>,
    draft: &mut Draft,
    key: Option<KeyPlaces>,
    instance: &Instance,
    tuple: &Tuple,
    steps: &mut Steps<L>,
) -> Result<(), Memory>
    requires waiting { IsWaitingState waiting.now }
    requires draft { IsDraftOf waiting.now.network.now draft.old }
    requires suits { WaitSuits waiting.now.wait.now instance.now.tuple tuple.now }
    requires found { IsTrue (key_matches (key_of_places key) tuple.now instance.now.tuple) }
    requires leaving { All (λ made. LeavingSuits waiting.now.network.now waiting.now.state made.tuple) (paired_with waiting.now.wait.now tuple.now instance.now) }
    ensures grows { OnOk result (Grows waiting.now.network.now (moves_from waiting.now.network.now waiting.now.state (paired_with waiting.now.wait.now tuple.now instance.now)) draft.old draft.new) }
    ensures ticks { steps.new ≤ steps.old + binding_work waiting.now.network.now waiting.now.state waiting.now.wait.now tuple.now instance.now }
{
    match pair_up(draft, waiting.wait, key, &instance.tuple, tuple, steps)? {
        Some(made) => {
            let left = Instance {
                tuple: made,
                first: instance.first,
            };
            leave(waiting, draft, left, steps)
        }
        None => Ok(()),
    }
}

// The same of all instances that the reader gives.
fn meet_instances<L: Ledger>(
    waiting: &WaitingState<'_>,
    draft: &mut Draft,
    key: Option<KeyPlaces>,
    mut instances: Look<'_, Instance>,
    tuple: &Tuple,
    steps: &mut Steps<L>,
) -> Result<(), Memory>
    requires waiting { IsWaitingState waiting.now }
    requires draft { IsDraftOf waiting.now.network.now draft.old }
    requires suits { All (λ instance. WaitSuits waiting.now.wait.now instance.tuple tuple.now) instances }
    requires found { All (λ instance. IsTrue (key_matches (key_of_places key) tuple.now instance.tuple)) instances }
    requires leaving { All (λ made. LeavingSuits waiting.now.network.now waiting.now.state made.tuple) (met waiting.now.wait.now instances tuple.now) }
    ensures grows { OnOk result (Grows waiting.now.network.now (moves_from waiting.now.network.now waiting.now.state (met waiting.now.wait.now instances.entry tuple.now)) draft.old draft.new) }
    ensures ticks { steps.new ≤ steps.old + sum_by (binding_work waiting.now.network.now waiting.now.state waiting.now.wait.now tuple.now) instances.entry }
{
    while let Some(instance) = instances.next() {
        meet_instance(waiting, draft, key, instance, tuple, steps)?;
    }
    Ok(())
}

/// What the tuple makes of the instances at a state leaves it. Those of its key alone are looked at. After want
/// of memory the draft is of no more use.
pub(crate) fn meet_wait<L: Ledger>(
    network: &Network,
    stores: &Stores,
    draft: &mut Draft,
    state: usize,
    tuple: &Tuple,
    steps: &mut Steps<L>,
) -> Result<(), Memory>
    requires network { IsNetwork network.now }
    requires used { IsTrue (is_used network.now state) }
    requires stores { HasStores network.now stores.now }
    requires draft { IsDraftOf network.now draft.old }
    requires suits { MeetingSuits network.now (held stores.now) tuple.now state }
    ensures grows { OnOk result (Grows network.now (moves_from network.now state (met_at network.now (held stores.now) tuple.now state)) draft.old draft.new) }
    ensures ticks { steps.new ≤ steps.old + state_work network.now (held stores.now) tuple.now state }
{
    let Some(wait) = network.wait(state) else {
        return Ok(());
    };
    let waiting = WaitingState {
        network,
        state,
        wait,
    };
    match stores.get(state) {
        Some(store) => {
            let key = store.key_places();
            meet_instances(&waiting, draft, key, store.candidates(tuple), tuple, steps)
        }
        None => Ok(()),
    }
}
