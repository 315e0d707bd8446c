//! The purge of stores.
ghost use Rattle.std.specs.Prelude.{◌≡◌, ◌+◌, ◌<◌, IsTrue, is_some, length, map};
ghost use Rattle.std.specs.List.{All};
ghost use Rattle.automaton.specs.States.{is_used, wait_at};
ghost use Rattle.epoch_draft.specs.Held.{instances_in, shape_of};
ghost use Rattle.epoch_draft.specs.Led.{StaysReady};
ghost use Rattle.epoch_draft.specs.Purging.{AreAllPurged, AreUsedIn, ForgetUnusedIn, IsPurgedAt, left_in};
ghost use Rattle.epoch_draft.specs.Watching.{IsWatched};

use crate::behind::least_birth;
use crate::draft::Pair;
use crate::stores::Stores;
use automaton::Network;
use binding_index::Store;
use deadlines::NEVER;
use instances::Waiting;

/// Takes out of the store of each waiting state the instances that no event after this time can match, as
/// the bounds on DUR tell, and those that began too early for each end that uses the state. Forgets the keys
/// that no instance has. Takes no memory.
pub fn purge_all(network: &Network, stores: &mut Stores, time: u64)
    requires { length stores.old ≡ length network.now }
    ensures { AreAllPurged network.now (time + 1) stores.old stores.new }
{
    for number in 0..network.places() {
        purge_at(network, number, stores, time);
    }
}

// Purges the store of the state with a number, if it is a waiting state.
fn purge_at(network: &Network, number: usize, stores: &mut Stores, time: u64)
    requires number { number < length network.now }
    requires stores { length stores.old ≡ length network.now }
    ensures { IsPurgedAt network.now (time + 1) number stores.old stores.new }
{
    if is_waiting(network, number) {
        let since = least_birth(network, number);
        purge(stores.get_mut(number), time, since);
    }
}

/// Forgets the keys that no instance has in the stores of the states that these pairs name. Takes no memory.
pub(crate) fn forget_paired(stores: &mut Stores, pairs: &[Pair])
    requires { All (λ pair. pair.state < length stores.old) pairs.now }
    ensures { ForgetUnusedIn (map (λ pair. pair.state) pairs.now) stores.old stores.new }
{
    for pair in pairs {
        forget_unused(stores.get_mut(pair.state));
    }
}

// The same in the store of a state, if it has one.
fn forget_unused(slot: &mut Option<Store>)
    ensures same { instances_in slot.new ≡ instances_in slot.old }
    ensures used { AreUsedIn slot.new }
    ensures stays { StaysReady slot.old slot.new }
    ensures shape { shape_of slot.new ≡ shape_of slot.old }
{
    match slot {
        Some(store) => store.forget_unused(),
        None => {}
    }
}

// Whether the state with a number is a waiting state.
fn is_waiting(network: &Network, number: usize) -> bool
    requires { number < length network.now }
    ensures waits { result ≡ is_some (wait_at network.now number) }
    ensures used { IsTrue result → IsTrue (is_used network.now number) }
{
    network.used(number) && network.wait(number).is_some()
}

// Purges the store of a state, if it has one, also for a birth, where one is given; gives a deadline of what is
// left, which is later than the next time.
pub(crate) fn purge(slot: &mut Option<Store>, time: u64, since: Option<u64>) -> u128
    ensures purged { instances_in slot.new ≡ left_in (time + 1) since slot.old }
    ensures used { AreUsedIn slot.new }
    ensures stays { StaysReady slot.old slot.new }
    ensures shape { shape_of slot.new ≡ shape_of slot.old }
    ensures watched { IsWatched result slot.new }
    ensures later { time + 1 < result }
{
    match slot {
        Some(store) => store.purge(time, since),
        None => NEVER,
    }
}
