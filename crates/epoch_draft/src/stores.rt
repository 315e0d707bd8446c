//! The stores of a network's waiting states.
ghost use Rattle.std.specs.Prelude.{◌≡◌, ◌-◌, ◌^◌, ◌<◌, [], IfOk, length, min, sum_by};
ghost use Rattle.std.specs.Option.{option_map};
ghost use Rattle.automaton.specs.States.{wait_at};
ghost use Rattle.binding_index.specs.Leads.{ready_in};
ghost use Rattle.epoch_draft.specs.Held.{instances_in, shape_for, shape_of};
ghost use Rattle.epoch_draft.specs.Stores.{AreNewStores};

use automaton::Network;
use binding_index::Store;
use event_types::{List, Memory};
use instances::Waiting;
use std::alloc::Global;

/// A store for each waiting state, by its number, which finds instances by the key of the state's condition,
/// where that has one.
pub type Stores = List<Option<Store>>;

/// An empty store for each waiting state.
pub fn empty_stores(alloc: Global, network: &Network) -> Result<Stores, Memory>
    ensures { IfOk result (λ stores. AreNewStores network.now stores) }
{
    let mut stores = List::new(alloc);
    for number in 0..network.places() {
        let slot = empty_store(alloc, network, number)?;
        stores.add(slot)?;
    }
    Ok(stores)
}

// An empty store for the state with a number, if it is a waiting state.
fn empty_store(alloc: Global, network: &Network, number: usize) -> Result<Option<Store>, Memory>
    requires { number < length network.now }
    ensures shape { IfOk result (λ slot. shape_of slot ≡ option_map (λ wait. shape_for wait.choose) (wait_at network.now number)) }
    ensures empty { IfOk result (λ slot. instances_in slot ≡ []) }
    ensures none_ready { IfOk result (λ slot. ready_in slot ≡ []) }
{
    if !network.used(number) {
        return Ok(None);
    }
    match network.wait(number) {
        Some(wait) => Ok(Some(Store::make(alloc, &wait.choose)?)),
        None => Ok(None),
    }
}

/// The number of the instances that are stored, or 2^64-1 where there are more. Takes no memory.
pub fn stored(stores: &Stores) -> u64
    ensures { result ≡ min (sum_by (λ slot. length (instances_in slot)) stores.now) (2 ^ 64 - 1) }
{
    let mut count: u64 = 0;
    for slot in stores.as_slice() {
        count = count.saturating_add(stored_in(slot));
    }
    count
}

// The number of the instances at a state, or 2^64-1 where there are more.
fn stored_in(slot: &Option<Store>) -> u64
    ensures { result ≡ min (length (instances_in slot.now)) (2 ^ 64 - 1) }
{
    match slot {
        Some(store) => store.count(),
        None => 0,
    }
}
