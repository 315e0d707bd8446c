//! Stores that are made to fit a network.
ghost use Rattle.std.specs.Prelude.{◌≡◌, ◌≢◌, ◌<◌, ◌≤◌, ℕ, None, if◌then◌else◌, is_some, All, IfOk, OnErr, OnOk, length, slice_index_or};
ghost use Rattle.automaton.specs.States.{wait_at};
ghost use Rattle.epoch_engine.specs.Fitting.{AreGrown, AreLeft, HaveNoStoresBut, HaveStoresBut, IsEmptyFor, IsGrownSlot, IsPadded, KeepStores};

use automaton::Network;
use binding_index::Store;
use epoch_draft::Stores;
use event_types::Memory;
use instances::Waiting;
use std::alloc::Global;

// Gives an empty store to each waiting state of these numbers that has none; the others have theirs.
pub(crate) fn add_stores(
    alloc: Global,
    network: &Network,
    stores: &mut Stores,
    came: &[usize],
) -> Result<(), Memory>
    requires shorter { length stores.old ≤ length network.now }
    requires below { All (λ state. state < length network.now) came.now }
    requires came { HaveStoresBut network.now came.now stores.old }
    ensures grown { OnOk result (AreGrown network.now stores.old stores.new) }
    ensures kept { OnErr result (KeepStores network.now stores.old stores.new) }
{
    lengthen(stores, network.places())?;
    for number in came {
        add_store(alloc, network, stores, *number)?;
    }
    Ok(())
}

// Puts places without a store at the end until there are so many.
fn lengthen(stores: &mut Stores, places: usize) -> Result<(), Memory>
    requires { length stores.old ≤ places }
    ensures padded { IsPadded places stores.old stores.new }
    ensures long { OnOk result (length stores.new ≡ places) }
{
    while stores.len() < places {
        stores.add(None)?;
    }
    Ok(())
}

// Gives an empty store to a waiting state that has none.
fn add_store(
    alloc: Global,
    network: &Network,
    stores: &mut Stores,
    number: usize,
) -> Result<(), Memory>
    requires state { number < length network.now }
    requires place { number < length stores.old }
    ensures grown { OnOk result (IsGrownSlot (wait_at network.now number) (slice_index_or stores.old number None) (slice_index_or stores.new number None)) }
    ensures others { (other : ℕ) → other ≢ number → slice_index_or stores.new other None ≡ slice_index_or stores.old other None }
    ensures as_many { length stores.new ≡ length stores.old }
    ensures kept { OnErr result (stores.new ≡ stores.old) }
{
    if stores.get(number).is_some() {
        return Ok(());
    }
    let slot = empty_store(alloc, network, number)?;
    *stores.get_mut(number) = slot;
    Ok(())
}

// An empty store for the state with a number, if it is a waiting state.
fn empty_store(alloc: Global, network: &Network, number: usize) -> Result<Option<Store>, Memory>
    requires { number < length network.now }
    ensures { IfOk result (IsEmptyFor (wait_at network.now number)) }
{
    if !network.used(number) {
        return Ok(None);
    }
    match network.wait(number) {
        Some(wait) => Ok(Some(Store::make(alloc, &wait.choose)?)),
        None => Ok(None),
    }
}

// Drops the stores where no state waits, and the places behind the network's. Takes no memory.
pub(crate) fn drop_stores(network: &Network, stores: &mut Stores)
    requires { length network.now ≤ length stores.old }
    ensures { AreLeft network.now stores.old stores.new }
{
    stores.truncate(network.places());
    for number in 0..network.places() {
        drop_store(network, stores, number);
    }
}

// Drops the stores of these numbers where no state waits, and the places behind the network's. Takes no memory.
pub(crate) fn drop_noted(network: &Network, stores: &mut Stores, noted: &[usize])
    requires longer { length network.now ≤ length stores.old }
    requires noted { HaveNoStoresBut network.now noted.now stores.old }
    ensures { AreLeft network.now stores.old stores.new }
{
    stores.truncate(network.places());
    for number in noted {
        if *number >= network.places() {
            continue;
        }
        drop_store(network, stores, *number);
    }
}

// Drops the store of a number, if no state waits there. Takes no memory.
fn drop_store(network: &Network, stores: &mut Stores, number: usize)
    requires state { number < length network.now }
    requires place { number < length stores.old }
    ensures left { slice_index_or stores.new number None ≡ (if is_some (wait_at network.now number) then slice_index_or stores.old number None else None) }
    ensures others { (other : ℕ) → other ≢ number → slice_index_or stores.new other None ≡ slice_index_or stores.old other None }
    ensures as_many { length stores.new ≡ length stores.old }
{
    if !is_waiting(network, number) {
        *stores.get_mut(number) = None;
    }
}

// Whether a state with a number waits.
fn is_waiting(network: &Network, number: usize) -> bool
    requires { number < length network.now }
    ensures { result ≡ is_some (wait_at network.now number) }
{
    network.used(number) && network.wait(number).is_some()
}

// How many bindings the stores of these numbers have that are found by a key, or 2^64-1 where there are more. Takes no
// memory.
pub(crate) fn count_keyed(stores: &Stores, numbers: &[usize]) -> u64 {
    let mut count: u64 = 0;
    for number in numbers {
        if let Some(Some(store)) = stores.as_slice().get(*number) {
            count = count.saturating_add(keyed_in(store));
        }
    }
    count
}

// How many bindings a store has, if they are found by a key.
fn keyed_in(store: &Store) -> u64 {
    match store.key_places() {
        Some(_) => store.count(),
        None => 0,
    }
}
