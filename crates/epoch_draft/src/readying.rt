//! Room in the stores for what an epoch brings.
ghost use Rattle.std.specs.Prelude.{◌≡◌, ◌<◌, [], ◌∷◌, ℕ, Contains, IfSome, None, OnOk, length, slice_index_or};
ghost use Rattle.std.specs.List.{All};
ghost use Rattle.std.specs.Option.{option_copied};
ghost use Rattle.instances.specs.Keys.{BindingFits, IsKeyReady};
ghost use Rattle.binding_index.specs.Among.{is_among};
ghost use Rattle.binding_index.specs.Leads.{ready_in};
ghost use Rattle.binding_index.specs.Stores.{condition_of, instances_of, key_of, ready_of};
ghost use Rattle.stream_readers.specs.KeyTables.{LeadOn};
ghost use Rattle.epoch_draft.specs.Drafts.{DraftFits};
ghost use Rattle.epoch_draft.specs.Held.{SameStored, instances_in, key_in, shape_of};
ghost use Rattle.epoch_draft.specs.Led.{AreLed, HasKeyOf, LeadBy};
ghost use Rattle.epoch_draft.specs.Readying.{HasReadyAt, HasRoom, HaveKeyIn, HaveKeys, HaveRoom, HaveRoomIn};
ghost use Rattle.epoch_draft.specs.Stores.{HasStores};

use crate::draft::{Beads, Draft};
use crate::stores::Stores;
use automaton::Network;
use binding_index::Store;
use event_types::{Memory, Value};
use inst_chain::{Chain, Look};
use instances::{Instance, Waiting};
use stream_readers::{KeyReaders, lead_key};

/// Makes room in the stores for the beads of an epoch that was drawn, lets their keys lead to their states, and
/// changes no instance. After want of memory there may be room for some that don't come.
pub fn make_room(
    network: &Network,
    keys: &mut KeyReaders,
    stores: &mut Stores,
    draft: &Draft,
) -> Result<(), Memory>
    requires stores { HasStores network.now stores.old }
    requires fits { DraftFits (length draft.now.made) (length stores.old) draft.now }
    requires keys { HaveKeys stores.old draft.now.beads }
    requires led { AreLed network.now keys.old stores.old }
    ensures room { OnOk result (HaveRoom stores.new draft.now.beads) }
    ensures same { SameStored stores.old stores.new }
    ensures led { AreLed network.now keys.new stores.new }
{
    make_room_at(
        network,
        keys,
        stores,
        &draft.beads,
        draft.reached.numbers.as_slice(),
    )
}

// Makes room for the beads of these states.
fn make_room_at(
    network: &Network,
    keys: &mut KeyReaders,
    stores: &mut Stores,
    beads: &Beads,
    numbers: &[usize],
) -> Result<(), Memory>
    requires stores { HasStores network.now stores.old }
    requires within { All (λ number. number < length stores.old) numbers.now }
    requires beads { All (λ number. number < length beads.now) numbers.now }
    requires keys { HaveKeys stores.old beads.now }
    requires led { AreLed network.now keys.old stores.old }
    ensures room { OnOk result ((number : ℕ) → Contains numbers.now number → HaveRoomIn (slice_index_or stores.new number None) (slice_index_or beads.now number [])) }
    ensures same { SameStored stores.old stores.new }
    ensures led { AreLed network.now keys.new stores.new }
{
    for number in numbers {
        make_room_in(
            keys,
            network,
            *number,
            stores.get_mut(*number),
            beads.get(*number),
        )?;
    }
    Ok(())
}

// Makes room for beads in the store of a state, if it has one.
fn make_room_in(
    keys: &mut KeyReaders,
    network: &Network,
    number: usize,
    slot: &mut Option<Store>,
    beads: &Chain<Instance>,
) -> Result<(), Memory>
    requires within { number < length network.now }
    requires fits { HaveKeyIn slot.old beads.now }
    requires key { HasKeyOf network.now number (key_in slot.old) }
    requires led { LeadBy network.now keys.old number (ready_in slot.old) }
    ensures room { OnOk result (HaveRoomIn slot.new beads.now) }
    ensures led { LeadBy network.now keys.new number (ready_in slot.new) }
    ensures leads { LeadOn keys.old keys.new }
    ensures more { All (Contains (ready_in slot.new)) (ready_in slot.old) }
    ensures shape { shape_of slot.new ≡ shape_of slot.old }
    ensures instances { instances_in slot.new ≡ instances_in slot.old }
{
    match slot {
        Some(store) => make_room_for(keys, network, number, store, beads.look()),
        None => Ok(()),
    }
}

// Makes room for these instances in the store.
fn make_room_for(
    keys: &mut KeyReaders,
    network: &Network,
    number: usize,
    store: &mut Store,
    mut instances: Look<'_, Instance>,
) -> Result<(), Memory>
    requires within { number < length network.now }
    requires fits { All (λ instance. BindingFits (key_of store.old) instance.tuple) instances }
    requires key { HasKeyOf network.now number (key_of store.old) }
    requires led { LeadBy network.now keys.old number (ready_of store.old) }
    ensures room { OnOk result (All (HasRoom (key_of store.new) (ready_of store.new)) instances.entry) }
    ensures led { LeadBy network.now keys.new number (ready_of store.new) }
    ensures leads { LeadOn keys.old keys.new }
    ensures more { All (Contains (ready_of store.new)) (ready_of store.old) }
    ensures condition { condition_of store.new ≡ condition_of store.old }
    ensures key { key_of store.new ≡ key_of store.old }
    ensures same { instances_of store.new ≡ instances_of store.old }
{
    let mut last = None;
    while let Some(instance) = instances.next() {
        make_room_of(keys, network, number, store, last, instance)?;
        last = Some(instance);
    }
    Ok(())
}

// Makes room for an instance in the store, and lets its key lead to the state, unless the key is ready there. For the
// last instance, if there is one, there is room.
fn make_room_of(
    keys: &mut KeyReaders,
    network: &Network,
    number: usize,
    store: &mut Store,
    last: Option<&Instance>,
    instance: &Instance,
) -> Result<(), Memory>
    requires within { number < length network.now }
    requires fits { BindingFits (key_of store.old) instance.now.tuple }
    requires last { IfSome (option_copied last) (HasRoom (key_of store.old) (ready_of store.old)) }
    requires key { HasKeyOf network.now number (key_of store.old) }
    requires led { LeadBy network.now keys.old number (ready_of store.old) }
    ensures room { OnOk result (IsKeyReady (key_of store.old) (ready_of store.new) instance.now.tuple) }
    ensures led { LeadBy network.now keys.new number (ready_of store.new) }
    ensures leads { LeadOn keys.old keys.new }
    ensures more { All (Contains (ready_of store.new)) (ready_of store.old) }
    ensures condition { condition_of store.new ≡ condition_of store.old }
    ensures key { key_of store.new ≡ key_of store.old }
    ensures same { instances_of store.new ≡ instances_of store.old }
{
    let Some(places) = store.key_places() else {
        return store.ready(instance);
    };
    let key = instance.tuple.vals().get(places.binding);
    if is_ready(store, last, places.binding, key) {
        return Ok(());
    }
    note_key(keys, network, number, key)?;
    store.ready(instance)
}

// Lets a key lead to a state, if the state is found by one.
#[inline(never)]
fn note_key(
    keys: &mut KeyReaders,
    network: &Network,
    number: usize,
    key: &Value,
) -> Result<(), Memory>
    requires { number < length network.now }
    ensures led { OnOk result (LeadBy network.now keys.new number (key.now ∷ [])) }
    ensures leads { LeadOn keys.old keys.new }
{
    if !network.used(number) {
        return Ok(());
    }
    let Some(wait) = network.wait(number) else {
        return Ok(());
    };
    let Some(found) = lead_key(&wait.choose) else {
        return Ok(());
    };
    keys.note(wait.stream, found.event, key, number)
}

// Whether a key is ready in the store: where the last instance has it, it is known to be.
fn is_ready(store: &Store, last: Option<&Instance>, place: usize, key: &Value) -> bool
    requires { IfSome (option_copied last) (HasReadyAt place (ready_of store.now)) }
    ensures { result ≡ is_among key.now (ready_of store.now) }
{
    match last {
        Some(last) => last.tuple.vals().get(place) == key || store.is_ready(key),
        None => store.is_ready(key),
    }
}
