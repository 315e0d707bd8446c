//! Places for targets, of which some are free.
ghost use Rattle.std.specs.Prelude.{◌≡◌, ◌≢◌, ◌<◌, ◌≤◌, ◌&&◌, ℕ, IsTrue, None, OnErr, OnOk, Some, is_some, length, not};
ghost use Rattle.std.specs.List.{All, flat_map};
ghost use Rattle.stream_readers.specs.Filing.{AreAtPlaces, at_places, filed_in, slot_at};
ghost use Rattle.stream_readers.specs.Leaving.{left_by, moved_in};

use crate::leaving::{Gone, moved};
use crate::target::{Target, Targets};
use event_types::{List, Memory, Numbers};
use static_index::StaticIndex;

/// Targets by their places, and nothing where a place is free.
pub(crate) type Slots = List<Option<Target>>;

/// Puts the targets at these places into a list that is used anew.
pub(crate) fn gather(slots: &Slots, places: &[usize], found: &mut Targets) -> Result<(), Memory>
    requires { All (λ place. place < length slots.now) places.now }
    ensures { OnOk result (found.new ≡ at_places slots.now places.now) }
{
    found.clear();
    for place in places {
        if let Some(target) = slots.get(*place) {
            found.add(*target)?;
        }
    }
    Ok(())
}

/// A free place: the last of those that came to be free, if it is free still, or the one behind all others.
pub(crate) fn free_place(slots: &Slots, freed: &Numbers) -> usize
    ensures free { slot_at slots.now result ≡ None }
    ensures within { result ≤ length slots.now }
{
    match freed.as_slice().last() {
        Some(place) if is_free(slots, *place) => *place,
        _ => slots.len(),
    }
}

// Whether one of the places is free.
fn is_free(slots: &Slots, place: usize) -> bool
    ensures free { IsTrue result → slot_at slots.now place ≡ None }
    ensures within { IsTrue result → place < length slots.now }
{
    place < slots.len() && slots.get(place).is_none()
}

/// Notes a place that came to be free. Where memory is wanting for that, it is not used again.
pub(crate) fn note_freed(freed: &mut Numbers, place: usize) {
    let _ = freed.add(place);
}

/// Puts a target at a place.
pub(crate) fn put_slot(slots: &mut Slots, place: usize, target: Target) -> Result<(), Memory>
    requires { place ≤ length slots.old }
    ensures here { OnOk result (slot_at slots.new place ≡ Some target) }
    ensures others { OnOk result ((other : ℕ) → other ≢ place → slot_at slots.new other ≡ slot_at slots.old other) }
    ensures kept { OnErr result (slots.new ≡ slots.old) }
{
    if place < slots.len() {
        *slots.get_mut(place) = Some(target);
        Ok(())
    } else {
        slots.add(Some(target))
    }
}

/// A place is free again.
pub(crate) fn clear_slot(slots: &mut Slots, place: usize)
    ensures here { slot_at slots.new place ≡ None }
    ensures others { (other : ℕ) → other ≢ place → slot_at slots.new other ≡ slot_at slots.old other }
    ensures as_many { length slots.new ≡ length slots.old }
{
    if place < slots.len() {
        *slots.get_mut(place) = None;
    }
}

/// What stands at a place once a target has left.
pub(crate) fn move_slot(slots: &mut Slots, place: usize, gone: Gone)
    ensures here { slot_at slots.new place ≡ moved_in gone (slot_at slots.old place) }
    ensures others { (other : ℕ) → other ≢ place → slot_at slots.new other ≡ slot_at slots.old other }
    ensures as_many { length slots.new ≡ length slots.old }
{
    if place < slots.len() {
        leaves(slots.get_mut(place), gone);
    }
}

/// A target leaves, with its condition, wherever it stands, and its places are noted.
pub(crate) fn take_away(
    slots: &mut Slots,
    conditions: &mut StaticIndex,
    freed: &mut Numbers,
    gone: Gone,
)
    requires { AreAtPlaces slots.old conditions.old }
    ensures places { AreAtPlaces slots.new conditions.new }
    ensures left { filed_in slots.new conditions.new ≡ flat_map (left_by gone) (filed_in slots.old conditions.old) }
{
    for place in 0..slots.len() {
        if leaves(slots.get_mut(place), gone) {
            conditions.remove(place);
            note_freed(freed, place);
        }
    }
}

// A target leaves, where it stands at a place. Whether it does.
fn leaves(slot: &mut Option<Target>, gone: Gone) -> bool
    ensures slot { slot.new ≡ moved_in gone slot.old }
    ensures left { result ≡ (is_some slot.old && not (is_some slot.new)) }
{
    let Some(target) = *slot else {
        return false;
    };
    *slot = moved(gone, target);
    slot.is_none()
}
