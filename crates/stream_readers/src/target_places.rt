//! Where the targets of a stream stand.
ghost use Rattle.std.specs.Prelude.{◌≡◌, ◌≢◌, ℕ, IfNone, IfOk, IfSome, None, OnOk, Some, false, true};
ghost use Rattle.std.specs.HashMap.{get};
ghost use Rattle.std.specs.List.{flat_map};
ghost use Rattle.stream_readers.specs.Filing.{AreAtPlaces, Slots, filed_in, slot_at};
ghost use Rattle.stream_readers.specs.Leaving.{left_by, moved_in};
ghost use Rattle.stream_readers.specs.Naming.{gone_name as gone_name_of, is_same, last_name as last_name_of};
ghost use Rattle.stream_readers.specs.Places.{ComesTo, HavePlaces, MayHavePlaces, StandsAt, StandsOnlyAt, TellsOf};

use crate::leaving::Gone;
use crate::naming::{Name, gone_name, last_name, name_of};
use crate::slots::{Slots, move_slot, note_freed, take_away};
use crate::target::Target;
use event_types::{Memory, Numbers};
use static_index::StaticIndex;
use std::collections::HashMap;

/// By the name of a target, the place at which it stands.
pub(crate) type TargetPlaces = HashMap<Name, usize>;

/// The places of targets where one is to come to a free place; none any more where one of its name stands at one
/// already.
pub(crate) fn with_target(
    places: Option<TargetPlaces>,
    slots: &Slots,
    target: Target,
    place: usize,
) -> Result<Option<TargetPlaces>, Memory>
    requires table { MayHavePlaces places slots.now }
    ensures kept { IfOk result (λ came. MayHavePlaces came slots.now) }
    ensures came { IfOk result (λ came. (new : Slots) → ComesTo place target slots.now new → MayHavePlaces came new) }
{
    match places {
        Some(table) => with_place(table, slots, target, place),
        None => Ok(None),
    }
}

// The places of targets where one is to come to a free place, unless one of its name stands at one already.
fn with_place(
    table: TargetPlaces,
    slots: &Slots,
    target: Target,
    place: usize,
) -> Result<Option<TargetPlaces>, Memory>
    requires table { HavePlaces table slots.now }
    ensures kept { IfOk result (λ came. MayHavePlaces came slots.now) }
    ensures came { IfOk result (λ came. (new : Slots) → ComesTo place target slots.now new → MayHavePlaces came new) }
{
    let mut table = table;
    let name = name_of(target);
    let None = standing(&table, slots, name) else {
        return Ok(None);
    };
    note(&mut table, name, place)?;
    Ok(Some(table))
}

/// A target leaves, with its condition, and its place is noted.
pub(crate) fn part(
    places: &mut Option<TargetPlaces>,
    slots: &mut Slots,
    conditions: &mut StaticIndex,
    freed: &mut Numbers,
    gone: Gone,
)
    requires places { AreAtPlaces slots.old conditions.old }
    requires table { MayHavePlaces places.old slots.old }
    ensures places { AreAtPlaces slots.new conditions.new }
    ensures left { filed_in slots.new conditions.new ≡ flat_map (left_by gone) (filed_in slots.old conditions.old) }
    ensures table { MayHavePlaces places.new slots.new }
{
    let Some(mut table) = places.take() else {
        return take_away(slots, conditions, freed, gone);
    };
    let Some(place) = standing(&table, slots, gone_name(gone)) else {
        return take_away(slots, conditions, freed, gone);
    };
    let Some(last) = standing(&table, slots, last_name(gone)) else {
        return take_away(slots, conditions, freed, gone);
    };
    free(slots, conditions, gone, place, last);
    note_freed(freed, place);
    renote(&mut table, gone_name(gone), last);
    forget(&mut table, last_name(gone));
    *places = Some(table);
}

// Frees the place of a target that leaves, with its condition. The last end of its state stands at the other place.
fn free(slots: &mut Slots, conditions: &mut StaticIndex, gone: Gone, place: usize, last: usize)
    requires places { AreAtPlaces slots.old conditions.old }
    requires here { StandsOnlyAt slots.old (gone_name_of gone) place }
    requires last { StandsOnlyAt slots.old (last_name_of gone) last }
    ensures places { AreAtPlaces slots.new conditions.new }
    ensures left { filed_in slots.new conditions.new ≡ flat_map (left_by gone) (filed_in slots.old conditions.old) }
    ensures each { (other : ℕ) → slot_at slots.new other ≡ moved_in gone (slot_at slots.old other) }
{
    conditions.remove(place);
    move_slot(slots, place, gone);
    move_slot(slots, last, gone);
}

// The place at which the target of a name stands, if it stands at one.
fn standing(table: &TargetPlaces, slots: &Slots, name: Name) -> Option<usize>
    requires { HavePlaces table.now slots.now }
    ensures here { IfSome result (StandsOnlyAt slots.now name) }
    ensures absent { IfNone result ((place : ℕ) → StandsAt slots.now name place → ⊥) }
{
    match table.get(&name) {
        Some(place) if stands(slots, name, *place) => Some(*place),
        _ => None,
    }
}

// Whether the target of a name stands at a place.
fn stands(slots: &Slots, name: Name, place: usize) -> bool
    ensures yes { result ≡ true → StandsAt slots.now name place }
    ensures no { result ≡ false → StandsAt slots.now name place → ⊥ }
{
    if place >= slots.len() {
        return false;
    }
    match slots.get(place) {
        Some(target) => name_of(*target) == name,
        None => false,
    }
}

// Notes the place of a target.
fn note(table: &mut TargetPlaces, name: Name, place: usize) -> Result<(), Memory>
    ensures { OnOk result (TellsOf name (Some place) table.old table.new) }
{
    table.insert(name, place)?;
    Ok(())
}

// Notes another place for a name that is noted. Takes no memory.
fn renote(table: &mut TargetPlaces, name: Name, place: usize)
    requires { get is_same table.old name ≢ None }
    ensures { TellsOf name (Some place) table.old table.new }
{
    if let Some(noted) = table.get_mut(&name) {
        *noted = place;
    }
}

// Forgets the place of a target.
fn forget(table: &mut TargetPlaces, name: Name)
    ensures { TellsOf name None table.old table.new }
{
    table.remove(&name);
}
