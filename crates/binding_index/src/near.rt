//! Where keys were found last.
ghost use Rattle.std.specs.Prelude.{◌<◌, ◌≡◌, IfNone, IfSome, None, true};
ghost use Rattle.std.specs.Map.{lookup};
ghost use Rattle.binding_index.specs.Among.{is_key};
ghost use Rattle.binding_index.specs.Entries.{IsKeptAt};

use crate::entries::place_of;
use event_types::Value;
use indexmap::IndexMap;
use std::cell::Cell;

/// Places at which keys were found last, one for each of eight sorts of keys. They are hints: a place counts
/// only where the key itself stands there, so any number may be one.
#[derive(Drop)]
pub(crate) struct Near {
    places: [Cell<usize>; 8],
}

impl Near {
    /// No place is likelier than another.
    pub(crate) fn new() -> Near {
        Near {
            places: [
                Cell::new(0),
                Cell::new(0),
                Cell::new(0),
                Cell::new(0),
                Cell::new(0),
                Cell::new(0),
                Cell::new(0),
                Cell::new(0),
            ],
        }
    }

    // Where a key may stand.
    fn hint(&self, key: &Value) -> usize {
        self.places[sort_of(key)].get()
    }

    /// Keeps the place of a key instead of that of another of its sort.
    pub(crate) fn note(&self, key: &Value, place: usize) {
        self.places[sort_of(key)].set(place);
    }
}

// One of eight sorts of keys: by the last digits of a number, and by the last byte of a text.
fn sort_of(key: &Value) -> usize
    ensures { result < 8 }
{
    match key {
        Value::Int(number) => (number.unsigned_abs() % 8) as usize,
        Value::Text(text) => match text.as_str().as_bytes().last() {
            Some(byte) => (*byte % 8) as usize,
            None => 0,
        },
        _ => 0,
    }
}

/// The place of the entry of a key, which is looked for first where a key of its sort was found last. Takes no
/// memory.
#[inline(always)]
pub(crate) fn place_near<V>(near: &Near, kept: &IndexMap<Value, V>, key: &Value) -> Option<usize>
    ensures found { IfSome result (IsKeptAt kept.now.entries key.now) }
    ensures absent { IfNone result (lookup (is_key key.now) kept.now.entries ≡ None) }
{
    let hint = near.hint(key);
    if stands_at(kept, hint, key) {
        return Some(hint);
    }
    place_apart(near, kept, key)
}

// The same, where it isn't looked for there.
#[inline(never)]
fn place_apart<V>(near: &Near, kept: &IndexMap<Value, V>, key: &Value) -> Option<usize>
    ensures found { IfSome result (IsKeptAt kept.now.entries key.now) }
    ensures absent { IfNone result (lookup (is_key key.now) kept.now.entries ≡ None) }
{
    let place = place_of(kept, key)?;
    near.note(key, place);
    Some(place)
}

// Whether the entry at a place, if one stands there, is that of a key.
fn stands_at<V>(kept: &IndexMap<Value, V>, place: usize, key: &Value) -> bool
    ensures { result ≡ true → IsKeptAt kept.now.entries key.now place }
{
    match kept.get_index(place) {
        Some((other, _)) => other == key,
        None => false,
    }
}
