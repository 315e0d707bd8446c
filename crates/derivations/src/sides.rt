//! The tuples of a right side by key: where a condition asks that an attribute of the event equals one of the binding,
//! the nexts of a binding are looked for among the tuples that have its key.
ghost use Rattle.std.specs.Prelude.{◌≡◌, ◌<◌, ◌++◌, ◌∷◌, [], IfOk, IfSome, List, OnOk, length};
ghost use Rattle.std.specs.List.{All};
ghost use Rattle.std.specs.Option.{option_map};
ghost use Rattle.semantics.specs.Values.{value_at};
ghost use Rattle.derivations.specs.DerivedTuples.{DerivedTuple, derived_eligible};
ghost use Rattle.derivations.specs.Fitting.{FitsWith};
ghost use Rattle.derivations.specs.Parted.{AreParted, IsKeyOf, as_key, place_of};

use crate::deriv::Derived;
use crate::side::{Side, side_of};
use event_types::{Copied, List, Memory, Tuple, Value, ValueRef};
use indexmap::IndexSet;
use scalar_expr::{Conj, KeyPlaces, Part};
use std::alloc::Global;
use std::marker::Model;

/// Keys of bindings, each once.
pub(crate) type Keys = IndexSet<Value>;

/// The tuples of a right side in their order, and for each key of some bindings those that have it.
#[derive(Drop)]
pub(crate) struct Sides<'a> {
    whole: Side<'a>,
    // the place of the attribute that is the key of a tuple
    event: usize,
    keys: Keys,
    // by the place of a key, the tuples that have it
    sides: List<Side<'a>>,
}

impl<'a> Model for Sides<'a> {
    ghost use Rattle.std.specs.Prelude.{◌≡◌, List, length};
    ghost use Rattle.derivations.specs.Codes.{deriveds_code};
    ghost use Rattle.derivations.specs.DerivedTuples.{DerivedTuple};
    ghost use Rattle.derivations.specs.Parted.{AreParted};

    ghost Value = { List DerivedTuple };

    ghost coded = { deriveds_code };

    ghost view = { λ s. s.whole };

    ghost invariant = { λ s. (length s.sides ≡ length s.keys.keys) × AreParted s.event s.keys.keys s.sides s.whole };
}

// The tuples as a right side of a condition, with those that have the keys of the bindings.
pub(crate) fn sides_of<'a>(
    alloc: Global,
    condition: &Conj,
    bindings: &[Derived],
    found: &'a [Derived],
) -> Result<Sides<'a>, Memory>
    ensures { IfOk result (λ sides. sides ≡ found.now) }
{
    let whole = side_of(alloc, found)?;
    let (event, keys) = match first_key(condition) {
        Some(key) => (key.event, keys_of(alloc, bindings, key.binding)?),
        None => (0, IndexSet::new(alloc)),
    };
    let sides = parted(alloc, event, &keys, found)?;
    Ok(Sides {
        whole,
        event,
        keys,
        sides,
    })
}

impl<'a> Sides<'a> {
    // The number of tuples.
    pub(crate) fn len(&self) -> usize
        ensures { result ≡ length self.now }
    {
        self.whole.len()
    }

    // Tuples among which are all that are eligible for a binding: those that have its key, where there are such, or all.
    pub(crate) fn side_for(&self, condition: &Conj, binding: &Tuple) -> &Side<'a>
        requires { FitsWith condition.now self.now binding.now }
        ensures fits { FitsWith condition.now result.now binding.now }
        ensures eligible { derived_eligible condition.now binding.now result.now ≡ derived_eligible condition.now binding.now self.now }
    {
        let Some(key) = first_key(condition) else {
            return &self.whole;
        };
        if key.event != self.event {
            return &self.whole;
        }
        match key_place(&self.keys, binding, key.binding) {
            Some(place) => self.sides.get(place),
            None => &self.whole,
        }
    }
}

// The first key part of a condition.
fn first_key(condition: &Conj) -> Option<KeyPlaces>
    ensures { IfSome result (IsKeyOf condition.now) }
{
    for place in 0..condition.size() {
        if let Part::Key { event, binding } = condition.part(place) {
            return Some(KeyPlaces { event, binding });
        }
    }
    None
}

// The keys of the bindings. OVER is none.
fn keys_of(alloc: Global, bindings: &[Derived], place: usize) -> Result<Keys, Memory> {
    let mut keys = IndexSet::new(alloc);
    for binding in bindings {
        note_key(alloc, &mut keys, &binding.tuple, place)?;
    }
    Ok(keys)
}

// Notes the key of a binding, if it has one that isn't there.
fn note_key(alloc: Global, keys: &mut Keys, binding: &Tuple, place: usize) -> Result<(), Memory> {
    let Some(key) = key_at(binding, place) else {
        return Ok(());
    };
    if keys.contains(key) {
        return Ok(());
    }
    match keys.insert(key.copied(alloc)?) {
        Ok(_) => Ok(()),
        Err(_) => Err(Memory),
    }
}

// The value at a place of a tuple, other than OVER.
fn key_at(tuple: &Tuple, place: usize) -> Option<&Value>
    ensures { option_map (λ key. key.now) result ≡ as_key (value_at tuple.now place) }
{
    if place >= tuple.vals().len() {
        return None;
    }
    let value = tuple.vals().get(place);
    match value.look() {
        ValueRef::Over => None,
        _ => Some(value),
    }
}

// The place of a tuple's key among the keys. OVER is none.
fn key_place(keys: &Keys, tuple: &Tuple, place: usize) -> Option<usize>
    ensures value { result ≡ place_of keys.now.keys (value_at tuple.now place) }
    ensures within { IfSome result (λ place. place < length keys.now.keys) }
{
    keys.get_index_of(key_at(tuple, place)?)
}

// For each key the tuples that have it.
fn parted<'a>(
    alloc: Global,
    event: usize,
    keys: &Keys,
    found: &'a [Derived],
) -> Result<List<Side<'a>>, Memory>
    ensures as_many { IfOk result (λ sides. length sides ≡ length keys.now.keys) }
    ensures parted { IfOk result (λ sides. AreParted event keys.now.keys sides found.now) }
{
    let mut sides = empty_sides(alloc, keys.len())?;
    for one in found {
        put_by_key(&mut sides, event, keys, one)?;
    }
    Ok(sides)
}

// Puts a tuple behind those that have its key, if that is among the keys.
fn put_by_key<'a>(
    sides: &mut List<Side<'a>>,
    event: usize,
    keys: &Keys,
    one: &'a Derived,
) -> Result<(), Memory>
    requires { length sides.old ≡ length keys.now.keys }
    ensures as_many { OnOk result (length sides.new ≡ length keys.now.keys) }
    ensures parted { OnOk result ((found : List DerivedTuple) → AreParted event keys.now.keys sides.old found → AreParted event keys.now.keys sides.new (found ++ one.now ∷ [])) }
{
    match key_place(keys, &one.tuple, event) {
        Some(place) => sides.get_mut(place).add(one),
        None => Ok(()),
    }
}

// So many sides without a tuple.
fn empty_sides<'a>(alloc: Global, count: usize) -> Result<List<Side<'a>>, Memory>
    ensures as_many { IfOk result (λ sides. length sides ≡ count) }
    ensures empty { IfOk result (λ sides. All (λ side. side ≡ []) sides) }
{
    let mut sides = List::new(alloc);
    for _ in 0..count {
        sides.add(Side::new(alloc))?;
    }
    Ok(sides)
}
