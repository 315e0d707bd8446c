//! Projections.
ghost use Rattle.std.specs.Prelude.{◌≡◌, ◌≤◌, ◌↔◌, ◌++◌, ◌∷◌, [], map, IfOk, IsTrue, OnOk};
ghost use Rattle.std.specs.List.{All};
ghost use Rattle.std.specs.Option.{option_copied};
ghost use Rattle.semantics.specs.Values.{applied, val};
ghost use Rattle.scalar_expr.specs.Fits.{Fits, IsComputed};
ghost use Rattle.scalar_expr.specs.Views.{sc_of};

use crate::copying::copy_scalar;
use crate::scalar::{Scalar, Scalars};
use crate::valuation::{computed, number_of, value_in_place};
use crate::values::add_copy;
use event_types::{List, Memory, Tuple, Vals, Value};
use std::alloc::Global;
use std::marker::Model;

/// A projection: the width of the tuples that its scalars read, and one scalar for each value of the
/// result.
#[derive(Drop)]
pub struct Map {
    pub width: usize,
    pub parts: Scalars,
}

impl Model for Map {
    ghost use Rattle.std.specs.Prelude.{map};
    ghost use Rattle.semantics.specs.Codes.{projection_code};
    ghost use Rattle.semantics.specs.Scalars.{Projection};
    ghost use Rattle.scalar_expr.specs.Views.{sc_of};

    ghost Value = { Projection };

    ghost coded = { projection_code };

    ghost view = { λ m. record { width = m.width; parts = map sc_of m.parts } };
}

impl Map {
    // The scalars as they stand.
    pub(crate) fn scalars(&self) -> &[Scalar]
        ensures { map sc_of result.now ≡ self.now.parts }
    {
        self.parts.as_slice()
    }

    /// Whether both have the same width and scalars. Takes no memory.
    pub fn is_same(&self, other: &Map) -> bool
        ensures { IsTrue result ↔ (self.now ≡ other.now) }
    {
        self.width == other.width && self.scalars() == other.scalars()
    }

    /// An equal projection.
    pub fn copy(&self, alloc: Global) -> Result<Map, Memory>
        ensures { IfOk result (λ m. m ≡ self.now) }
    {
        let parts = copy_scalars(alloc, self.parts.as_slice())?;
        Ok(Map {
            width: self.width,
            parts,
        })
    }
}

// Equal scalars.
fn copy_scalars(alloc: Global, scalars: &[Scalar]) -> Result<Scalars, Memory>
    ensures { IfOk result (λ copies. map sc_of copies ≡ map sc_of scalars.now) }
{
    let mut copies = List::new(alloc);
    'scalars: for scalar in scalars {
        copies.add(copy_scalar(alloc, scalar)?)?;
    }
    Ok(copies)
}

/// The tuple of a projection's values over an event and a binding, with these times.
pub fn apply(
    alloc: Global,
    projection: &Map,
    event: &Tuple,
    binding: Option<&Tuple>,
    from: u64,
    at: u64,
) -> Result<Tuple, Memory>
    requires in_order { from ≤ at }
    requires fits { All (λ s. Fits s event.now (option_copied binding)) projection.now.parts }
    ensures { IfOk result (λ tuple. tuple ≡ applied projection.now.parts event.now (option_copied binding.entry) from at) }
{
    let room = List::with_room(alloc, projection.parts.len())?;
    let vals = evaluate(alloc, room, projection, event, binding)?;
    Ok(spanning(vals, from, at))
}

/// A projection's values over an event and a binding, in a list that is empty before.
pub fn evaluate(
    alloc: Global,
    room: Vals,
    projection: &Map,
    event: &Tuple,
    binding: Option<&Tuple>,
) -> Result<Vals, Memory>
    requires empty { room ≡ [] }
    requires fits { All (λ s. Fits s event.now (option_copied binding)) projection.now.parts }
    ensures { IfOk result (λ vals. vals ≡ map (λ s. val s event.now (option_copied binding.entry)) projection.now.parts) }
{
    let vals = values_of(alloc, room, projection.scalars(), event, binding)?;
    Ok(vals)
}

// The values of scalars, in a list that is empty before.
fn values_of(
    alloc: Global,
    room: Vals,
    scalars: &[Scalar],
    event: &Tuple,
    binding: Option<&Tuple>,
) -> Result<Vals, Memory>
    requires empty { room ≡ [] }
    requires fits { All (λ s. Fits (sc_of s) event.now (option_copied binding)) scalars.now }
    ensures { IfOk result (λ vals. vals ≡ map (λ s. val (sc_of s) event.now (option_copied binding.entry)) scalars.now) }
{
    let mut vals = room;
    'scalars: for scalar in scalars {
        add_value(alloc, &mut vals, scalar, event, binding)?;
    }
    Ok(vals)
}

// Puts the value of a scalar at the end: a copy of what stands somewhere.
#[inline(always)]
fn add_value(
    alloc: Global,
    vals: &mut Vals,
    scalar: &Scalar,
    event: &Tuple,
    binding: Option<&Tuple>,
) -> Result<(), Memory>
    requires { Fits (sc_of scalar.now) event.now (option_copied binding) }
    ensures { OnOk result (vals.new ≡ vals.old ++ val (sc_of scalar.now) event.now (option_copied binding.entry) ∷ []) }
{
    match value_in_place(scalar, event, binding) {
        Some(value) => add_copy(alloc, vals, value),
        None => match number_of(scalar, event, binding) {
            Some(number) => vals.add(Value::Int(number)),
            None => add_computed(alloc, vals, scalar, event, binding),
        },
    }
}

// The same of DUR or of an operation, whatever its value is.
#[inline(never)]
fn add_computed(
    alloc: Global,
    vals: &mut Vals,
    scalar: &Scalar,
    event: &Tuple,
    binding: Option<&Tuple>,
) -> Result<(), Memory>
    requires computed { IsComputed (sc_of scalar.now) }
    requires fits { Fits (sc_of scalar.now) event.now (option_copied binding) }
    ensures { OnOk result (vals.new ≡ vals.old ++ val (sc_of scalar.now) event.now (option_copied binding.entry) ∷ []) }
{
    vals.add(computed(scalar, event, binding).to_value(alloc)?)
}

// The tuple of these values and times, which are in order.
fn spanning(vals: Vals, from: u64, at: u64) -> Tuple
    requires { from ≤ at }
    ensures { result ≡ record { vals = vals; from = from; at = at } }
{
    match Tuple::make(vals, from, at) {
        Ok(tuple) => tuple,
        Err(_) => unreachable!(),
    }
}
