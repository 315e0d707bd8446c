//! Values of attributes.
ghost use Rattle.std.specs.Prelude.{◌≡◌, IfOk};
ghost use Rattle.std.specs.Cmp.{partial_order_from_total, partial_equiv_from_equiv};
ghost use Rattle.std.specs.Cmp.Rules.{comparing};
ghost use Rattle.std.specs.Ordering.{as_partial_cmp, eq_by_cmp};
ghost use Rattle.std.proofs.Common.{ap, rules};
ghost use Rattle.std.proofs.lemmas.Cmp.{eq_by_cmp_equiv};
ghost use Rattle.event_types.specs.Order.{value_cmp, value_place};
ghost use Rattle.event_types.specs.OrderLaws.{tied_values, value_total};
ghost use Rattle.event_types.specs.ValueOfRef.{value_of_ref};

use crate::list::{Copied, List};
use crate::memory::Memory;
use crate::text::Text;
use std::alloc::Global;
use std::cmp::Ordering;
use std::hash::Hash;

/// A value: a whole number of 128 bits, a text, a decimal with units of 128 bits, or OVER, the value of an
/// operation that has no other.
///
/// In the order of values whole numbers come first, by size; then decimals, by scale and then by units; then OVER;
/// then texts, by bytes.
#[derive(Hash, Drop)]
pub enum Value {
    Int(i128),
    Over,
    Text(Text),
    /// The decimal `units / 10^scale`: 1050 units of scale 2 are 10.50.
    ///
    /// Schemas and literals have scales of at most 18. Decimals of two scales are never equal.
    Dec { scale: u8, units: i128 },
}

const _: () = prove!(size_of::<Value>() == 32);

/// A value that is looked at in place.
#[derive(Clone, Copy)]
pub enum ValueRef<'a> {
    Int(i128),
    Over,
    Text(&'a str),
    Dec { scale: u8, units: i128 },
}

const _: () = prove!(size_of::<ValueRef<'_>>() == 32);

/// The values of a tuple, in the order of its schema.
pub type Vals = List<Value>;

impl Value {
    /// The order of two values: numbers by size, decimals by scale and units, OVER, texts by bytes.
    pub fn order(&self, other: &Value) -> Ordering
        ensures { result ≡ value_cmp self.now other.now }
    {
        match (self, other) {
            (Value::Int(x), Value::Int(y)) => x.cmp(y),
            (
                Value::Dec {
                    scale: x_scale,
                    units: x,
                },
                Value::Dec {
                    scale: y_scale,
                    units: y,
                },
            ) => x_scale.cmp(y_scale).then(x.cmp(y)),
            (Value::Text(x), Value::Text(y)) => x.cmp(y),
            _ => self.place().cmp(&other.place()),
        }
    }

    // The place of the value's sort in the order.
    fn place(&self) -> u8
        ensures { result ≡ value_place self.now }
    {
        match self {
            Value::Int(_) => 0,
            Value::Dec { .. } => 1,
            Value::Over => 2,
            Value::Text(_) => 3,
        }
    }

    /// The value, looked at in place.
    pub fn look(&self) -> ValueRef<'_>
        ensures { value_of_ref result ≡ self.now }
    {
        match self {
            Value::Int(number) => ValueRef::Int(*number),
            Value::Over => ValueRef::Over,
            Value::Text(text) => ValueRef::Text(text.as_str()),
            Value::Dec { scale, units } => ValueRef::Dec {
                scale: *scale,
                units: *units,
            },
        }
    }
}

impl<'a> ValueRef<'a> {
    /// An equal value of its own.
    pub fn to_value(self, alloc: Global) -> Result<Value, Memory>
        ensures { IfOk result (λ value. value ≡ value_of_ref self.entry) }
    {
        match self {
            ValueRef::Int(number) => Ok(Value::Int(number)),
            ValueRef::Over => Ok(Value::Over),
            ValueRef::Text(text) => {
                let text = Text::make(alloc, text)?;
                Ok(Value::Text(text))
            }
            ValueRef::Dec { scale, units } => Ok(Value::Dec { scale, units }),
        }
    }
}

impl PartialEq for Value {
    ghost eq = { eq_by_cmp value_cmp };

    ghost laws = { partial_equiv_from_equiv (eq_by_cmp_equiv value_total) };

    fn eq(&self, other: &Value) -> bool {
        match (self, other) {
            (Value::Int(x), Value::Int(y)) => x == y,
            (Value::Text(x), Value::Text(y)) => x == y,
            (
                Value::Dec {
                    scale: x_scale,
                    units: x,
                },
                Value::Dec {
                    scale: y_scale,
                    units: y,
                },
            ) => x == y && x_scale == y_scale,
            (Value::Over, Value::Over) => true,
            _ => false,
        }
    }
}

impl Eq for Value {
    ghost laws = { eq_by_cmp_equiv value_total };
}

#[derived]
impl Hash for Value {
    ghost respects_eq = { λ x y e. let same = tied_values x y e in Prim.cc };
}

impl PartialOrd for Value {
    ghost partial_cmp = { as_partial_cmp value_cmp };

    ghost laws = { partial_order_from_total value_total };

    fn partial_cmp(&self, other: &Value) -> Option<Ordering> {
        Some(self.cmp(other))
    }
}

impl Ord for Value {
    ghost cmp = { value_cmp };

    ghost total = { value_total };

    ghost matches_partial_cmp = { Prim.search (comparing, rules) };

    ghost matches_eq = { Prim.search (comparing, rules) };

    fn cmp(&self, other: &Value) -> Ordering {
        self.order(other)
    }
}

impl Copied for Value {
    fn copied(&self, alloc: Global) -> Result<Self, Memory> {
        match self {
            Value::Int(number) => Ok(Value::Int(*number)),
            Value::Over => Ok(Value::Over),
            Value::Text(text) => Ok(Value::Text(text.copied(alloc)?)),
            Value::Dec { scale, units } => Ok(Value::Dec {
                scale: *scale,
                units: *units,
            }),
        }
    }
}
