//! Ids by the literal that bounds an attribute on one side.
ghost use Rattle.std.specs.Prelude.{Contains, OnOk};
ghost use Rattle.event_types.specs.declared.comparison.Cmp.TheVariants.{Ge, Le};
ghost use Rattle.event_types.specs.declared.value.Value.{Value};
ghost use Rattle.static_index.specs.Buckets.{KeepsIds, KeepsOtherIds};
ghost use Rattle.static_index.specs.Limits.{FindsOnlyReached, FindsReached, limit_ids};

use crate::numbered::{Numbered, collect_between, put_numbered, take_numbered};
use crate::ordered::{Ordered, collect_higher, collect_lower, put_ordered, take_ordered};
use event_types::{Memory, Numbers, Value};
use std::alloc::Global;
use std::collections::BTreeMap;
use std::ops::Bound;

// The ids of numbers, as most literals are, stand apart from those of the rest: numbers are compared fast, and no
// other value meets them.
#[derive(Drop)]
pub(crate) struct Limits {
    numbers: Numbered,
    others: Ordered,
}

impl Limits {
    pub(crate) fn new(alloc: Global) -> Limits {
        Limits {
            numbers: BTreeMap::new(alloc),
            others: BTreeMap::new(alloc),
        }
    }

    // Puts an id into the bucket of a literal.
    pub(crate) fn put(&mut self, alloc: Global, lit: &Value, id: usize) -> Result<(), Memory>
        ensures ok { OnOk result (Contains (limit_ids self.new lit.now) id) }
        ensures kept { (other : Value) → KeepsIds (limit_ids self.old other) (limit_ids self.new other) }
    {
        match lit {
            Value::Int(number) => put_numbered(alloc, &mut self.numbers, *number, id),
            _ => put_ordered(alloc, &mut self.others, lit, id),
        }
    }

    // Takes an id out of the bucket of a literal.
    pub(crate) fn take(&mut self, lit: &Value, id: usize)
        ensures { (other : Value) → KeepsOtherIds id (limit_ids self.old other) (limit_ids self.new other) }
    {
        match lit {
            Value::Int(number) => take_numbered(&mut self.numbers, *number, id),
            _ => take_ordered(&mut self.others, lit, id),
        }
    }

    // Puts the ids of the literals up to a value and of its kind behind those that are there.
    #[inline(always)]
    pub(crate) fn collect_up_to(&self, value: &Value, found: &mut Numbers) -> Result<(), Memory>
        ensures kept { OnOk result (KeepsIds found.old found.new) }
        ensures found { OnOk result (FindsReached Ge value.now self.now found.new) }
        ensures only { OnOk result (FindsOnlyReached Ge value.now self.now found.old found.new) }
    {
        match value {
            Value::Int(most) => collect_between(
                &self.numbers,
                Bound::Unbounded,
                Bound::Included(most),
                found,
            ),
            _ => collect_lower(&self.others, value, found),
        }
    }

    // Puts the ids of the literals from a value on and of its kind behind those that are there.
    #[inline(always)]
    pub(crate) fn collect_from(&self, value: &Value, found: &mut Numbers) -> Result<(), Memory>
        ensures kept { OnOk result (KeepsIds found.old found.new) }
        ensures found { OnOk result (FindsReached Le value.now self.now found.new) }
        ensures only { OnOk result (FindsOnlyReached Le value.now self.now found.old found.new) }
    {
        match value {
            Value::Int(least) => collect_between(
                &self.numbers,
                Bound::Included(least),
                Bound::Unbounded,
                found,
            ),
            _ => collect_higher(&self.others, value, found),
        }
    }
}
