//! Ids by the literal that bounds an attribute and is no number, found by its place in the order.
ghost use Rattle.std.specs.Prelude.{◌≡◌, ◌++◌, Contains, OnOk};
ghost use Rattle.event_types.specs.declared.value.Value.{Value};
ghost use Rattle.std.specs.BTreeMap.Range.{IsLeBy, IsLtBy};
ghost use Rattle.std.specs.Bound.{IsForward};
ghost use Rattle.static_index.specs.Buckets.{FindsMet, FindsOnlyMet, KeepsIds, KeepsOtherIds, seen_bound, met_ids_between, ordered, ordered_ids};
ghost use Rattle.event_types.specs.declared.comparison.Cmp.TheVariants.{Ge, Le};

use crate::ids::{Ids, append};
use event_types::{Cmp, Copied, Memory, Numbers, Value};
use scalar_expr::compares;
use std::alloc::Global;
use std::collections::BTreeMap;
use std::ops::Bound;

// A bucket of ids for each literal.
pub(crate) type Ordered = BTreeMap<Value, Ids>;

// Puts an id into the bucket of a literal.
pub(crate) fn put_ordered(
    alloc: Global,
    buckets: &mut Ordered,
    lit: &Value,
    id: usize,
) -> Result<(), Memory>
    ensures ok { OnOk result (Contains (ordered_ids buckets.new lit.now) id) }
    ensures kept { (other : Value) → KeepsIds (ordered_ids buckets.old other) (ordered_ids buckets.new other) }
{
    if let Some(bucket) = buckets.get_mut(lit) {
        return bucket.put(id);
    }
    let key = lit.copied(alloc)?;
    let mut bucket = Ids::new(alloc);
    bucket.put(id)?;
    buckets.insert(key, bucket)?;
    Ok(())
}

// Takes an id out of the bucket of a literal, and an empty bucket away.
pub(crate) fn take_ordered(buckets: &mut Ordered, lit: &Value, id: usize)
    ensures { (other : Value) → KeepsOtherIds id (ordered_ids buckets.old other) (ordered_ids buckets.new other) }
{
    let Some(bucket) = buckets.get_mut(lit) else {
        return;
    };
    bucket.take_out(id);
    if bucket.len() == 0 {
        let _ = buckets.remove(lit);
    }
}

// Puts the ids of the literals up to a value and of its kind behind those that are there.
#[inline(always)]
pub(crate) fn collect_lower(
    buckets: &Ordered,
    value: &Value,
    found: &mut Numbers,
) -> Result<(), Memory>
    ensures kept { OnOk result (KeepsIds found.old found.new) }
    ensures found { OnOk result (FindsMet Ge value.now buckets.now found.new) }
    ensures only { OnOk result (FindsOnlyMet Ge value.now buckets.now found.old found.new) }
{
    collect_met(
        buckets,
        Bound::Unbounded,
        Bound::Included(value),
        Cmp::Ge,
        value,
        found,
    )
}

// Puts the ids of the literals from a value on and of its kind behind those that are there.
#[inline(always)]
pub(crate) fn collect_higher(
    buckets: &Ordered,
    value: &Value,
    found: &mut Numbers,
) -> Result<(), Memory>
    ensures kept { OnOk result (KeepsIds found.old found.new) }
    ensures found { OnOk result (FindsMet Le value.now buckets.now found.new) }
    ensures only { OnOk result (FindsOnlyMet Le value.now buckets.now found.old found.new) }
{
    collect_met(
        buckets,
        Bound::Included(value),
        Bound::Unbounded,
        Cmp::Le,
        value,
        found,
    )
}

// Puts the ids of the literals between two bounds with which a value meets a comparison behind those that are there. An
// attribute has one kind, so that hardly any other literal is looked at.
#[inline(always)]
fn collect_met(
    buckets: &Ordered,
    low: Bound<&Value>,
    high: Bound<&Value>,
    cmp: Cmp,
    value: &Value,
    found: &mut Numbers,
) -> Result<(), Memory>
    requires { IsForward (IsLeBy ordered) (IsLtBy ordered) (seen_bound low) (seen_bound high) }
    ensures { OnOk result (found.new ≡ found.old ++ met_ids_between cmp value.now (seen_bound low.entry) (seen_bound high.entry) buckets.now) }
{
    if buckets.is_empty() {
        Ok(())
    } else {
        walk_met(buckets, low, high, cmp, value, found)
    }
}

// The same, with a walk also where there is no bucket.
#[inline(never)]
fn walk_met(
    buckets: &Ordered,
    low: Bound<&Value>,
    high: Bound<&Value>,
    cmp: Cmp,
    value: &Value,
    found: &mut Numbers,
) -> Result<(), Memory>
    requires { IsForward (IsLeBy ordered) (IsLtBy ordered) (seen_bound low) (seen_bound high) }
    ensures { OnOk result (found.new ≡ found.old ++ met_ids_between cmp value.now (seen_bound low.entry) (seen_bound high.entry) buckets.now) }
{
    'buckets: for (lit, ids) in buckets.range((low, high)) {
        if compares(cmp, value.look(), lit.look()) {
            append(found, ids)?;
        }
    }
    Ok(())
}
