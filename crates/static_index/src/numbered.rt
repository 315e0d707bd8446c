//! Ids by the number that bounds an attribute, found by its place in the order.
ghost use Rattle.std.specs.Prelude.{◌≡◌, ◌++◌, ℤ, pos, ◌-ℤ◌, Contains, IfSome, OnOk};
ghost use Rattle.std.specs.BTreeMap.Range.{IsLeBy, IsLtBy};
ghost use Rattle.std.specs.Bound.{IsForward};
ghost use Rattle.std.specs.Ordering.{int_cmp};
ghost use Rattle.static_index.specs.Buckets.{KeepsIds, KeepsOtherIds, seen_bound, ids_between, numbered_ids};
ghost use Rattle.static_index.specs.Spans.{FindsNear};

use crate::ids::{Ids, append};
use event_types::{Memory, Numbers, Value};
use std::alloc::Global;
use std::collections::BTreeMap;
use std::ops::Bound;

// A bucket of ids for each number.
pub(crate) type Numbered = BTreeMap<i128, Ids>;

// Puts an id into the bucket of a number.
pub(crate) fn put_numbered(
    alloc: Global,
    buckets: &mut Numbered,
    number: i128,
    id: usize,
) -> Result<(), Memory>
    ensures ok { OnOk result (Contains (numbered_ids buckets.new number) id) }
    ensures kept { (other : ℤ) → KeepsIds (numbered_ids buckets.old other) (numbered_ids buckets.new other) }
{
    if let Some(bucket) = buckets.get_mut(&number) {
        return bucket.put(id);
    }
    let mut bucket = Ids::new(alloc);
    bucket.put(id)?;
    buckets.insert(number, bucket)?;
    Ok(())
}

// Takes an id out of the bucket of a number, and an empty bucket away.
pub(crate) fn take_numbered(buckets: &mut Numbered, number: i128, id: usize)
    ensures { (other : ℤ) → KeepsOtherIds id (numbered_ids buckets.old other) (numbered_ids buckets.new other) }
{
    let Some(bucket) = buckets.get_mut(&number) else {
        return;
    };
    bucket.take_out(id);
    if bucket.len() == 0 {
        let _ = buckets.remove(&number);
    }
}

// Puts the ids of the numbers between two bounds behind those that are there.
#[inline(always)]
pub(crate) fn collect_between(
    buckets: &Numbered,
    low: Bound<&i128>,
    high: Bound<&i128>,
    found: &mut Numbers,
) -> Result<(), Memory>
    requires { IsForward (IsLeBy int_cmp) (IsLtBy int_cmp) (seen_bound low) (seen_bound high) }
    ensures { OnOk result (found.new ≡ found.old ++ ids_between (seen_bound low.entry) (seen_bound high.entry) buckets.now) }
{
    if buckets.is_empty() {
        Ok(())
    } else {
        walk_between(buckets, low, high, found)
    }
}

// The same, with a walk also where there is no bucket.
#[inline(never)]
fn walk_between(
    buckets: &Numbered,
    low: Bound<&i128>,
    high: Bound<&i128>,
    found: &mut Numbers,
) -> Result<(), Memory>
    requires { IsForward (IsLeBy int_cmp) (IsLtBy int_cmp) (seen_bound low) (seen_bound high) }
    ensures { OnOk result (found.new ≡ found.old ++ ids_between (seen_bound low.entry) (seen_bound high.entry) buckets.now) }
{
    'buckets: for (_, ids) in buckets.range((low, high)) {
        append(found, ids)?;
    }
    Ok(())
}

// Puts the ids of the numbers from a reach below a number up to it behind those that are there.
pub(crate) fn collect_near(
    buckets: &Numbered,
    reach: u128,
    value: &Value,
    found: &mut Numbers,
) -> Result<(), Memory>
    ensures kept { OnOk result (KeepsIds found.old found.new) }
    ensures found { OnOk result (FindsNear reach value.now buckets.now found.new) }
{
    let Value::Int(number) = value else {
        return Ok(());
    };
    let Some(low) = below(number, reach) else {
        return collect_between(buckets, Bound::Unbounded, Bound::Included(number), found);
    };
    collect_between(
        buckets,
        Bound::Included(&low),
        Bound::Included(number),
        found,
    )
}

// The number that lies a reach below another; none, where that is no number of 128 bits.
fn below(number: &i128, reach: u128) -> Option<i128>
    ensures { IfSome result (λ low. low ≡ number.now -ℤ pos reach) }
{
    match i128::try_from(reach) {
        Ok(reach) => number.checked_sub(reach),
        Err(_) => None,
    }
}
