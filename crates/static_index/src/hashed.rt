//! Ids by the literal that an attribute is to equal, found by its hash.
ghost use Rattle.std.specs.Prelude.{◌≡◌, ◌++◌, Contains, OnOk};
ghost use Rattle.event_types.specs.declared.value.Value.{Value};
ghost use Rattle.static_index.specs.Buckets.{KeepsIds, KeepsOtherIds, hashed_ids};

use crate::ids::{Ids, append};
use event_types::{Copied, Memory, Numbers, Value};
use indexmap::IndexMap;
use std::alloc::Global;

// A bucket of ids for each literal.
pub(crate) type Hashed = IndexMap<Value, Ids>;

// Puts an id into the bucket of a literal.
pub(crate) fn put_hashed(
    alloc: Global,
    buckets: &mut Hashed,
    lit: &Value,
    id: usize,
) -> Result<(), Memory>
    ensures ok { OnOk result (Contains (hashed_ids buckets.new lit.now) id) }
    ensures kept { (other : Value) → KeepsIds (hashed_ids buckets.old other) (hashed_ids buckets.new other) }
{
    if let Some(bucket) = buckets.get_mut(lit) {
        return bucket.put(id);
    }
    let key = lit.copied(alloc)?;
    let mut bucket = Ids::new(alloc);
    bucket.put(id)?;
    buckets.insert(key, bucket)?;
    Ok(())
}

// Takes an id out of the bucket of a literal, and an empty bucket away.
pub(crate) fn take_hashed(buckets: &mut Hashed, lit: &Value, id: usize)
    ensures { (other : Value) → KeepsOtherIds id (hashed_ids buckets.old other) (hashed_ids buckets.new other) }
{
    let Some(bucket) = buckets.get_mut(lit) else {
        return;
    };
    bucket.take_out(id);
    if bucket.len() == 0 {
        let _ = buckets.swap_remove(lit);
    }
}

// Puts the ids of a literal's bucket behind those that are there.
pub(crate) fn collect_hashed(
    buckets: &Hashed,
    lit: &Value,
    found: &mut Numbers,
) -> Result<(), Memory>
    ensures { OnOk result (found.new ≡ found.old ++ hashed_ids buckets.now lit.now) }
{
    if buckets.is_empty() {
        return Ok(());
    }
    match buckets.get(lit) {
        Some(ids) => append(found, ids),
        None => Ok(()),
    }
}
