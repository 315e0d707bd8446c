//! Buckets of instances by key.
ghost use Rattle.std.specs.Prelude.{◌≡◌, ◌≤◌, ◌-◌, ◌^◌, ◌++◌, ◌∷◌, [], IfNone, IfOk, IfSome, None, OnErr, OnOk, length, flat_map, min, take};
ghost use Rattle.std.specs.List.{IsDistinct};
ghost use Rattle.std.specs.Map.{keys_of, lookup};
ghost use Rattle.binding_index.specs.Buckets.{AreStarts, HasBucketAt, HasNoCandidates};
ghost use Rattle.binding_index.specs.Among.{is_key};

use crate::arranging::make_room;
use crate::bucket::Bucket;
use crate::near::{Near, place_near};
use deadlines::Deadlines;
use event_types::{List, Memory, Value, ValueRef};
use indexmap::IndexMap;
use instances::Instances;
use std::alloc::Global;

/// The instances of each key that is ready.
pub(crate) type Buckets = IndexMap<Value, Bucket>;

/// The place of the bucket where the candidates of an event with this key stand. OVER has none. Takes no
/// memory.
pub(crate) fn candidate_place(near: &Near, buckets: &Buckets, key: &Value) -> Option<usize>
    ensures found { IfSome result (HasBucketAt buckets.now.entries key.now) }
    ensures absent { IfNone result (HasNoCandidates buckets.now.entries key.now) }
{
    match key.look() {
        ValueRef::Over => None,
        _ => place_near(near, buckets, key),
    }
}

/// Adds an empty bucket behind all others, with room for its time.
pub(crate) fn add_bucket(
    buckets: &mut Buckets,
    starts: &mut Deadlines,
    key: Value,
) -> Result<(), Memory>
    requires absent { lookup (is_key key) buckets.old.entries ≡ None }
    requires distinct { IsDistinct is_key (keys_of buckets.old.entries) }
    requires room { length buckets.old.entries ≤ length starts.old }
    requires starts { AreStarts starts.old buckets.old.entries }
    ensures ok { OnOk result (buckets.new.entries ≡ buckets.old.entries ++ (key, []) ∷ []) }
    ensures kept { OnErr result (buckets.new.entries ≡ buckets.old.entries) }
    ensures distinct { IsDistinct is_key (keys_of buckets.new.entries) }
    ensures room { length buckets.new.entries ≤ length starts.new }
    ensures starts { AreStarts starts.new buckets.new.entries }
{
    make_room(buckets, starts)?;
    match buckets.insert(key, Bucket::new()) {
        Ok(_) => Ok(()),
        Err(_) => Err(Memory),
    }
}

/// Forgets the buckets from a place on. Takes no memory.
pub(crate) fn forget_from(buckets: &mut Buckets, place: usize)
    ensures { buckets.new.entries ≡ take place buckets.old.entries }
{
    if place < buckets.len() {
        buckets.truncate(place);
    }
}

/// Equal copies of the instances of all buckets.
pub(crate) fn copy_all(alloc: Global, buckets: &Buckets) -> Result<Instances, Memory>
    ensures { IfOk result (λ copies. copies ≡ flat_map (λ b. b.1) buckets.now.entries) }
{
    let mut copies = List::new(alloc);
    for place in 0..buckets.len() {
        buckets[place].add_copies(alloc, &mut copies)?;
    }
    Ok(copies)
}

/// The number of the instances of all buckets, or 2^64-1 where there are more. Takes no memory.
pub(crate) fn count_all(buckets: &Buckets) -> u64
    ensures { result ≡ min (length (flat_map (λ b. b.1) buckets.now.entries)) (2 ^ 64 - 1) }
{
    let mut count: u64 = 0;
    for place in 0..buckets.len() {
        count = count.saturating_add(buckets[place].count());
    }
    count
}
