//! Buckets from which the instances are taken out that began too early.
ghost use Rattle.std.specs.Prelude.{◌<◌, ◌≤◌, ◌+◌, Some, length};
ghost use Rattle.std.specs.List.{IsDistinct};
ghost use Rattle.std.specs.Map.{keys_of};
ghost use Rattle.semantics.specs.Births.{is_after};
ghost use Rattle.binding_index.specs.Buckets.{AreStarts, IsPurged, IsSplit, KeepsAlive, PassFrom};
ghost use Rattle.binding_index.specs.Among.{is_key};

use crate::arranging::arrange;
use crate::buckets::Buckets;
use deadlines::Deadlines;

/// Takes out the instances that began no later than a birth. It gives the place after the last bucket with
/// instances, as `filled` was. Takes no memory.
pub(crate) fn keep_all_after(
    buckets: &mut Buckets,
    starts: &mut Deadlines,
    filled: usize,
    birth: u64,
) -> usize
    requires within { filled ≤ length buckets.old.entries }
    requires room { length buckets.old.entries ≤ length starts.old }
    requires split { IsSplit filled buckets.old.entries }
    requires distinct { IsDistinct is_key (keys_of buckets.old.entries) }
    requires starts { AreStarts starts.old buckets.old.entries }
    ensures purged { IsPurged (λ instance. is_after (Some birth) instance.first) buckets.old.entries buckets.new.entries }
    ensures within { result ≤ length buckets.new.entries }
    ensures room { length buckets.new.entries ≤ length starts.new }
    ensures split { IsSplit result buckets.new.entries }
    ensures starts { AreStarts starts.new buckets.new.entries }
{
    let mut filled = filled;
    let mut place = filled;
    while place > 0 {
        place -= 1;
        filled = cut_at(buckets, starts, filled, place, birth);
    }
    filled
}

// Takes the instances that began no later than a birth out of the bucket at a place, as none of those behind it
// did. It gives the place after the last bucket with instances.
fn cut_at(
    buckets: &mut Buckets,
    starts: &mut Deadlines,
    filled: usize,
    place: usize,
    birth: u64,
) -> usize
    requires within { filled ≤ length buckets.old.entries }
    requires room { length buckets.old.entries ≤ length starts.old }
    requires split { IsSplit filled buckets.old.entries }
    requires distinct { IsDistinct is_key (keys_of buckets.old.entries) }
    requires starts { AreStarts starts.old buckets.old.entries }
    requires there { place < filled }
    requires behind { PassFrom (λ instance. is_after (Some birth) instance.first) (place + 1) buckets.old.entries }
    ensures began { KeepsAlive (λ instance. is_after (Some birth) instance.first) buckets.old.entries buckets.new.entries }
    ensures from { PassFrom (λ instance. is_after (Some birth) instance.first) place buckets.new.entries }
    ensures near { place ≤ result }
    ensures within { result ≤ length buckets.new.entries }
    ensures room { length buckets.new.entries ≤ length starts.new }
    ensures split { IsSplit result buckets.new.entries }
    ensures starts { AreStarts starts.new buckets.new.entries }
{
    buckets[place].keep_after(birth);
    arrange(buckets, starts, filled, place)
}
