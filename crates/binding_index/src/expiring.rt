//! Buckets from which expired instances are taken out.
ghost use Rattle.std.specs.Prelude.{◌≡◌, ◌<◌, ◌≤◌, ◌+◌, All, IfNone, IfSome, false, length, slice_index};
ghost use Rattle.std.specs.List.{IsDistinct};
ghost use Rattle.std.specs.Map.{keys_of};
ghost use Rattle.instances.specs.Alive.{is_alive};
ghost use Rattle.instances.specs.Bounds.{started};
ghost use Rattle.binding_index.specs.Buckets.{AreStarts, IsPurged, IsSplit, KeepsAlive, passed};
ghost use Rattle.binding_index.specs.Among.{is_key};

use crate::arranging::arrange;
use crate::buckets::Buckets;
use deadlines::{Deadlines, NEVER};
use instances::earliest_alive;
use scalar_expr::Conj;

/// Takes out the instances that no event after `now` can match, as the bounds on DUR tell. It gives the
/// place after the last bucket with instances, as `filled` was. No more buckets are looked at than have a time
/// at which an instance would have expired, which no clause says. Takes no memory.
pub(crate) fn keep_all_alive(
    buckets: &mut Buckets,
    starts: &mut Deadlines,
    filled: usize,
    condition: &Conj,
    now: u64,
) -> usize
    requires within { filled ≤ length buckets.old.entries }
    requires room { length buckets.old.entries ≤ length starts.old }
    requires split { IsSplit filled buckets.old.entries }
    requires distinct { IsDistinct is_key (keys_of buckets.old.entries) }
    requires starts { AreStarts starts.old buckets.old.entries }
    ensures purged { IsPurged (λ instance. is_alive (now + 1) condition.now instance.tuple) buckets.old.entries buckets.new.entries }
    ensures within { result ≤ length buckets.new.entries }
    ensures room { length buckets.new.entries ≤ length starts.new }
    ensures split { IsSplit result buckets.new.entries }
    ensures starts { AreStarts starts.new buckets.new.entries }
{
    let earliest = earliest_alive(condition, now);
    let mut filled = filled;
    while let Some(place) = first_before(starts, earliest) {
        filled = expire_at(buckets, starts, filled, place, condition, now);
    }
    filled
}

// The first place whose time is before another.
fn first_before(starts: &Deadlines, time: u128) -> Option<usize>
    ensures within { IfSome result (λ place. place < length starts.now) }
    ensures found { IfSome result (λ place. slice_index starts.now place < time) }
    ensures absent { IfNone result (All (λ start. time ≤ start) starts.now) }
{
    starts.first_until(time.checked_sub(1)?)
}

// Takes the instances that no event after `now` can match out of the bucket at a place, if that has any, as its
// time has passed, and gives the place another time. It gives the place after the last bucket with instances.
fn expire_at(
    buckets: &mut Buckets,
    starts: &mut Deadlines,
    filled: usize,
    place: usize,
    condition: &Conj,
    now: u64,
) -> usize
    requires within { filled ≤ length buckets.old.entries }
    requires room { length buckets.old.entries ≤ length starts.old }
    requires split { IsSplit filled buckets.old.entries }
    requires distinct { IsDistinct is_key (keys_of buckets.old.entries) }
    requires starts { AreStarts starts.old buckets.old.entries }
    requires there { place < length starts.old }
    requires passed { is_alive (now + 1) condition.now (started (slice_index starts.old place)) ≡ false }
    ensures alive { KeepsAlive (λ instance. is_alive (now + 1) condition.now instance.tuple) buckets.old.entries buckets.new.entries }
    ensures within { result ≤ length buckets.new.entries }
    ensures room { length buckets.new.entries ≤ length starts.new }
    ensures split { IsSplit result buckets.new.entries }
    ensures starts { AreStarts starts.new buckets.new.entries }
    ensures fewer { passed (now + 1) condition.now starts.new < passed (now + 1) condition.now starts.old }
{
    let earliest = earliest_alive(condition, now);
    if place >= filled {
        starts.set(place, NEVER);
        return filled;
    }
    let oldest = buckets[place].keep_alive(condition, now);
    starts.set(place, earliest.max(oldest as u128));
    arrange(buckets, starts, filled, place)
}
