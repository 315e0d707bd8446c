//! The order of the buckets: those with instances come first, each with the time of its place.
ghost use Rattle.std.specs.Prelude.{◌≡◌, ◌<◌, ◌≤◌, Bool, length, min, slice_index, slice_set, OnOk};
ghost use Rattle.std.specs.List.{swap};
ghost use Rattle.std.specs.List.Sorted.{IsPermutation};
ghost use Rattle.instances.specs.declared.instance.Instance.{Instance};
ghost use Rattle.binding_index.specs.Buckets.{AreSame, AreStarts, IsSplit, IsSplitBut, PassFrom};

use crate::buckets::Buckets;
use deadlines::Deadlines;
use event_types::Memory;

/// Makes room for the time of one more bucket.
pub(crate) fn make_room(buckets: &Buckets, starts: &mut Deadlines) -> Result<(), Memory>
    requires room { length buckets.now.entries ≤ length starts.old }
    requires starts { AreStarts starts.old buckets.now.entries }
    ensures ok { OnOk result (length buckets.now.entries < length starts.new) }
    ensures room { length buckets.now.entries ≤ length starts.new }
    ensures starts { AreStarts starts.new buckets.now.entries }
{
    if buckets.len() < starts.len() {
        return Ok(());
    }
    starts.grow(*buckets.allocator(), starts.len().max(1))
}

/// Lowers the time of a place to this one, if that is earlier. Takes no memory.
pub(crate) fn lower(starts: &mut Deadlines, place: usize, time: u128)
    requires { place < length starts.old }
    ensures { starts.new ≡ slice_set starts.old place (min (slice_index starts.old place) time) }
{
    if time < starts.get(place) {
        starts.set(place, time);
    }
}

/// The place after the last bucket with instances, once the bucket at `place`, which stands among them, stands behind
/// them if it has none. The others have some, where `filled` was the place after the last of them. A bucket that is
/// moved takes its time along. Takes no memory.
pub(crate) fn arrange(
    buckets: &mut Buckets,
    starts: &mut Deadlines,
    filled: usize,
    place: usize,
) -> usize
    requires within { filled ≤ length buckets.old.entries }
    requires there { place < filled }
    requires room { length buckets.old.entries ≤ length starts.old }
    requires others { IsSplitBut place filled buckets.old.entries }
    requires starts { AreStarts starts.old buckets.old.entries }
    ensures same { AreSame buckets.old.entries buckets.new.entries }
    ensures within { result ≤ length buckets.new.entries }
    ensures room { length buckets.new.entries ≤ length starts.new }
    ensures split { IsSplit result buckets.new.entries }
    ensures starts { AreStarts starts.new buckets.new.entries }
    ensures same_starts { IsPermutation starts.old starts.new }
    ensures near { place ≤ result }
    ensures pass { (test : Instance → Bool) → PassFrom test place buckets.old.entries → PassFrom test place buckets.new.entries }
{
    if !buckets[place].has_some() {
        exchange(buckets, starts, place, filled - 1);
        return filled - 1;
    }
    filled
}

/// Exchanges two buckets and their times, unless they are one. Takes no memory.
pub(crate) fn exchange(buckets: &mut Buckets, starts: &mut Deadlines, place: usize, other: usize)
    requires place { place < length buckets.old.entries }
    requires other { other < length buckets.old.entries }
    requires room { length buckets.old.entries ≤ length starts.old }
    ensures same { AreSame buckets.old.entries buckets.new.entries }
    ensures as_many { length buckets.new.entries ≡ length buckets.old.entries }
    ensures buckets { buckets.new.entries ≡ swap buckets.old.entries place other }
    ensures starts { starts.new ≡ swap starts.old place other }
{
    if place != other {
        buckets.swap_indices(place, other);
        starts.swap(place, other);
    }
}
