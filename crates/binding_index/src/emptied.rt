//! Buckets whose last instance was taken out. They stay where they are for a while, since an instance of the same key
//! may come next.
ghost use Rattle.std.specs.Prelude.{◌≡◌, ◌++◌, ◌-◌, ◌∷◌, ◌<◌, ◌≤◌, [], List, ℕ, false, length, slice_index_or, true};
ghost use Rattle.binding_index.specs.Buckets.{AreSame, AreStarts, Bucket as InBuckets, IsSplit, IsSplitAside, IsSplitAsideBut};
ghost use Rattle.binding_index.specs.Entries.{is_filled};

use crate::arranging::exchange;
use crate::buckets::Buckets;
use deadlines::Deadlines;
use event_types::Numbers;

/// The most places of buckets that are noted, to be arranged later.
pub(crate) const MOST: usize = 16;

/// The place after the last bucket that may have instances, once the bucket at `place` got some or lost some. The others
/// were arranged but for those that are noted, where `filled` was that place. A bucket that has no instance any more is
/// noted, and arranged at once if enough are noted. Takes no memory.
#[inline(always)]
pub(crate) fn arrange_or_note(
    buckets: &mut Buckets,
    starts: &mut Deadlines,
    filled: usize,
    emptied: &mut Numbers,
    place: usize,
) -> usize
    requires within { filled ≤ length buckets.old.entries }
    requires there { place < length buckets.old.entries }
    requires room { length buckets.old.entries ≤ length starts.old }
    requires others { IsSplitAsideBut place emptied.old filled buckets.old.entries }
    requires starts { AreStarts starts.old buckets.old.entries }
    ensures same { AreSame buckets.old.entries buckets.new.entries }
    ensures within { result ≤ length buckets.new.entries }
    ensures room { length buckets.new.entries ≤ length starts.new }
    ensures split { IsSplitAside emptied.new result buckets.new.entries }
    ensures starts { AreStarts starts.new buckets.new.entries }
{
    // `len` is called for its clause that the number of buckets is below 2^63
    let _len = buckets.len();
    if buckets[place].has_some() {
        if place < filled {
            return filled;
        }
        exchange(buckets, starts, place, filled);
        return filled + 1;
    }
    if note(emptied, place) {
        return filled;
    }
    set_back(buckets, starts, filled, place)
}

/// The place after the last bucket with instances, once the noted buckets are arranged. Then none is noted. Takes no
/// memory.
pub(crate) fn arrange_noted(
    buckets: &mut Buckets,
    starts: &mut Deadlines,
    filled: usize,
    emptied: &mut Numbers,
) -> usize
    requires within { filled ≤ length buckets.old.entries }
    requires room { length buckets.old.entries ≤ length starts.old }
    requires split { IsSplitAside emptied.old filled buckets.old.entries }
    requires starts { AreStarts starts.old buckets.old.entries }
    ensures same { AreSame buckets.old.entries buckets.new.entries }
    ensures within { result ≤ length buckets.new.entries }
    ensures room { length buckets.new.entries ≤ length starts.new }
    ensures split { IsSplit result buckets.new.entries }
    ensures starts { AreStarts starts.new buckets.new.entries }
    ensures none { emptied.new ≡ [] }
{
    let mut filled = filled;
    while let Some(place) = emptied.pop() {
        filled = set_back(buckets, starts, filled, place);
    }
    filled
}

// Notes a place, unless enough are noted.
fn note(emptied: &mut Numbers, place: usize) -> bool
    ensures noted { result ≡ true → emptied.new ≡ emptied.old ++ place ∷ [] }
    ensures kept { result ≡ false → emptied.new ≡ emptied.old }
{
    if emptied.len() >= MOST {
        return false;
    }
    match emptied.push(place) {
        Ok(()) => true,
        Err(_) => false,
    }
}

// The place after the last bucket that may have instances, once the bucket at `place` stands behind them, if it has none.
#[inline(never)]
fn set_back(buckets: &mut Buckets, starts: &mut Deadlines, filled: usize, place: usize) -> usize
    requires within { filled ≤ length buckets.old.entries }
    requires room { length buckets.old.entries ≤ length starts.old }
    requires starts { AreStarts starts.old buckets.old.entries }
    ensures same { AreSame buckets.old.entries buckets.new.entries }
    ensures within { result ≤ length buckets.new.entries }
    ensures room { length buckets.new.entries ≤ length starts.new }
    ensures split { (noted : List ℕ) → IsSplitAside (noted ++ place ∷ []) filled buckets.old.entries → IsSplitAside noted result buckets.new.entries }
    ensures starts { AreStarts starts.new buckets.new.entries }
{
    let filled = last_filled(buckets, filled);
    if place >= filled || buckets[place].has_some() {
        return filled;
    }
    exchange(buckets, starts, place, filled - 1);
    filled - 1
}

// The place after the last bucket with instances before a place.
fn last_filled(buckets: &Buckets, filled: usize) -> usize
    requires { filled ≤ length buckets.now.entries }
    ensures within { result ≤ filled }
    ensures last { (d : InBuckets) → 0 < result → is_filled (slice_index_or buckets.now.entries (result - 1) d) ≡ true }
    ensures others { (number : ℕ) (d : InBuckets) → result ≤ number → number < filled → is_filled (slice_index_or buckets.now.entries number d) ≡ false }
{
    let mut filled = filled;
    while filled > 0 && !buckets[filled - 1].has_some() {
        filled -= 1;
    }
    filled
}
