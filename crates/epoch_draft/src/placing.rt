//! Places in the order of the tuples that stand there.
ghost use Rattle.std.specs.Prelude.{◌≡◌, ◌<◌, OnOk, ℕ, length, take};
ghost use Rattle.std.specs.List.{All};
ghost use Rattle.event_types.specs.Order.{sorted};
ghost use Rattle.epoch_draft.specs.Made.{place_cmp, placed};

use event_types::{Memory, Tuple};
use short_lists::ShortList;
use std::cmp::Ordering;

/// Puts places in the order of the tuples there. `room` is used anew. After want of memory the places are of no more
/// use.
pub(crate) fn put_places_in_order(
    places: &mut ShortList,
    tuples: &[Tuple],
    room: &mut Vec<usize>,
) -> Result<(), Memory>
    requires { All (λ place. place < length tuples.now) places.old }
    ensures below { All (λ place. place < length tuples.now) places.new }
    ensures ordered { OnOk result (placed tuples.now places.new ≡ sorted (placed tuples.now places.old)) }
{
    if places.len() == 2 {
        put_two_in_order(places, tuples);
        return Ok(());
    }
    put_many_in_order(places, tuples, room)
}

// The same for two places. Takes no memory.
fn put_two_in_order(places: &mut ShortList, tuples: &[Tuple])
    requires two { length places.old ≡ 2 }
    requires below { All (λ place. place < length tuples.now) places.old }
    ensures below { All (λ place. place < length tuples.now) places.new }
    ensures ordered { placed tuples.now places.new ≡ sorted (placed tuples.now places.old) }
{
    let both = places.as_slice();
    let (first, second) = (both[0], both[1]);
    if tuples[first] > tuples[second] {
        places.set(0, second);
        places.set(1, first);
    }
}

// The same for any number of places.
fn put_many_in_order(
    places: &mut ShortList,
    tuples: &[Tuple],
    room: &mut Vec<usize>,
) -> Result<(), Memory>
    requires { All (λ place. place < length tuples.now) places.old }
    ensures below { All (λ place. place < length tuples.now) places.new }
    ensures ordered { OnOk result (placed tuples.now places.new ≡ sorted (placed tuples.now places.old)) }
{
    room.clear();
    room.extend_from_slice(places.as_slice())?;
    sort_places(room, tuples);
    fill(places, room.as_slice())
}

// Sorts places by the tuples there. Takes no memory.
fn sort_places(places: &mut Vec<usize>, tuples: &[Tuple])
    requires { All (λ place. place < length tuples.now) places.old.items }
    ensures below { All (λ place. place < length tuples.now) places.new.items }
    ensures sorted { placed tuples.now places.new.items ≡ sorted (placed tuples.now places.old.items) }
{
    places.sort_unstable_by(|one, other| compare(tuples, *one, *other));
}

// The order of the tuples at two places; a place that has none is before those that have one.
fn compare(tuples: &[Tuple], one: usize, other: usize) -> Ordering
    ensures { result ≡ place_cmp tuples.now one other }
{
    match (tuples.get(one), tuples.get(other)) {
        (Some(one), Some(other)) => one.cmp(other),
        (one, other) => one.is_some().cmp(&other.is_some()),
    }
}

// Makes these the numbers of a list, or after want of memory some of them.
fn fill(list: &mut ShortList, numbers: &[usize]) -> Result<(), Memory>
    ensures filled { OnOk result (list.new ≡ numbers.now) }
    ensures part { (count : ℕ) × (list.new ≡ take count numbers.now) }
{
    list.clear();
    for number in numbers {
        list.add(*number)?;
    }
    Ok(())
}
