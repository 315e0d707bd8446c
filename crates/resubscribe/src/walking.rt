//! The walk along leftmost untaken reads, and its cycle.
ghost use Rattle.std.specs.Prelude.{◌≡◌, ◌<◌, ◌≤◌, ◌==◌, [], ℕ, true, false, drop, length, None, Some, IfOk};
ghost use Rattle.std.specs.List.{All, position_or_len};
ghost use Rattle.resubscribe.specs.Cycle.{IsCycle, untaken_read};
ghost use Rattle.resubscribe.specs.Order.{TakesQuery, first_ready, first_untaken, is_among};

use crate::marked::Marked;
use crate::ordering::Reads;
use event_types::{List, Memory, Numbers};
use std::alloc::Global;

/// The cycle of the walk from the first untaken query, by the queries' numbers from 0: each reads the next, and the last
/// reads the first.
pub fn cycle_of(
    alloc: Global,
    reads: &Reads,
    taken: &Marked,
    start: usize,
) -> Result<Numbers, Memory>
    requires within { All (λ numbers. All (λ number. number < length reads.now) numbers) reads.now }
    requires size { taken.now.size ≡ length reads.now }
    requires takes { TakesQuery reads.now [] taken.now.numbers }
    requires none_ready { first_ready reads.now taken.now.numbers ≡ None }
    requires begins { first_untaken reads.now taken.now.numbers ≡ Some start }
    ensures { IfOk result (IsCycle reads.now) }
{
    let mut walk = Marked::new(alloc, reads.len())?;
    let mut query = start;
    while !walk.has(query) {
        walk.put(query)?;
        query = next_of(reads, taken, query);
    }
    rest_from(alloc, walk.numbers().as_slice(), query)
}

// The leftmost untaken read of an untaken query, where no query is ready.
fn next_of(reads: &Reads, taken: &Marked, query: usize) -> usize
    requires within { All (λ numbers. All (λ number. number < length reads.now) numbers) reads.now }
    requires size { taken.now.size ≡ length reads.now }
    requires none_ready { first_ready reads.now taken.now.numbers ≡ None }
    requires small { query < length reads.now }
    requires untaken { is_among taken.now.numbers query ≡ false }
    ensures next { untaken_read reads.now taken.now.numbers query ≡ Some result }
    ensures small { result < length reads.now }
    ensures untaken { is_among taken.now.numbers result ≡ false }
{
    for read in reads.get(query).as_slice() {
        if !taken.has(*read) {
            return *read;
        }
    }
    unreachable!()
}

// The numbers from the first place of a number on.
fn rest_from(alloc: Global, numbers: &[usize], number: usize) -> Result<Numbers, Memory>
    ensures { IfOk result (λ rest. rest ≡ drop (position_or_len (λ other. number == other) numbers.now) numbers.now) }
{
    let begin = place_of(numbers, number);
    let mut rest: Numbers = List::new(alloc);
    for other in &numbers[begin..] {
        rest.add(*other)?;
    }
    Ok(rest)
}

// The first place of a number, or the length where it is absent.
fn place_of(numbers: &[usize], number: usize) -> usize
    ensures value { result ≡ position_or_len (λ other. number == other) numbers.now }
    ensures within { result ≤ length numbers.now }
{
    for (place, other) in numbers.iter().enumerate() {
        if number == *other {
            return place;
        }
    }
    numbers.len()
}
