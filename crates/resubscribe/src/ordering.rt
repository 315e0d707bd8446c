//! Again and again the first query of the file that isn't taken and whose read queries are all taken.
ghost use Rattle.std.specs.Prelude.{◌≡◌, ◌<◌, ◌≤◌, ◌++◌, ◌∷◌, [], ℕ, true, false, length, min, None, Some, IfOk, IfErr, MatchOption, slice_index};
ghost use Rattle.std.specs.List.{All, list_all};
ghost use Rattle.resubscribe.specs.Order.{IsOrder, TakesQuery, first_ready, first_untaken, is_among, is_ready};
ghost use Rattle.resubscribe.specs.Laws.{HasEachOnce, ReadsInCircle, StandsAfterReads};
ghost use Rattle.resubscribe.specs.Outcome.{IsRefusal, IsFirstFrom};

use crate::blocking::first_readers;
use crate::fault::OrderFault;
use crate::marked::Marked;
use crate::walking::cycle_of;
use event_types::{List, Memory, Numbers};
use std::alloc::Global;

/// For each query by its number the numbers of the queries that it reads, in reading order.
pub type Reads = List<Numbers>;

/// The order of the queries: again and again the first one of the file that isn't taken and whose read
/// queries are all taken. Where that can't go on to the end, a cycle.
pub fn order(alloc: Global, reads: &Reads) -> Result<Numbers, OrderFault>
    requires { All (λ numbers. All (λ number. number < length reads.now) numbers) reads.now }
    ensures ok { IfOk result (IsOrder reads.now) }
    ensures cycle { IfErr result (IsRefusal reads.now) }
    ensures each_once { IfOk result (HasEachOnce reads.now) }
    ensures after_reads { IfOk result (StandsAfterReads reads.now) }
{
    let taken = take_all(alloc, reads)?;
    match untaken(reads, &taken) {
        None => Ok(taken.into_numbers()),
        Some(start) => Err(OrderFault::Cycle(cycle_of(alloc, reads, &taken, start)?)),
    }
}

// The queries that can be taken.
fn take_all(alloc: Global, reads: &Reads) -> Result<Marked, Memory>
    requires { All (λ numbers. All (λ number. number < length reads.now) numbers) reads.now }
    ensures takes { IfOk result (λ taken. TakesQuery reads.now [] taken.numbers) }
    ensures none_ready { IfOk result (λ taken. first_ready reads.now taken.numbers ≡ None) }
    ensures size { IfOk result (λ taken. taken.size ≡ length reads.now) }
{
    let firsts = first_readers(alloc, reads)?;
    let mut taken = Marked::new(alloc, reads.len())?;
    let mut from = 0;
    while let Some(query) = ready_from(reads, &taken, from) {
        taken.put(query)?;
        from = (query + 1).min(firsts[query]);
    }
    Ok(taken)
}

// The first query from a place of the file on that is ready.
fn ready_from(reads: &Reads, taken: &Marked, from: usize) -> Option<usize>
    requires within { All (λ numbers. All (λ number. number < length reads.now) numbers) reads.now }
    requires size { taken.now.size ≡ length reads.now }
    ensures { IsFirstFrom (is_ready reads.now taken.now.numbers) from (length reads.now) result }
{
    for query in from..reads.len() {
        if !taken.has(query) && are_taken(reads.get(query).as_slice(), taken) {
            return Some(query);
        }
    }
    None
}

// Whether all of these queries are taken.
fn are_taken(queries: &[usize], taken: &Marked) -> bool
    requires { All (λ query. query < taken.now.size) queries.now }
    ensures { result ≡ list_all (is_among taken.now.numbers) queries.now }
{
    queries.iter().all(|query| taken.has(*query))
}

// The first query of the file that isn't taken.
fn untaken(reads: &Reads, taken: &Marked) -> Option<usize>
    requires { taken.now.size ≡ length reads.now }
    ensures { result ≡ first_untaken reads.now taken.now.numbers }
{
    for query in 0..reads.len() {
        if !taken.has(query) {
            return Some(query);
        }
    }
    None
}
