//! Instances whose bounds on DUR can still be met.
ghost use Rattle.std.specs.Prelude.{◌≡◌, ◌+◌, ◌≤◌, ℕ, max, nat_le, All};
ghost use Rattle.instances.specs.Alive.{is_alive, meets_bound};
ghost use Rattle.scalar_expr.specs.Classes.{class_of_part};
ghost use Rattle.instances.specs.Bounds.{alive_instances, started};

use crate::instance::Instance;
use inst_chain::Chain;
use scalar_expr::{Conj, Part};

/// Takes out of a chain the instances that no event after `now` can match, as the bounds on DUR tell.
/// It gives a time before which none of the others starts. Takes no memory.
pub fn keep_alive(chain: &mut Chain<Instance>, condition: &Conj, now: u64) -> u64
    ensures alive { chain.new ≡ alive_instances (now + 1) condition.now chain.old }
    ensures oldest { All (λ instance. result ≤ instance.tuple.from) chain.new }
{
    let earliest = earliest_alive(condition, now);
    let mut oldest = u64::MAX;
    let mut walk = chain.walk();
    while let Some(instance) = walk.get() {
        let from = instance.tuple.from();
        if earliest <= from as u128 {
            oldest = oldest.min(from);
            walk.step();
        } else {
            let _ = walk.unlink();
        }
    }
    oldest
}

/// The earliest start of a binding with which an event after `now` may meet each bound part. Starts after
/// it may do so too. Takes no memory.
pub fn earliest_alive(condition: &Conj, now: u64) -> u128
    ensures { (from : ℕ) → is_alive (now + 1) condition.now (started from) ≡ nat_le result from }
{
    let mut earliest = 0;
    let mut place = 0;
    while place < condition.size() {
        earliest = later(earliest, earliest_within(condition.part(place), now));
        place += 1;
    }
    earliest
}

// The earliest start with which an event after `now` may meet a part, as far as a bound tells.
fn earliest_within(part: Part<'_>, now: u64) -> u128
    ensures { (from : ℕ) → meets_bound (now + 1) (started from) (class_of_part part.entry) ≡ nat_le result from }
{
    match part {
        Part::Bound { strict, most } => {
            let time = now as u128 + if strict { 2 } else { 1 };
            if most < 0 {
                time + most.unsigned_abs()
            } else {
                time.saturating_sub(most.unsigned_abs())
            }
        }
        _ => 0,
    }
}

// The later of two starts.
fn later(start: u128, other: u128) -> u128
    ensures { result ≡ max start other }
{
    if start < other { other } else { start }
}
