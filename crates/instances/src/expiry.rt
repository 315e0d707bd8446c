//! When instances can be matched no more.
ghost use Rattle.std.specs.Prelude.{◌≡◌, ◌+◌, ◌-◌, ◌^◌, ◌<◌, ℕ, nat_lt};
ghost use Rattle.instances.specs.Alive.{is_alive, meets_bound};
ghost use Rattle.instances.specs.Bounds.{LastUntil, started};
ghost use Rattle.scalar_expr.specs.Classes.{class_of_part};

use scalar_expr::{Conj, Part};

/// The time from which on no event can match a binding of this start, as the bounds on DUR tell, or 2^128-1
/// where there is none. Takes no memory.
pub fn expires_at(condition: &Conj, from: u64) -> u128
    ensures { (time : ℕ) → time < 2 ^ 128 - 1 → is_alive time condition.now (started from) ≡ nat_lt time result }
{
    let mut end = u128::MAX;
    let mut place = 0;
    while place < condition.size() {
        end = end.min(end_within(condition.part(place), from));
        place += 1;
    }
    end
}

/// A deadline of the instances that a purge at `now` left, of which none starts before `oldest`. Takes no
/// memory.
pub fn purged_until(condition: &Conj, oldest: u64, now: u64) -> u128
    ensures later { now + 1 < result }
    ensures until { LastUntil result (now + 1) oldest condition.now }
{
    expires_at(condition, oldest).max(now as u128 + 2)
}

// The time from which on no event meets a part with a binding of this start, as far as a bound tells.
fn end_within(part: Part<'_>, from: u64) -> u128
    ensures { (time : ℕ) → time < 2 ^ 128 - 1 → meets_bound time (started from) (class_of_part part.entry) ≡ nat_lt time result }
{
    match part {
        Part::Bound { strict, most } => {
            let start = from as u128 + if strict { 0 } else { 1 };
            if most < 0 {
                start.saturating_sub(most.unsigned_abs())
            } else {
                start + most.unsigned_abs()
            }
        }
        _ => u128::MAX,
    }
}
