//! The decimals that fields write.
ghost use Rattle.std.specs.Prelude.{◌≡◌, ◌==◌, ◌*◌, ◌^◌, ◌<◌, ◌≤◌, ◌∷◌, ◌++◌, length, MatchOption};
ghost use Rattle.std.specs.List.{position_or_len};
ghost use Rattle.event_csv.specs.Decimals.{units_above, units_below, units_of, units_up_to};

use crate::fields::place_of;
use crate::numbers::{below_zero, up_to};

/// The units that a field of so many places writes.
pub(crate) fn units(places: u8, field: &[u8]) -> Option<i128>
    ensures { result ≡ units_of places field.now }
{
    match field {
        [] => None,
        [b'-', unsigned @ ..] => negative(places, unsigned),
        [b'+', unsigned @ ..] => positive(places, unsigned),
        _ => positive(places, field),
    }
}

fn negative(places: u8, field: &[u8]) -> Option<i128>
    ensures { result ≡ units_below places field.now }
{
    let number = unsigned(places, field, 1 << 127)?;
    Some(below_zero(number))
}

fn positive(places: u8, field: &[u8]) -> Option<i128>
    ensures { result ≡ units_above places field.now }
{
    let number = unsigned(places, field, i128::MAX as u128)?;
    Some(number as i128)
}

// The units, at most `most`, of a field without its sign.
fn unsigned(places: u8, field: &[u8], most: u128) -> Option<u128>
    requires { 9 ≤ most }
    ensures { result ≡ units_up_to most places field.now }
{
    let end = place_of(b'.', field);
    if end < field.len() {
        return pointed(places, &field[..end], &field[end + 1..], most);
    }
    with_zeros(up_to(field, most)?, places, most)
}

// The units, at most `most`, of what stands before a point and behind it.
fn pointed(places: u8, front: &[u8], behind: &[u8], most: u128) -> Option<u128>
    requires room { 9 ≤ most }
    requires first { position_or_len (λ b. b == 46) front.now ≡ length front.now }
    ensures { result ≡ units_up_to most places (front.now ++ 46 ∷ behind.now) }
{
    if behind.len() > places as usize {
        return None;
    }
    let whole = with_zeros(up_to(front, most)?, places, most)?;
    let part = with_zeros(up_to(behind, most)?, places - behind.len() as u8, most)?;
    if most - whole < part {
        None
    } else {
        Some(whole + part)
    }
}

// A number with so many zeros behind it, where that is at most `most`.
fn with_zeros(number: u128, zeros: u8, most: u128) -> Option<u128>
    requires { number ≤ most }
    ensures { MatchOption result (most < number * 10 ^ zeros) (λ found. (found ≡ number * 10 ^ zeros) × (found ≤ most)) }
{
    let tenth = most / 10;
    let mut found = number;
    for zero in 0..zeros {
        if tenth < found {
            return None;
        }
        found = found * 10;
    }
    Some(found)
}
