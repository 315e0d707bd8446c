//! The quick writing of a tail, in one pass from its end to its start and without the writer of `csv`. Every tail is
//! written so that the room holds, of whose numbers none has more than 64 bits and whose texts call for no quotes; any
//! other is left.
ghost use Rattle.std.specs.Prelude.{◌≤◌, ◌∷◌, [], length, decimal, IfSome};
ghost use Rattle.std.specs.List.{flat_map};
ghost use Rattle.std.specs.Fmt.{signed_decimal};
ghost use Rattle.result_text.specs.Quick.{IsAtEnd, IsBefore};
ghost use Rattle.result_text.specs.Tails.{tail_text};
ghost use Rattle.semantics.specs.Report.{decimal_text, quoted, value_text, with_places, with_point};

use crate::front::is_special;
use event_types::{Tuple, Value};
use itoa::write_digits;

/// Writes the tail of a tuple's line at the end of the room, where that is done quickly, and gives the place where the
/// tail starts.
#[inline(always)]
pub(crate) fn write_quickly(room: &mut [u8], tuple: &Tuple) -> Option<usize>
    ensures { IfSome result (λ start. IsAtEnd (tail_text tuple.now) room.new start) }
{
    let end = room.len();
    let start = put_byte(room, end, b'\n')?;
    let start = put_values(room, start, tuple.vals().as_slice())?;
    let start = put_number(room, start, tuple.at())?;
    let start = put_byte(room, start, b',')?;
    put_number(room, start, tuple.from())
}

// Writes values before what stands at a place, each behind a comma.
#[inline(always)]
fn put_values(room: &mut [u8], end: usize, vals: &[Value]) -> Option<usize>
    requires { end ≤ length room.old }
    ensures { IfSome result (λ start. IsBefore (flat_map (λ value. 44 ∷ value_text value) vals.now) room.old end room.new start) }
{
    let mut start = end;
    for place in (0..vals.len()).rev() {
        let text = put_value(room, start, &vals[place])?;
        start = put_byte(room, text, b',')?;
    }
    Some(start)
}

// Writes a value before what stands at a place.
#[inline(always)]
fn put_value(room: &mut [u8], end: usize, value: &Value) -> Option<usize>
    requires { end ≤ length room.old }
    ensures { IfSome result (λ start. IsBefore (value_text value.now) room.old end room.new start) }
{
    match value {
        Value::Int(number) => put_int(room, end, *number),
        Value::Over => put_text(room, end, b"OVER"),
        Value::Text(text) => put_text(room, end, text.as_str().as_bytes()),
        Value::Dec { scale, units } => put_decimal(room, end, *scale, *units),
    }
}

// Writes a text before what stands at a place, where it calls for no quotes.
#[inline(always)]
fn put_text(room: &mut [u8], end: usize, text: &[u8]) -> Option<usize>
    requires { end ≤ length room.old }
    ensures { IfSome result (λ start. IsBefore (quoted text.now) room.old end room.new start) }
{
    if end < text.len() {
        return None;
    }
    let start = end - text.len();
    for place in (0..text.len()).rev() {
        let byte = text[place];
        if is_special(byte) {
            return None;
        }
        room[start + place] = byte;
    }
    Some(start)
}

// Writes a whole number before what stands at a place. Most are not below zero.
#[inline(always)]
fn put_int(room: &mut [u8], end: usize, number: i128) -> Option<usize>
    requires { end ≤ length room.old }
    ensures { IfSome result (λ start. IsBefore (signed_decimal number) room.old end room.new start) }
{
    if 0 <= number && number <= u64::MAX as i128 {
        return put_number(room, end, number as u64);
    }
    put_decimal(room, end, 0, number)
}

// Writes a decimal before what stands at a place.
#[inline(never)]
fn put_decimal(room: &mut [u8], end: usize, scale: u8, units: i128) -> Option<usize>
    requires { end ≤ length room.old }
    ensures { IfSome result (λ start. IsBefore (decimal_text scale units) room.old end room.new start) }
{
    let number = units.unsigned_abs();
    if (u64::MAX as u128) < number {
        return None;
    }
    let start = put_places(room, end, scale, number as u64)?;
    if units < 0 {
        put_byte(room, start, b'-')
    } else {
        Some(start)
    }
}

// Writes a number of so many places before what stands at a place of the room.
fn put_places(room: &mut [u8], end: usize, places: u8, number: u64) -> Option<usize>
    requires { end ≤ length room.old }
    ensures { IfSome result (λ start. IsBefore (with_places places number) room.old end room.new start) }
{
    if places == 0 {
        put_number(room, end, number)
    } else {
        put_point(room, end, places, number)
    }
}

// Writes a number with a point before its last so many digits.
fn put_point(room: &mut [u8], end: usize, places: u8, number: u64) -> Option<usize>
    requires { end ≤ length room.old }
    ensures { IfSome result (λ start. IsBefore (with_point places number) room.old end room.new start) }
{
    if places == 0 {
        let start = put_byte(room, end, b'.')?;
        return put_number(room, start, number);
    }
    let start = put_byte(room, end, b'0' + (number % 10) as u8)?;
    put_point(room, start, places - 1, number / 10)
}

// Writes a number before what stands at a place.
#[inline(always)]
fn put_number(room: &mut [u8], end: usize, number: u64) -> Option<usize>
    requires { end ≤ length room.old }
    ensures { IfSome result (λ start. IsBefore (decimal number) room.old end room.new start) }
{
    if end < MOST_DIGITS {
        return None;
    }
    Some(write_digits(number, room, end))
}

// Writes a byte before what stands at a place.
#[inline(always)]
fn put_byte(room: &mut [u8], end: usize, byte: u8) -> Option<usize>
    requires { end ≤ length room.old }
    ensures { IfSome result (λ start. IsBefore (byte ∷ []) room.old end room.new start) }
{
    if end == 0 {
        return None;
    }
    let start = end - 1;
    room[start] = byte;
    Some(start)
}

// The most digits of a number of 64 bits.
const MOST_DIGITS: usize = 20;
