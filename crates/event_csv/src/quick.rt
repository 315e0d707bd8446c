//! The quick reading of a line, field by field, in one pass and without the reader of `csv`. Every line that is an event
//! by fields of few digits, and by texts that stand in it as they are, is read so; any other is left, and its fault isn't told.
ghost use Rattle.std.specs.Prelude.{◌≡◌, [], option_map, IfSome, Ok, Some};
ghost use Rattle.event_csv.specs.Decimals.{units_of};
ghost use Rattle.event_csv.specs.Event.{event};
ghost use Rattle.event_csv.specs.Fed.{IsLine};
ghost use Rattle.event_csv.specs.Quick.{DecFirst, IsFirst, PutsValue, SpanFirst, StreamFirst, WriteAll};

use crate::decimals::units;
use crate::event::{Seen, find_declared};
use crate::fields::may_have_mark;
use crate::front::{take_field, take_int, take_number};
use event_types::{Kind, List, StreamId, Text, Tuple, Vals, Value};
use std::alloc::Global;
use stream_schema::{Schema, Streams};

/// The event of a line, where it has one and is read quickly. The name of the stream `near` is compared before names are
/// looked up. It may be any number: that of the event before is found soonest where lines of one stream follow one
/// another. The event has its values in the list `spare`, if there is one, whose room is used again.
#[inline(always)]
pub fn read_quickly(
    alloc: Global,
    streams: &Streams,
    near: StreamId,
    spare: Option<Vals>,
    line: &[u8],
) -> Option<Seen>
    requires line { IsLine line.now }
    requires spare { IfSome spare (λ vals. vals ≡ []) }
    ensures { IfSome result (λ seen. event streams.now line.now ≡ Ok seen) }
{
    if may_have_mark(line) {
        return None;
    }
    let (stream, rest) = take_stream(streams, near, line)?;
    let ((from, at), rest) = take_span(rest)?;
    let vals = take_values(alloc, streams.schema(stream), spare, rest)?;
    match Tuple::make(vals, from, at) {
        Ok(tuple) => Some(Seen { stream, tuple }),
        Err(_) => None,
    }
}

/// The declared stream that the first field names, and the fields behind it.
#[inline(always)]
pub(crate) fn take_stream<'a>(
    streams: &Streams,
    near: StreamId,
    line: &'a [u8],
) -> Option<(StreamId, &'a [u8])>
    ensures { IfSome result (λ r. StreamFirst streams.now line.now r.0 r.1.now) }
{
    if let Some(rest) = behind_near(streams, near, line) {
        return Some((near, rest));
    }
    let (name, rest) = take_field(line)?;
    let stream = find_declared(streams, near, name)?;
    let rest = rest?;
    Some((stream, rest))
}

// The fields behind the name of the stream `near`, where that is declared and its name begins the line, so that no field
// is cut before it is compared.
#[inline(always)]
fn behind_near<'a>(streams: &Streams, near: StreamId, line: &'a [u8]) -> Option<&'a [u8]>
    ensures { IfSome result (λ rest. StreamFirst streams.now line.now near rest.now) }
{
    let name = streams.named(near)?;
    if streams.declared(near) {
        behind_name(name, line)
    } else {
        None
    }
}

// The fields behind a name that begins the text, where each byte of the name is beyond the comma.
#[inline(always)]
fn behind_name<'a>(name: &str, text: &'a [u8]) -> Option<&'a [u8]>
    ensures { IfSome result (λ rest. IsFirst text.now name.now (Some rest.now)) }
{
    let bytes = name.as_bytes();
    let end = bytes.len();
    if text.len() <= end {
        return None;
    }
    if text[end] != b',' {
        return None;
    }
    for place in 0..end {
        let byte = bytes[place];
        if byte <= b',' {
            return None;
        }
        if text[place] != byte {
            return None;
        }
    }
    Some(&text[end + 1..])
}

// The times of the fields at the front, and the fields behind them.
#[inline(always)]
fn take_span(text: &[u8]) -> Option<((u64, u64), Option<&[u8]>)>
    ensures { IfSome result (λ r. SpanFirst text.now r.0 (option_map (λ s. s.now) r.1)) }
{
    if 0 < text.len() && text[0] == b',' {
        let (at, rest) = take_number(&text[1..])?;
        return Some(((at, at), rest));
    }
    let (from, rest) = take_number(text)?;
    let (at, rest) = take_number(rest?)?;
    if at < from {
        return None;
    }
    Some(((from, at), rest))
}

// The values of the fields that are left, where there is one for each attribute, put into the spare list or else a new one.
#[inline(always)]
fn take_values(
    alloc: Global,
    schema: &Schema,
    spare: Option<Vals>,
    rest: Option<&[u8]>,
) -> Option<Vals>
    requires { IfSome spare (λ vals. vals ≡ []) }
    ensures { IfSome result (WriteAll schema.now (option_map (λ s. s.now) rest.entry)) }
{
    let mut rest = rest;
    let mut vals = empty_vals(alloc, schema.size(), spare)?;
    'fields: while let Some(text) = rest {
        let place = vals.len();
        if schema.size() <= place {
            return None;
        }
        let left = put_value(alloc, schema.kind(place), text, &mut vals)?;
        rest = left;
    }
    if vals.len() == schema.size() {
        Some(vals)
    } else {
        None
    }
}

// The spare list, or else a new one with room for so many values.
#[inline(always)]
fn empty_vals(alloc: Global, size: usize, spare: Option<Vals>) -> Option<Vals>
    requires { IfSome spare (λ vals. vals ≡ []) }
    ensures { IfSome result (λ vals. vals ≡ []) }
{
    match spare {
        Some(vals) => Some(vals),
        None => List::with_room(alloc, size).ok(),
    }
}

// Puts the value of the field at the front behind others, and gives the fields behind it. Each kind of value is put where
// it is made, so that none is moved.
#[inline(always)]
fn put_value<'a>(
    alloc: Global,
    kind: Kind,
    text: &'a [u8],
    vals: &mut Vals,
) -> Option<Option<&'a [u8]>>
    ensures { IfSome result (λ left. PutsValue kind text.now vals.old vals.new (option_map (λ s. s.now) left)) }
{
    match kind {
        Kind::Int => {
            let (number, rest) = take_int(text)?;
            match vals.add(Value::Int(number)) {
                Err(_) => None,
                Ok(()) => Some(rest),
            }
        }
        Kind::Text => {
            let (field, rest) = take_field(text)?;
            let Ok(made) = Text::make(alloc, field) else {
                return None;
            };
            match vals.add(Value::Text(made)) {
                Err(_) => None,
                Ok(()) => Some(rest),
            }
        }
        Kind::Dec(places) => {
            let (units, rest) = take_decimal(places, text)?;
            match vals.add(Value::Dec {
                scale: places,
                units,
            }) {
                Err(_) => None,
                Ok(()) => Some(rest),
            }
        }
    }
}

// The units of the decimal at the front, which has so many places, where they have 64 bits, and the fields behind it.
#[inline(always)]
fn take_decimal(places: u8, text: &[u8]) -> Option<(i128, Option<&[u8]>)>
    ensures { IfSome result (λ r. DecFirst places text.now r.0 (option_map (λ s. s.now) r.1)) }
{
    let (field, rest) = take_field(text)?;
    let units = few_units(places, field.as_bytes())?;
    Some((units as i128, rest))
}

// The units of a field of so many places, where they have 64 bits. Out of line, since few streams have decimals.
#[inline(never)]
fn few_units(places: u8, field: &[u8]) -> Option<i64>
    ensures { IfSome result (λ number. units_of places field.now ≡ Some number) }
{
    let units = units(places, field)?;
    i64::try_from(units).ok()
}
