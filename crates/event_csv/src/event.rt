//! The event of a line.
ghost use Rattle.std.specs.Prelude.{◌≡◌, ◌+◌, ◌<◌, ◌≤◌, length, IfOk, IfErr, IfSome};
ghost use Rattle.stream_schema.specs.Schema.{kinds_of};
ghost use Rattle.stream_schema.specs.Streams.{number_of, schemas_of};
ghost use Rattle.event_csv.specs.Event.{Tells, ValuesTell, counted_event, declared_stream, event, fields_event, no_value, span_of, stream_with, value_of, values_of};
ghost use Rattle.event_csv.specs.Fed.{IsLine};
ghost use Rattle.event_csv.specs.Fields.{fields_left};

use crate::copied::read_copied;
use crate::decimals::units;
use crate::fault::{LineFault, ReadFail};
use crate::fields::{Fields, is_plain, record_of};
use crate::numbers::{int, time};
use event_types::{Kind, List, Memory, StreamId, Text, Tuple, Vals, Value};
use std::alloc::Global;
use stream_schema::{Schema, Streams};

/// An event: a tuple of a declared stream, whose number counts from 0.
#[derive(Drop)]
pub struct Seen {
    pub stream: StreamId,
    pub tuple: Tuple,
}

/// The event of a line, or the line's first fault. Most lines are read sooner by `read_quickly`; this is for those that it
/// leaves, and tries it no second time.
pub fn read_event(alloc: Global, streams: &Streams, line: &[u8]) -> Result<Seen, ReadFail>
    requires { IsLine line.now }
    ensures ok { IfOk result (λ seen. event streams.now line.now ≡ Ok seen) }
    ensures bad { IfErr result (Tells (event streams.now line.now)) }
{
    match read_copied(alloc, streams, line) {
        Some(seen) => Ok(seen),
        None => read_slowly(alloc, streams, line),
    }
}

// The event of any line, or its first fault. Out of line, since a reader of `csv` holds a long buffer.
#[inline(never)]
fn read_slowly(alloc: Global, streams: &Streams, line: &[u8]) -> Result<Seen, ReadFail>
    requires { IsLine line.now }
    ensures ok { IfOk result (λ seen. event streams.now line.now ≡ Ok seen) }
    ensures bad { IfErr result (Tells (event streams.now line.now)) }
{
    let Ok(text) = std::str::from_utf8(line) else {
        return Err(ReadFail::Bad(LineFault::NotUtf8));
    };
    if is_plain(line) {
        return read_fields(alloc, streams, Fields::Line(Some(text)));
    }
    match record_of(alloc, line) {
        Err(_) => Err(ReadFail::Memory),
        Ok(None) => Err(ReadFail::Bad(LineFault::UnknownStream)),
        Ok(Some(row)) => read_fields(alloc, streams, Fields::Row(&row, 0)),
    }
}

// The event of the fields of a line.
fn read_fields(alloc: Global, streams: &Streams, fields: Fields<'_>) -> Result<Seen, ReadFail>
    ensures ok { IfOk result (λ seen. fields_event streams.now (fields_left fields.entry) ≡ Ok seen) }
    ensures bad { IfErr result (Tells (fields_event streams.now (fields_left fields.entry))) }
{
    let mut fields = fields;
    let got = fields.count();
    let Some(name) = fields.next() else {
        return Err(ReadFail::Bad(LineFault::UnknownStream));
    };
    let Some(stream) = find_declared(streams, 0, name) else {
        return Err(ReadFail::Bad(LineFault::UnknownStream));
    };
    read_tuple(alloc, stream, streams.schema(stream), got, fields)
}

/// The number of the declared stream of a name; the stream `near` is tried first.
pub(crate) fn find_declared(streams: &Streams, near: StreamId, name: &str) -> Option<StreamId>
    ensures within { IfSome result (λ stream. stream < length streams.now) }
    ensures value { declared_stream streams.now (number_of name.now streams.now) ≡ stream_with (schemas_of streams.now) result }
{
    let stream = streams.find_near(near, name)?;
    if streams.declared(stream) {
        Some(stream)
    } else {
        None
    }
}

// The event of a stream by the fields behind the name; the line has `got` fields.
fn read_tuple(
    alloc: Global,
    stream: StreamId,
    schema: &Schema,
    got: usize,
    fields: Fields<'_>,
) -> Result<Seen, ReadFail>
    requires { got ≡ length (fields_left fields) + 1 }
    ensures ok { IfOk result (λ seen. counted_event stream (kinds_of schema.now) (fields_left fields.entry) ≡ Ok seen) }
    ensures bad { IfErr result (Tells (counted_event stream (kinds_of schema.now) (fields_left fields.entry))) }
{
    let mut fields = fields;
    let want = schema.size() + 3;
    if got != want {
        return Err(ReadFail::Bad(LineFault::FieldCount { want, got }));
    }
    let (Some(start), Some(detection)) = (fields.next(), fields.next()) else {
        return Err(ReadFail::Bad(LineFault::FieldCount { want, got }));
    };
    let (from, at) = match span(start, detection) {
        Ok(span) => span,
        Err(fault) => return Err(ReadFail::Bad(fault)),
    };
    let vals = read_values(alloc, schema, &mut fields)?;
    match Tuple::make(vals, from, at) {
        Ok(tuple) => Ok(Seen { stream, tuple }),
        Err(_) => Err(ReadFail::Bad(LineFault::StartAfterDetection)),
    }
}

/// The times of an event, by its second field and its third: an empty start is the detection.
pub(crate) fn span(start: &str, detection: &str) -> Result<(u64, u64), LineFault>
    ensures value { result ≡ span_of start.now detection.now }
    ensures in_order { IfOk result (λ span. span.0 ≤ span.1) }
{
    let at = time(detection.as_bytes());
    if start.is_empty() {
        return match at {
            None => Err(LineFault::BadTime { field: 3 }),
            Some(at) => Ok((at, at)),
        };
    }
    match (time(start.as_bytes()), at) {
        (None, _) => Err(LineFault::BadTime { field: 2 }),
        (Some(_), None) => Err(LineFault::BadTime { field: 3 }),
        (Some(from), Some(at)) if at < from => Err(LineFault::StartAfterDetection),
        (Some(from), Some(at)) => Ok((from, at)),
    }
}

// The values of the fields that are left, of which there is one for each attribute.
fn read_values(alloc: Global, schema: &Schema, fields: &mut Fields<'_>) -> Result<Vals, ReadFail>
    requires { length (fields_left fields.old) ≡ length schema.now }
    ensures ok { IfOk result (λ vals. values_of 4 (kinds_of schema.now) (fields_left fields.old) ≡ Ok vals) }
    ensures bad { IfErr result (ValuesTell (values_of 4 (kinds_of schema.now) (fields_left fields.old))) }
{
    let mut vals = List::new(alloc);
    'fields: while let Some(field) = fields.next() {
        let place = vals.len();
        let kind = schema.kind(place);
        match read_value(alloc, kind, field) {
            Err(_) => return Err(ReadFail::Memory),
            Ok(None) => return Err(ReadFail::Bad(no_value(kind, place + 4))),
            Ok(Some(value)) => match vals.push(value) {
                Err(_) => return Err(ReadFail::Memory),
                Ok(()) => {}
            },
        }
    }
    Ok(vals)
}

/// The value that a field of a kind writes.
pub(crate) fn read_value(alloc: Global, kind: Kind, field: &str) -> Result<Option<Value>, Memory>
    ensures { IfOk result (λ found. found ≡ value_of kind field.now) }
{
    match kind {
        Kind::Int => match int(field.as_bytes()) {
            None => Ok(None),
            Some(number) => Ok(Some(Value::Int(number))),
        },
        Kind::Text => Ok(Some(Value::Text(Text::make(alloc, field)?))),
        Kind::Dec(places) => match units(places, field.as_bytes()) {
            None => Ok(None),
            Some(units) => Ok(Some(Value::Dec {
                scale: places,
                units,
            })),
        },
    }
}

// The fault of a field of that number which writes no value of its kind.
fn no_value(kind: Kind, field: usize) -> LineFault
    ensures { result ≡ no_value kind field }
{
    match kind {
        Kind::Dec(places) => LineFault::BadDec { field, places },
        _ => LineFault::BadInt { field },
    }
}
