//! The reading of a line by copies of its fields, whatever stands around them and in them, without the reader of `csv`.
ghost use Rattle.std.specs.Prelude.{◌≡◌, option_map, IfSome, Ok};
ghost use Rattle.event_csv.specs.Event.{event};
ghost use Rattle.event_csv.specs.Fed.{IsLine};
ghost use Rattle.event_csv.specs.Quick.{PutsValue, SpanFirst, WriteAll};

use crate::event::{Seen, read_value, span};
use crate::fields::may_have_mark;
use crate::quick::take_stream;
use crate::quotes::take_any;
use event_types::{Kind, List, Tuple, Vals};
use std::alloc::Global;
use stream_schema::{Schema, Streams};

/// The event of a line, where it has one, no mark begins it, and the last quote of no field is missing.
#[inline(never)]
pub(crate) fn read_copied(alloc: Global, streams: &Streams, line: &[u8]) -> Option<Seen>
    requires { IsLine line.now }
    ensures { IfSome result (λ seen. event streams.now line.now ≡ Ok seen) }
{
    if may_have_mark(line) {
        return None;
    }
    let (stream, rest) = take_stream(streams, 0, line)?;
    let ((from, at), rest) = take_any_span(alloc, rest)?;
    let vals = take_any_values(alloc, streams.schema(stream), rest)?;
    match Tuple::make(vals, from, at) {
        Ok(tuple) => Some(Seen { stream, tuple }),
        Err(_) => None,
    }
}

// The times of the fields at the front, and the fields behind them.
fn take_any_span(alloc: Global, text: &[u8]) -> Option<((u64, u64), Option<&[u8]>)>
    ensures { IfSome result (λ r. SpanFirst text.now r.0 (option_map (λ s. s.now) r.1)) }
{
    let (start, rest) = take_any(alloc, text)?;
    let (detection, rest) = take_any(alloc, rest?)?;
    match span(start.as_str(), detection.as_str()) {
        Err(_) => None,
        Ok(times) => Some((times, rest)),
    }
}

// The values of the fields that are left, where there is one for each attribute.
fn take_any_values(alloc: Global, schema: &Schema, rest: Option<&[u8]>) -> Option<Vals>
    ensures { IfSome result (WriteAll schema.now (option_map (λ s. s.now) rest.entry)) }
{
    let mut rest = rest;
    let mut vals = List::new(alloc);
    'fields: while let Some(text) = rest {
        let place = vals.len();
        if schema.size() <= place {
            return None;
        }
        let left = put_any(alloc, schema.kind(place), text, &mut vals)?;
        rest = left;
    }
    if vals.len() == schema.size() {
        Some(vals)
    } else {
        None
    }
}

// Puts the value of the field at the front behind others, and gives the fields behind it.
fn put_any<'a>(
    alloc: Global,
    kind: Kind,
    text: &'a [u8],
    vals: &mut Vals,
) -> Option<Option<&'a [u8]>>
    ensures { IfSome result (λ left. PutsValue kind text.now vals.old vals.new (option_map (λ s. s.now) left)) }
{
    let (field, rest) = take_any(alloc, text)?;
    match read_value(alloc, kind, field.as_str()) {
        Ok(Some(value)) => match vals.add(value) {
            Err(_) => None,
            Ok(()) => Some(rest),
        },
        _ => None,
    }
}
