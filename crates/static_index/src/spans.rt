//! Ids by the span in which a number of the event lies.
ghost use Rattle.std.specs.Prelude.{Contains, OnOk};
ghost use Rattle.static_index.specs.Buckets.{KeepsIds, KeepsOtherIds};
ghost use Rattle.static_index.specs.Spans.{FindsSpans, span_ids};
ghost use Rattle.static_index.specs.declared.span.Span.{Span};

use crate::numbered::{Numbered, collect_near, put_numbered, take_numbered};
use crate::span::Span;
use event_types::{Memory, Numbers, Value};
use std::alloc::Global;
use std::collections::BTreeMap;

// The low ends of the spans of each reach.
pub(crate) type Spans = BTreeMap<u128, Numbered>;

// Puts an id under a span.
pub(crate) fn put_span(
    alloc: Global,
    spans: &mut Spans,
    span: Span,
    id: usize,
) -> Result<(), Memory>
    ensures ok { OnOk result (Contains (span_ids spans.new span) id) }
    ensures kept { (other : Span) → KeepsIds (span_ids spans.old other) (span_ids spans.new other) }
{
    if let Some(lows) = spans.get_mut(&span.reach) {
        return put_numbered(alloc, lows, span.low, id);
    }
    let mut lows = BTreeMap::new(alloc);
    put_numbered(alloc, &mut lows, span.low, id)?;
    spans.insert(span.reach, lows)?;
    Ok(())
}

// Takes an id away from under a span, and a reach that no span has left.
pub(crate) fn take_span(spans: &mut Spans, span: Span, id: usize)
    ensures { (other : Span) → KeepsOtherIds id (span_ids spans.old other) (span_ids spans.new other) }
{
    let Some(lows) = spans.get_mut(&span.reach) else {
        return;
    };
    take_numbered(lows, span.low, id);
    if lows.is_empty() {
        let _ = spans.remove(&span.reach);
    }
}

// Puts the ids of the spans in which a value lies behind those that are there.
pub(crate) fn collect_spans(spans: &Spans, value: &Value, found: &mut Numbers) -> Result<(), Memory>
    ensures kept { OnOk result (KeepsIds found.old found.new) }
    ensures found { OnOk result (FindsSpans value.now spans.now found.new) }
{
    'reaches: for (reach, lows) in spans {
        collect_near(lows, *reach, value, found)?;
    }
    Ok(())
}
