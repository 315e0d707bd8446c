//! Ids by what one attribute of the event is compared with.
ghost use Rattle.std.specs.Prelude.{◌≡◌, length, Contains, OnOk};
ghost use Rattle.event_types.specs.declared.comparison.Cmp.TheVariants.{Eq};
ghost use Rattle.semantics.specs.Values.{value_at};
ghost use Rattle.static_index.specs.Buckets.{KeepsIds, KeepsOtherIds};
ghost use Rattle.static_index.specs.Columns.{FindsUnder, ids_compared, ids_under};
ghost use Rattle.static_index.specs.Headings.{Label, label};

use crate::hashed::{Hashed, collect_hashed, put_hashed, take_hashed};
use crate::heading::Heading;
use crate::ids::{Ids, append};
use crate::limits::Limits;
use crate::spans::{Spans, collect_spans, put_span, take_span};
use event_types::{Cmp, Memory, Numbers, Tuple, Value};
use indexmap::IndexMap;
use std::alloc::Global;
use std::collections::BTreeMap;

// The ids under each heading of an attribute. Numbers and texts never meet: a range ends where the values of the
// other kind begin.
#[derive(Drop)]
pub(crate) struct Column {
    equal: Hashed,
    // under `>` and `>=`
    above: Limits,
    // under `<` and `<=`
    below: Limits,
    // under `<>`, whatever the literal
    unequal: Ids,
    // in ranges of numbers that are bounded on both sides
    spans: Spans,
}

impl Column {
    pub(crate) fn new(alloc: Global) -> Column {
        Column {
            equal: IndexMap::new(alloc),
            above: Limits::new(alloc),
            below: Limits::new(alloc),
            unequal: Ids::new(alloc),
            spans: BTreeMap::new(alloc),
        }
    }

    // Puts an id under a heading.
    pub(crate) fn put(
        &mut self,
        alloc: Global,
        heading: Heading<'_>,
        id: usize,
    ) -> Result<(), Memory>
        ensures ok { OnOk result (Contains (ids_under self.new (label heading.entry)) id) }
        ensures kept { (other : Label) → KeepsIds (ids_under self.old other) (ids_under self.new other) }
    {
        match heading {
            Heading::Part(part) => self.put_compared(alloc, part.cmp, &part.lit, id),
            Heading::Span(span) => put_span(alloc, &mut self.spans, span, id),
        }
    }

    // Puts an id under a comparison with a literal.
    fn put_compared(
        &mut self,
        alloc: Global,
        cmp: Cmp,
        lit: &Value,
        id: usize,
    ) -> Result<(), Memory>
        ensures ok { OnOk result (Contains (ids_compared self.new cmp lit.now) id) }
        ensures kept { (other : Label) → KeepsIds (ids_under self.old other) (ids_under self.new other) }
    {
        match cmp {
            Cmp::Eq => put_hashed(alloc, &mut self.equal, lit, id),
            Cmp::Gt | Cmp::Ge => self.above.put(alloc, lit, id),
            Cmp::Lt | Cmp::Le => self.below.put(alloc, lit, id),
            Cmp::Ne => self.unequal.put(id),
        }
    }

    // Takes an id away from under a heading.
    pub(crate) fn take(&mut self, heading: Heading<'_>, id: usize)
        ensures { (other : Label) → KeepsOtherIds id (ids_under self.old other) (ids_under self.new other) }
    {
        match heading {
            Heading::Part(part) => self.take_compared(part.cmp, &part.lit, id),
            Heading::Span(span) => take_span(&mut self.spans, span, id),
        }
    }

    // Takes an id away from under a comparison with a literal.
    fn take_compared(&mut self, cmp: Cmp, lit: &Value, id: usize)
        ensures { (other : Label) → KeepsOtherIds id (ids_under self.old other) (ids_under self.new other) }
    {
        match cmp {
            Cmp::Eq => take_hashed(&mut self.equal, lit, id),
            Cmp::Gt | Cmp::Ge => self.above.take(lit, id),
            Cmp::Lt | Cmp::Le => self.below.take(lit, id),
            Cmp::Ne => self.unequal.take_out(id),
        }
    }

    // How many ids are under equality with a literal.
    pub(crate) fn count(&self, lit: &Value) -> usize
        ensures { result ≡ length (ids_compared self.now Eq lit.now) }
    {
        match self.equal.get(lit) {
            Some(ids) => ids.len(),
            None => 0,
        }
    }

    // Puts the ids under the headings that an event's attribute may meet behind those that are there.
    pub(crate) fn collect(
        &self,
        attr: usize,
        event: &Tuple,
        found: &mut Numbers,
    ) -> Result<(), Memory>
        ensures kept { OnOk result (KeepsIds found.old found.new) }
        ensures found { OnOk result (FindsUnder (value_at event.now attr) self.now found.new) }
    {
        if attr < event.vals().len() {
            self.collect_at(event.vals().get(attr), found)
        } else {
            Ok(())
        }
    }

    // Puts the ids under the headings that a value may meet behind those that are there.
    fn collect_at(&self, value: &Value, found: &mut Numbers) -> Result<(), Memory>
        ensures kept { OnOk result (KeepsIds found.old found.new) }
        ensures found { OnOk result (FindsUnder value.now self.now found.new) }
    {
        collect_hashed(&self.equal, value, found)?;
        self.above.collect_up_to(value, found)?;
        self.below.collect_from(value, found)?;
        collect_spans(&self.spans, value, found)?;
        append(found, &self.unequal)
    }
}
