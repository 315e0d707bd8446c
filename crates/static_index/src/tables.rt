//! Ids by one heading of each condition.
ghost use Rattle.std.specs.Prelude.{◌≡◌, Option, Contains, OnOk, length};
ghost use Rattle.std.specs.BTreeMap.{get};
ghost use Rattle.std.specs.Ordering.{nat_cmp};
ghost use Rattle.std.specs.Option.{option_map};
ghost use Rattle.static_index.specs.Buckets.{KeepsIds, KeepsOtherIds};
ghost use Rattle.static_index.specs.Headings.{Label, label};
ghost use Rattle.static_index.specs.Tables.{FindsFiled, equality, filed_ids, ids_in_column};

use crate::column::Column;
use crate::fixed_part::FixedPart;
use crate::heading::{Heading, attr_under};
use crate::ids::{Ids, append};
use event_types::{Memory, Numbers, Tuple};
use std::alloc::Global;
use std::collections::BTreeMap;

// Each id is filed under one heading, or without one among the rest.
#[derive(Drop)]
pub(crate) struct Tables {
    rest: Ids,
    // by the attribute
    columns: BTreeMap<usize, Column>,
}

impl Tables {
    pub(crate) fn new(alloc: Global) -> Tables {
        Tables {
            rest: Ids::new(alloc),
            columns: BTreeMap::new(alloc),
        }
    }

    // Files an id under a heading, or without one among the rest.
    pub(crate) fn file(
        &mut self,
        alloc: Global,
        heading: Option<Heading<'_>>,
        id: usize,
    ) -> Result<(), Memory>
        ensures ok { OnOk result (Contains (filed_ids self.new (option_map label heading.entry)) id) }
        ensures kept { (other : Option Label) → KeepsIds (filed_ids self.old other) (filed_ids self.new other) }
    {
        match heading {
            Some(heading) => self.file_under(alloc, heading, id),
            None => self.rest.put(id),
        }
    }

    // Files an id under a heading that is there.
    fn file_under(&mut self, alloc: Global, heading: Heading<'_>, id: usize) -> Result<(), Memory>
        ensures ok { OnOk result (Contains (filed_ids self.new (Some (label heading.entry))) id) }
        ensures kept { (other : Option Label) → KeepsIds (filed_ids self.old other) (filed_ids self.new other) }
    {
        let attr = attr_under(heading);
        if let Some(column) = self.columns.get_mut(&attr) {
            return column.put(alloc, heading, id);
        }
        let mut column = Column::new(alloc);
        column.put(alloc, heading, id)?;
        self.columns.insert(attr, column)?;
        Ok(())
    }

    // Takes an id away from under a heading.
    pub(crate) fn forget(&mut self, heading: Option<Heading<'_>>, id: usize)
        ensures { (other : Option Label) → KeepsOtherIds id (filed_ids self.old other) (filed_ids self.new other) }
    {
        match heading {
            Some(heading) => {
                if let Some(column) = self.columns.get_mut(&attr_under(heading)) {
                    column.take(heading, id);
                }
            }
            None => self.rest.take_out(id),
        }
    }

    // How many ids are filed under equality with the literal of a part.
    pub(crate) fn count(&self, part: &FixedPart) -> usize
        ensures { result ≡ length (ids_in_column (get nat_cmp self.now.columns part.now.attr) (equality part.now)) }
    {
        match self.columns.get(&part.attr) {
            Some(column) => column.count(&part.lit),
            None => 0,
        }
    }

    // Puts the ids under the headings that an event may meet, and the rest, behind those that are there.
    pub(crate) fn collect(&self, event: &Tuple, found: &mut Numbers) -> Result<(), Memory>
        ensures { OnOk result (FindsFiled event.now self.now found.new) }
    {
        append(found, &self.rest)?;
        'columns: for (attr, column) in &self.columns {
            column.collect(*attr, event, found)?;
        }
        Ok(())
    }
}
