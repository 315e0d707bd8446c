//! The index of conditions by their fixed parts.
ghost use Rattle.std.specs.Prelude.{◌≡◌, ◌↔◌, [], IsTrue, IfOk, OnOk, OnErr};
ghost use Rattle.static_index.specs.Conditions.{Ascends, HasId, looked_up, matched, with_condition, without};
ghost use Rattle.static_index.specs.FixedParts.{fixed_parts};
ghost use Rattle.static_index.specs.Table.{asked_ids};

use crate::condition::copy_fixed;
use crate::entries::Entries;
use crate::entry::{Asked, Entry};
use crate::filing::Filing;
use crate::narrowing::narrow;
use crate::ranged_parts::RangedParts;
use event_types::{List, Memory, Numbers, Tuple};
use scalar_expr::Conj;
use std::alloc::Global;
use std::marker::Model;

/// Conditions by their fixed parts, of which an event meets few.
///
/// With the conditions 0 `Price > 100`, 1 `TRUE` and 2 `Price > 200`, `lookup` and `matching` give 0 and 1
/// for an event whose price is 150.
#[derive(Drop)]
pub struct StaticIndex {
    alloc: Global,
    entries: Entries,
    filing: Filing,
}

impl Model for StaticIndex {
    ghost use Rattle.std.specs.Prelude.{List};
    ghost use Rattle.static_index.specs.Conditions.{Condition};

    ghost Value = { List Condition };

    ghost use Rattle.static_index.specs.Filing.{Keeps};
    ghost use Rattle.static_index.specs.Table.{conditions_of};

    ghost view = { λ s. conditions_of s.entries };

    ghost invariant = { λ s. Keeps s.entries s.filing };
}

impl StaticIndex {
    /// No conditions. Takes no memory.
    pub fn new(alloc: Global) -> StaticIndex
        ensures { result ≡ [] }
    {
        StaticIndex {
            alloc,
            entries: Entries::new(alloc),
            filing: Filing::new(alloc),
        }
    }

    /// Takes no memory.
    pub fn has(&self, id: usize) -> bool
        ensures { IsTrue result ↔ HasId id self.now }
    {
        self.entries.get(id).is_some()
    }

    /// Adds a condition. Want of memory leaves the index as it was.
    pub fn add(&mut self, id: usize, condition: &Conj) -> Result<(), Memory>
        requires { ¬ HasId id self.old }
        ensures ok { OnOk result (self.new ≡ with_condition (record { id = id; parts = fixed_parts condition.now }) self.old) }
        ensures kept { OnErr result (self.new ≡ self.old) }
    {
        let parts = RangedParts::new(copy_fixed(self.alloc, condition)?);
        let choice = Box::new(self.alloc, self.filing.choose(&parts))?;
        let entry = Entry { parts, choice };
        self.filing.file(self.alloc, id, &entry)?;
        match self.entries.insert(id, entry) {
            Ok(()) => Ok(()),
            Err(entry) => {
                self.filing.forget(id, &entry);
                Err(Memory)
            }
        }
    }

    /// Takes a condition away. Takes no memory.
    pub fn remove(&mut self, id: usize)
        requires { HasId id self.old }
        ensures { self.new ≡ without id self.old }
    {
        if let Some(entry) = self.entries.remove(id) {
            self.filing.forget(id, &entry);
        }
    }

    /// The ids of the conditions whose first fixed part holds for the event, or that have none. An attribute
    /// that the event doesn't have meets no comparison.
    pub fn lookup(&self, alloc: Global, event: &Tuple) -> Result<Numbers, Memory>
        ensures value { IfOk result (λ ids. ids ≡ looked_up event.now self.now) }
        ensures ascends { IfOk result (λ ids. Ascends ids) }
    {
        let mut found = List::new(alloc);
        self.find(Asked::First, event, &mut found)?;
        Ok(found)
    }

    /// The ids of the conditions whose fixed parts all hold for the event, in a list that is used anew. An
    /// attribute that the event doesn't have meets no comparison.
    pub fn matching(&self, event: &Tuple, found: &mut Numbers) -> Result<(), Memory>
        ensures value { OnOk result (found.new ≡ matched event.now self.now) }
        ensures ascends { OnOk result (Ascends found.new) }
        ensures emptied { OnErr result (found.new ≡ []) }
    {
        found.clear();
        if self.entries.is_empty() {
            return Ok(());
        }
        match self.find(Asked::All, event, found) {
            Ok(()) => Ok(()),
            Err(fault) => {
                found.clear();
                Err(fault)
            }
        }
    }

    // The ids of the conditions whose parts that are asked hold for the event.
    fn find(&self, asked: Asked, event: &Tuple, found: &mut Numbers) -> Result<(), Memory>
        ensures value { OnOk result (found.new ≡ asked_ids asked event.now self.now) }
        ensures ascends { OnOk result (Ascends found.new) }
    {
        self.filing.collect(asked, event, found)?;
        found.sort();
        narrow(&self.entries, asked, event, found);
        Ok(())
    }
}
