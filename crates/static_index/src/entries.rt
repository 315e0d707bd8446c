//! What an index keeps of its conditions, by id.
ghost use Rattle.std.specs.Prelude.{◌≡◌, ◌↔◌, ◌++◌, [], ◌∷◌, None, Some, IsTrue, IfErr, OnErr, OnOk};
ghost use Rattle.std.specs.BTreeMap.{insert_entry, is_at};
ghost use Rattle.std.specs.Map.{remove_entry};
ghost use Rattle.std.specs.Option.{option_copied};
ghost use Rattle.std.specs.Ordering.{nat_cmp};
ghost use Rattle.static_index.specs.Entries.{AreOrdered, entry_of};

use crate::entry::Entry;
use event_types::Memory;
use std::alloc::Global;
use std::collections::BTreeMap;
use std::marker::Model;

// The entries by ascending ids. An id below the number of places has its entry at the place that it names, and every
// other in the map. A place stays as its entry leaves, since the id comes again.
#[derive(Drop)]
pub(crate) struct Entries {
    dense: Vec<Place>,
    // How many places have an entry.
    filled: usize,
    sparse: BTreeMap<usize, Entry>,
}

// The entry of the id that names the place, if it has one.
type Place = Option<Entry>;

// So many places there may be for each entry, and so many more.
const SPREAD: usize = 4;

const FIRST: usize = 16;

const _: () = prove!(size_of::<Place>() == 72);

impl Model for Entries {
    ghost use Rattle.std.specs.Prelude.{ℕ, List};
    ghost use Rattle.static_index.specs.declared.entry.Entry.{Entry};

    ghost Value = { List (ℕ × Entry) };

    ghost use Rattle.static_index.specs.Places.{AreBehind, entries_from};

    ghost view = { λ s. entries_from 0 s.dense.items s.sparse.entries };

    ghost invariant = { λ s. AreBehind s.dense.items s.filled s.sparse.entries };
}

impl Entries {
    // Takes no memory.
    pub(crate) fn new(alloc: Global) -> Entries
        ensures none { result ≡ [] }
        ensures ordered { AreOrdered result }
    {
        Entries {
            dense: Vec::new(alloc),
            filled: 0,
            sparse: BTreeMap::new(alloc),
        }
    }

    // Whether there is no entry.
    pub(crate) fn is_empty(&self) -> bool
        ensures { IsTrue result ↔ (self.now ≡ []) }
    {
        self.filled == 0 && self.sparse.is_empty()
    }

    // The entry of an id, if there is one.
    pub(crate) fn get(&self, id: usize) -> Option<&Entry>
        ensures { option_copied result ≡ entry_of id self.now }
    {
        if id < self.dense.len() {
            self.dense[id].as_ref()
        } else {
            self.sparse.get(&id)
        }
    }

    // Puts an entry at its place. Want of memory hands it back.
    pub(crate) fn insert(&mut self, id: usize, entry: Entry) -> Result<(), Entry>
        requires { entry_of id self.old ≡ None }
        ensures ok { OnOk result (self.new ≡ insert_entry nat_cmp self.old id entry) }
        ensures ordered { AreOrdered self.new }
        ensures kept { OnErr result (self.new ≡ self.old) }
        ensures handed_back { IfErr result (λ back. back ≡ entry) }
    {
        self.reach(id);
        if id < self.dense.len() {
            self.dense[id] = Some(entry);
            self.filled += 1;
            return Ok(());
        }
        match self.sparse.insert(id, entry) {
            Ok(_) => Ok(()),
            Err(refused) => Err(refused.value.1),
        }
    }

    // Makes places up to that of an id, unless too few of them would have an entry. Where memory is wanting there are fewer.
    fn reach(&mut self, id: usize)
        ensures { self.new ≡ self.old }
    {
        let most = self.filled.saturating_mul(SPREAD).saturating_add(FIRST);
        if id > most.max(self.dense.len()) {
            return;
        }
        for _ in self.dense.len()..id.saturating_add(1) {
            if self.widen().is_err() {
                return;
            }
        }
    }

    // Makes one place more, with the entry of the id that it names, if that has one. Want of memory changes nothing.
    fn widen(&mut self) -> Result<(), Memory>
        ensures { self.new ≡ self.old }
    {
        self.dense.reserve(1)?;
        let entry = self.sparse.remove(&self.dense.len());
        self.filled += entry.is_some() as usize;
        self.dense.push_reserved(entry);
        Ok(())
    }

    // Takes an entry out, if it is there.
    pub(crate) fn remove(&mut self, id: usize) -> Option<Entry>
        ensures value { result ≡ entry_of id self.old }
        ensures ordered { AreOrdered self.new }
        ensures others { self.new ≡ remove_entry (is_at (nat_cmp id)) self.old }
    {
        if id < self.dense.len() {
            let entry = self.dense[id].take();
            if entry.is_some() {
                self.filled -= 1;
            }
            entry
        } else {
            self.sparse.remove(&id)
        }
    }
}
