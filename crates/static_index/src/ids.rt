//! Lists of ids.
ghost use Rattle.std.specs.Prelude.{◌≡◌, ◌↔◌, ◌==◌, ◌++◌, [], ◌∷◌, not, filter, length, Contains, IfErr, IfOk, IsTrue, OnErr, OnOk};
ghost use Rattle.std.specs.BTreeSet.{insert_key};
ghost use Rattle.std.specs.Ordering.{nat_cmp};
ghost use Rattle.static_index.specs.Buckets.{KeepsIds};
ghost use Rattle.static_index.specs.Conditions.{Ascends};
ghost use Rattle.static_index.specs.Ids.{HasAt, LacksAt, ids_in_set};

use event_types::{Memory, Numbers};
use smallvec::SmallVec;
use std::alloc::Global;
use std::collections::BTreeSet;
use std::marker::Model;

// Ids, each once. Few stand in ascending order, so that one is found by halving: two in the list itself, and where more
// come, all on the heap. Where they are as many as may be moved, one that comes goes into a set, which is there until the
// last one leaves it.
#[derive(Drop)]
pub(crate) struct Ids {
    few: SmallVec<usize, 2>,
    many: Option<Box<BTreeSet<usize>>>,
}

// How many ids stand in order at most, since one that comes or leaves moves those behind it.
const MOST_MOVED: usize = 256;

impl Model for Ids {
    ghost use Rattle.std.specs.Prelude.{ℕ, List, ◌++◌};

    ghost Value = { List ℕ };

    ghost use Rattle.static_index.specs.Ids.{AreApart, ids_in_set};

    ghost view = { λ s. s.few.items ++ ids_in_set s.many };

    ghost invariant = { λ s. AreApart s.few.items (ids_in_set s.many) };
}

impl Ids {
    // Takes no memory.
    pub(crate) fn new(alloc: Global) -> Ids
        ensures { result ≡ [] }
    {
        Ids {
            few: SmallVec::new(alloc),
            many: None,
        }
    }

    pub(crate) fn len(&self) -> usize
        ensures { result ≡ length self.now }
    {
        match &self.many {
            Some(many) => self.few.len() + many.len(),
            None => self.few.len(),
        }
    }

    // Puts an id at its place, unless it is there.
    pub(crate) fn put(&mut self, id: usize) -> Result<(), Memory>
        ensures ok { OnOk result (Contains self.new id) }
        ensures kept { KeepsIds self.old self.new }
    {
        let Err(place) = place_in(&self.few, id) else {
            return Ok(());
        };
        if MOST_MOVED <= self.few.len() {
            return put_in_set(*self.few.allocator(), &mut self.many, id);
        }
        if is_in_set(&self.many, id) {
            return Ok(());
        }
        self.few.insert(place, id)?;
        Ok(())
    }

    // Takes an id out, if it is there. The others keep their order.
    pub(crate) fn take_out(&mut self, id: usize)
        ensures { self.new ≡ filter (λ other. not (other == id)) self.old }
    {
        match place_in(&self.few, id) {
            Ok(place) => {
                self.few.remove(place);
            }
            Err(_) => take_from_set(&mut self.many, id),
        }
    }
}

// The place of an id among ids in order, or the one where it is missing.
fn place_in(few: &SmallVec<usize, 2>, id: usize) -> Result<usize, usize>
    requires { Ascends few.now.items }
    ensures found { IfOk result (HasAt id few.now.items) }
    ensures missing { IfErr result (LacksAt id few.now.items) }
{
    few.as_slice().binary_search(&id)
}

// Whether an id is in the set.
fn is_in_set(many: &Option<Box<BTreeSet<usize>>>, id: usize) -> bool
    ensures { IsTrue result ↔ Contains (ids_in_set many.now) id }
{
    match many {
        Some(set) => set.contains(&id),
        None => false,
    }
}

// Puts an id into the set, unless it is there.
fn put_in_set(
    alloc: Global,
    many: &mut Option<Box<BTreeSet<usize>>>,
    id: usize,
) -> Result<(), Memory>
    ensures ok { OnOk result (ids_in_set many.new ≡ insert_key nat_cmp (ids_in_set many.old) id) }
    ensures kept { OnErr result (ids_in_set many.new ≡ ids_in_set many.old) }
{
    if let Some(set) = many {
        set.insert(id)?;
        return Ok(());
    }
    *many = Some(set_of(alloc, id)?);
    Ok(())
}

// A set of one id.
fn set_of(alloc: Global, id: usize) -> Result<Box<BTreeSet<usize>>, Memory>
    ensures { IfOk result (λ set. set.value.keys ≡ id ∷ []) }
{
    let mut set = BTreeSet::new(alloc);
    set.insert(id)?;
    Ok(Box::new(alloc, set)?)
}

// Takes an id out of a set, and the set away with the last one.
fn take_from_set(many: &mut Option<Box<BTreeSet<usize>>>, id: usize)
    ensures { ids_in_set many.new ≡ filter (λ other. not (other == id)) (ids_in_set many.old) }
{
    let Some(set) = many else {
        return;
    };
    set.remove(&id);
    if set.is_empty() {
        *many = None;
    }
}

// Puts ids behind those that are there.
#[inline(always)]
pub(crate) fn append(found: &mut Numbers, ids: &Ids) -> Result<(), Memory>
    ensures { OnOk result (found.new ≡ found.old ++ ids.now) }
{
    'ids: for id in ids.few.as_slice() {
        if found.push(*id).is_err() {
            return Err(Memory);
        }
    }
    match &ids.many {
        Some(many) => append_set(found, many),
        None => Ok(()),
    }
}

// The same with those of a set.
#[inline(never)]
fn append_set(found: &mut Numbers, set: &BTreeSet<usize>) -> Result<(), Memory>
    ensures { OnOk result (found.new ≡ found.old ++ set.now.keys) }
{
    'ids: for id in set {
        if found.push(*id).is_err() {
            return Err(Memory);
        }
    }
    Ok(())
}
