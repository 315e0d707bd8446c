//! The waiting states that a tuple finds by a key.
ghost use Rattle.std.specs.Prelude.{◌≡◌, ◌<◌, ◌++◌, ◌∷◌, [], ℕ, OnErr, OnOk, filter, length, min, slice_index_or};
ghost use Rattle.stream_readers.specs.Finding.{FindsKeyed, LeadOnce, is_found_by, led_by};
ghost use Rattle.stream_readers.specs.KeyTables.{AreTidied, IsNoted, LeadSame};
ghost use Rattle.stream_readers.specs.Leading.{is_at, lead_key as lead_key_of};

use crate::leading::lead_key;
use crate::readers::Found;
use crate::sweeping::sweep_all;
use automaton::Network;
use binding_index::{Directory, Store};
use event_types::{List, Memory, Numbers, StreamId, Tuple, Value};
use scalar_expr::Conj;
use static_index::fixed_hold;
use std::alloc::Global;
use std::marker::Model;

// How many pairs may come for each that the last sweep left, before the next one.
const MOST_CAME: u64 = 4;

// For how many that came one is counted that leads to a state which left, so that half of those that the last sweep left
// may do so before the next one.
const LOST_AS: u64 = 8;

/// Directories by the places of attributes.
pub(crate) type Directories = List<Directory>;

/// For each stream and each attribute of its tuples, the states that wait on the stream and whose stores may
/// have a binding with a key that a tuple has there. `tidy` forgets a key once no store to which it leads is
/// ready for it, though not at once: until then it may lead to the number of a state that left, even where
/// another state has that number since.
#[derive(Drop)]
pub struct KeyReaders {
    alloc: Global,
    streams: List<Directories>,
    // how many pairs of a key and a state came since the last sweep, and how many may before the next one
    came: u64,
    most: u64,
}

impl Model for KeyReaders {
    ghost use Rattle.stream_readers.specs.KeyTables.{KeyTable};

    ghost Value = { KeyTable };

    ghost view = { λ k. k.streams };
}

impl KeyReaders {
    /// No key leads to a state. Takes no memory.
    pub fn new(alloc: Global) -> KeyReaders
        ensures { result ≡ [] }
    {
        KeyReaders {
            alloc,
            streams: List::new(alloc),
            came: 0,
            most: 0,
        }
    }

    /// Puts the states to which the tuple leads, and which may match it, behind those that were found. A number that
    /// no state has is passed over, and so is a state that isn't found by its key at this attribute of this stream.
    pub fn find(
        &self,
        network: &Network,
        stream: StreamId,
        tuple: &Tuple,
        found: &mut Found,
    ) -> Result<(), Memory>
        ensures waits { OnOk result (FindsKeyed network.now self.now stream tuple.now found.old.waits found.new.waits) }
        ensures targets { found.new.targets ≡ found.old.targets }
    {
        if stream < self.streams.len() {
            let directories = self.streams.get(stream);
            add_led(network, stream, directories, tuple, &mut found.waits)?;
        }
        Ok(())
    }

    /// Lets a key at an attribute of a stream's tuples lead to a state.
    pub fn note(
        &mut self,
        stream: StreamId,
        attribute: usize,
        key: &Value,
        state: usize,
    ) -> Result<(), Memory>
        ensures ok { OnOk result (IsNoted stream attribute key.now state self.old self.new) }
        ensures kept { OnErr result (LeadSame self.old self.new) }
    {
        lengthen(self.alloc, &mut self.streams, stream)?;
        let directories = self.streams.get_mut(stream);
        widen(self.alloc, directories, attribute)?;
        let directory = directories.get_mut(attribute);
        let before = directory.pairs();
        directory.note(key, state)?;
        let added = directory.pairs().saturating_sub(before);
        self.came = self.came.saturating_add(added);
        Ok(())
    }

    /// Notes that a state left whose store had so many bindings with a key, which may lead there. Takes no memory.
    pub fn lose(&mut self, bindings: u64)
        ensures { self.new ≡ self.old }
    {
        let lost = bindings.saturating_mul(LOST_AS);
        self.came = self.came.saturating_add(lost);
    }

    /// Lets no key lead to a state whose store isn't ready for it, if more pairs of a key and a state came since
    /// that was last done than four times as many as there were pairs and streams then, where eight are counted for
    /// each that a state left behind. Takes no memory.
    pub fn tidy(&mut self, stores: &[Option<Store>])
        ensures { AreTidied stores.now self.old self.new }
    {
        if self.came > self.most {
            let left = sweep_all(&mut self.streams, stores);
            self.came = 0;
            self.most = left.saturating_mul(MOST_CAME);
        }
    }
}

// Puts the states to which the values of the tuple lead, and which may match it, behind others.
fn add_led(
    network: &Network,
    stream: StreamId,
    directories: &Directories,
    tuple: &Tuple,
    waits: &mut Numbers,
) -> Result<(), Memory>
    ensures led { OnOk result (waits.new ≡ waits.old ++ led_by network.now stream directories.now tuple.now (min (length directories.now) (length tuple.now.vals))) }
    ensures once { OnOk result (LeadOnce directories.now tuple.now (min (length directories.now) (length tuple.now.vals))) }
{
    let attributes = directories.len().min(tuple.vals().len());
    for attribute in 0..attributes {
        let states = directories.get(attribute).find(tuple.vals().get(attribute));
        add_met(network, stream, attribute, states, tuple, waits)?;
    }
    Ok(())
}

// Puts those of these states that are found at an attribute, and may match the tuple, behind others.
fn add_met(
    network: &Network,
    stream: StreamId,
    attribute: usize,
    states: &[usize],
    tuple: &Tuple,
    waits: &mut Numbers,
) -> Result<(), Memory>
    ensures { OnOk result (waits.new ≡ waits.old ++ filter (is_found_by network.now stream tuple.now attribute) states.now) }
{
    for state in states {
        add_if_met(network, stream, attribute, *state, tuple, waits)?;
    }
    Ok(())
}

// Puts a state behind others, if it is found at an attribute, and may match the tuple.
fn add_if_met(
    network: &Network,
    stream: StreamId,
    attribute: usize,
    state: usize,
    tuple: &Tuple,
    waits: &mut Numbers,
) -> Result<(), Memory>
    ensures { OnOk result (waits.new ≡ waits.old ++ filter (is_found_by network.now stream tuple.now attribute) (state ∷ [])) }
{
    if is_met(network, stream, attribute, state, tuple) {
        waits.add(state)
    } else {
        Ok(())
    }
}

// Whether a state has this number, waits on the stream and is found by its key at the attribute, and the fixed parts of
// its condition all hold for the tuple. The key is asked last, since that goes over the parts again.
fn is_met(
    network: &Network,
    stream: StreamId,
    attribute: usize,
    state: usize,
    tuple: &Tuple,
) -> bool
    ensures { result ≡ is_found_by network.now stream tuple.now attribute state }
{
    if state >= network.places() || !network.used(state) {
        return false;
    }
    match network.wait(state) {
        Some(wait) => {
            wait.stream == stream
                && fixed_hold(&wait.choose, tuple)
                && is_found_at(&wait.choose, attribute)
        }
        None => false,
    }
}

// Whether the key by which a state that waits by a condition is found stands at this attribute.
fn is_found_at(choose: &Conj, attribute: usize) -> bool
    ensures { result ≡ is_at attribute (lead_key_of choose.now) }
{
    match lead_key(choose) {
        Some(key) => key.event == attribute,
        None => false,
    }
}

// Puts lists without directories at the end until there is one for the stream. After want of memory there may be
// more than before.
fn lengthen(alloc: Global, streams: &mut List<Directories>, stream: StreamId) -> Result<(), Memory>
    ensures long { OnOk result (stream < length streams.new) }
    ensures same { (number : ℕ) → slice_index_or streams.new number [] ≡ slice_index_or streams.old number [] }
{
    while streams.len() <= stream {
        streams.add(List::new(alloc))?;
    }
    Ok(())
}

// Puts empty directories at the end until there is one for the attribute. After want of memory there may be more
// than before.
fn widen(alloc: Global, directories: &mut Directories, attribute: usize) -> Result<(), Memory>
    ensures wide { OnOk result (attribute < length directories.new) }
    ensures same { (place : ℕ) → slice_index_or directories.new place [] ≡ slice_index_or directories.old place [] }
{
    while directories.len() <= attribute {
        directories.add(Directory::new(alloc))?;
    }
    Ok(())
}
