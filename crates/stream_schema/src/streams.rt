//! The table of streams by name.
ghost use Rattle.std.specs.Prelude.{◌≡◌, ◌<◌, ◌≤◌, ◌+◌, ◌↔◌, ◌⊎◌, [], ◌∷◌, ◌++◌, false, length, slice_get, Some, None, IfOk, OnOk, OnErr, IfSome, Contains, AllPairs, ◌≢◌, replicate};
ghost use Rattle.stream_schema.specs.Streams.{AreThere, IsRetired, declared_of, hidden_entries, number_of, retired, schemas_of, stream_names, with_hidden};
ghost use Rattle.stream_schema.specs.Table.{unnamed};

use crate::schema::Schema;
use event_types::{List, Memory, StreamId};
use indexmap::IndexMap;
use std::alloc::Global;
use std::marker::Model;

/// The streams by name, each with its schema. A stream's number is its place in the order in which they
/// were added, from 0. A retired stream keeps its number and its schema, and has no name: contracts see as its name
/// one that no text has. A hidden stream has none from the start.
pub struct Streams {
    alloc: Global,
    streams: List<Stream>,
    // For each name its stream.
    numbers: IndexMap<String, StreamId>,
}

// A caller that lets streams go makes one call, where a derive would take each part apart at each place.
impl Drop for Streams {
    fn drop(self) {
        let Streams {
            alloc: _,
            streams: _streams,
            numbers: _numbers,
        } = self;
    }
}

impl Model for Streams {
    ghost use Rattle.std.specs.Prelude.{List};
    ghost use Rattle.stream_schema.specs.Streams.{Entry};

    ghost Value = { List Entry };

    ghost use Rattle.stream_schema.specs.Table.{IsTable, streams_of};

    ghost view = { λ s. streams_of s.streams };

    ghost invariant = { λ s. IsTable s.streams s.numbers };
}

impl Streams {
    /// A table without streams. Takes no memory.
    pub fn new(alloc: Global) -> Streams
        ensures { result ≡ [] }
    {
        Streams {
            alloc,
            streams: List::new(alloc),
            numbers: IndexMap::new(alloc),
        }
    }

    /// Puts a stream at the end, which STREAM declares or a query publishes. Want of memory drops the schema.
    pub fn add(&mut self, name: &str, schema: Schema, declared: bool) -> Result<StreamId, Memory>
        requires { number_of name.now self.old ≡ None }
        ensures number { IfOk result (λ number. number ≡ length self.old) }
        ensures ok { OnOk result (self.new ≡ self.old ++ record { name = name.now; schema = schema; declared = declared } ∷ []) }
        ensures kept { OnErr result (self.new ≡ self.old) }
        ensures there { OnOk result (AreThere self.old → AreThere self.new) }
    {
        let number = self.streams.len();
        let key = String::from_str(self.alloc, name)?;
        let name = Some(String::from_str(self.alloc, name)?);
        self.streams.add(Stream {
            name,
            schema,
            declared,
        })?;
        match self.numbers.insert(key, number) {
            Ok(_) => Ok(number),
            Err(_) => {
                self.streams.truncate(number);
                Err(Memory)
            }
        }
    }

    /// Puts the stream at the end that a query publishes, and so many hidden ones behind it. Want of memory drops the schema.
    pub fn publish(&mut self, name: &str, schema: Schema, hidden: usize) -> Result<StreamId, Memory>
        requires { number_of name.now self.old ≡ None }
        ensures number { IfOk result (λ number. number ≡ length self.old) }
        ensures ok { OnOk result (self.new ≡ self.old ++ record { name = name.now; schema = schema; declared = false } ∷ hidden_entries (length self.old + 1) hidden) }
        ensures kept { OnErr result (self.new ≡ self.old) }
    {
        let number = self.streams.len();
        let key = String::from_str(self.alloc, name)?;
        let name = Some(String::from_str(self.alloc, name)?);
        let declared = false;
        let stream = Stream {
            name,
            schema,
            declared,
        };
        put_with_hidden(self.alloc, &mut self.streams, stream, hidden)?;
        match self.numbers.insert(key, number) {
            Ok(_) => Ok(number),
            Err(_) => {
                self.streams.truncate(number);
                Err(Memory)
            }
        }
    }

    /// Puts a hidden stream at the end, which the lines of a query publish for one another: no name finds it, and no
    /// attributes are told of it.
    pub fn hide(&mut self) -> Result<StreamId, Memory>
        ensures number { IfOk result (λ number. number ≡ length self.old) }
        ensures ok { OnOk result (self.new ≡ with_hidden self.old) }
        ensures kept { OnErr result (self.new ≡ self.old) }
    {
        let number = self.streams.len();
        self.streams.add(Stream {
            name: None,
            schema: Schema::new(self.alloc),
            declared: false,
        })?;
        Ok(number)
    }

    /// Takes its name from a stream that no STREAM statement declares: no name finds it from then on, a later stream may
    /// have the name, and its number isn't used again. Takes no memory.
    pub fn retire(&mut self, stream: StreamId)
        requires within { stream < length self.old }
        requires published { slice_get (declared_of self.old) stream ≡ Some false }
        ensures { self.new ≡ retired self.old stream }
    {
        if let Some(name) = self.streams.get_mut(stream).name.take() {
            self.numbers.swap_remove(name.as_str());
        }
    }

    /// The number of the stream of this name, by a look-up of its hash. Takes no memory.
    pub fn find(&self, name: &str) -> Option<StreamId>
        ensures value { result ≡ number_of name.now self.now }
        ensures found { IfSome result (λ number. slice_get (stream_names self.now) number ≡ Some name.now) }
        ensures within { IfSome result (λ number. number < length self.now) }
        ensures absent { (result ≡ None) ↔ ¬ Contains (stream_names self.now) name.now }
        ensures distinct { AllPairs (λ x y. x ≢ y) (stream_names self.now) }
    {
        self.numbers.get(name).copied()
    }

    /// The same, by one comparison where the name is that of the stream `near`, which may be any number.
    /// Takes no memory.
    pub fn find_near(&self, near: StreamId, name: &str) -> Option<StreamId>
        ensures value { result ≡ number_of name.now self.now }
        ensures found { IfSome result (λ number. slice_get (stream_names self.now) number ≡ Some name.now) }
        ensures within { IfSome result (λ number. number < length self.now) }
        ensures absent { (result ≡ None) ↔ ¬ Contains (stream_names self.now) name.now }
        ensures distinct { AllPairs (λ x y. x ≢ y) (stream_names self.now) }
    {
        if let Some(known) = self.named(near) {
            if known == name {
                return Some(near);
            }
        }
        self.find(name)
    }

    /// The name of the stream of this number, if there is one and it is neither retired nor hidden. Takes no memory.
    pub fn named(&self, stream: StreamId) -> Option<&str>
        ensures number { IfSome result (λ name. number_of name.now self.now ≡ Some stream) }
        ensures within { IfSome result (λ name. stream < length self.now) }
        ensures found { IfSome result (λ name. slice_get (stream_names self.now) stream ≡ Some name.now) }
        ensures absent { (result ≡ None) ↔ ((length self.now ≤ stream) ⊎ IsRetired self.now stream) }
        ensures distinct { AllPairs (λ x y. x ≢ y) (stream_names self.now) }
    {
        if stream < self.streams.len() {
            match &self.streams.get(stream).name {
                Some(name) => Some(name.as_str()),
                None => None,
            }
        } else {
            None
        }
    }

    /// The schema of the stream of this number, counted from 0. Takes no memory.
    pub fn schema(&self, stream: StreamId) -> &Schema
        requires { stream < length self.now }
        ensures { slice_get (schemas_of self.now) stream ≡ Some result.now }
    {
        &self.streams.get(stream).schema
    }

    /// The name of the stream of this number, counted from 0. Takes no memory.
    pub fn name(&self, stream: StreamId) -> &str
        requires within { stream < length self.now }
        requires there { ¬ IsRetired self.now stream }
        ensures { slice_get (stream_names self.now) stream ≡ Some result.now }
    {
        self.named(stream).unwrap()
    }

    /// Whether a STREAM statement declares the stream; else a query publishes it.
    pub fn declared(&self, stream: StreamId) -> bool
        requires { stream < length self.now }
        ensures { slice_get (declared_of self.now) stream ≡ Some result }
    {
        self.streams.get(stream).declared
    }
}

// A stream; where it is retired or hidden it has no name.
#[derive(Drop)]
struct Stream {
    name: Option<String>,
    schema: Schema,
    declared: bool,
}

// Puts the stream at the end, and so many behind it that have no name and no attributes.
fn put_with_hidden(
    alloc: Global,
    streams: &mut List<Stream>,
    stream: Stream,
    hidden: usize,
) -> Result<(), Memory>
    ensures ok { OnOk result (streams.new ≡ (streams.old ++ stream ∷ []) ++ replicate hidden unnamed) }
    ensures kept { OnErr result (streams.new ≡ streams.old) }
{
    let number = streams.len();
    streams.add(stream)?;
    if let Err(_) = add_unnamed(alloc, streams, hidden) {
        streams.truncate(number);
        return Err(Memory);
    }
    Ok(())
}

// Puts so many streams at the end that have no name and no attributes.
fn add_unnamed(alloc: Global, streams: &mut List<Stream>, many: usize) -> Result<(), Memory>
    ensures ok { OnOk result (streams.new ≡ streams.old ++ replicate many unnamed) }
    ensures kept { OnErr result (streams.new ≡ streams.old) }
{
    let number = streams.len();
    let declared = false;
    for _ in 0..many {
        let unnamed = Stream {
            name: None,
            schema: Schema::new(alloc),
            declared,
        };
        if let Err(_) = streams.add(unnamed) {
            streams.truncate(number);
            return Err(Memory);
        }
    }
    Ok(())
}
