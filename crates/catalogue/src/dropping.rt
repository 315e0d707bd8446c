//! Queries that leave a catalogue.
ghost use Rattle.std.specs.Prelude.{◌≡◌, ◌<◌, ◌↔◌, ◌==◌, ℕ, AllPairs, Err, OnErr, IfErr, IfNone, IfOk, IfSome, OnOk, length, position};
ghost use Rattle.catalogue.specs.declared.fault.DropFault.TheVariants.{UnknownQuery};
ghost use Rattle.catalogue.specs.Catalogued.{query_in};
ghost use Rattle.catalogue.specs.Standing.{StandsInOrder};
ghost use Rattle.catalogue.specs.Leaving.{HasName, IsFirstNamed, HasNoQuery, IsFirstReader, IsLeft, IsUnread, Leaves, LeavesUnread, StaysFor, catalogue_without};
ghost use Rattle.catalogue.specs.Part.{IsPart};

use crate::accepted::Catalogue;
use crate::counting::does_read;
use crate::fault::DropFault;
use crate::growing::size_between;
use crate::leaving::add_part;
use crate::numbering::Published;
use crate::sharing::span_at;
use crate::tallying::{tally_at, untally};
use automaton::Shrinkage;
use event_types::{List, Memory, Numbers, StreamId, Text};
use long_lists::LongList;
use std::alloc::Global;

/// What is given out as a query leaves: the numbers of the ends of its lines, and what the layout of all lines loses.
#[derive(Drop)]
pub struct Dropped {
    pub ends: Numbers,
    pub part: Shrinkage,
}

// Which lines are those of a query, from one place up to another, and what the layout loses with it.
#[derive(Clone, Copy, Drop)]
struct Part {
    first: usize,
    end: usize,
    lost: Shrinkage,
}

impl Catalogue {
    /// The birth of the query with this number: the last closed time when it was added, or none.
    pub fn birth_of(&self, query: usize) -> Option<u64>
        requires { query < length self.now.order }
        ensures { result ≡ (query_in self.now query).birth }
    {
        self.work.published.get(self.place(query)).birth
    }

    /// Takes the query of this name out: the later queries have one number less, the name of its stream is retired, and its
    /// lines are gone with their ends. An `Err` changes nothing.
    pub fn drop_query(&mut self, alloc: Global, name: &str) -> Result<Dropped, DropFault>
        ensures ok { IfOk result (λ dropped. Leaves name.now dropped self.old self.new) }
        ensures unknown { (result ≡ Err UnknownQuery) ↔ HasNoQuery self.old name.now }
        ensures err { IfErr result (StaysFor self.old name.now) }
        ensures kept { OnErr result (self.new ≡ self.old) }
    {
        let query = self.query_to_drop(alloc, name)?;
        let dropped = self.drop_at(alloc, query)?;
        Ok(dropped)
    }

    /// The number of the query of this name, which none reads.
    pub fn query_to_drop(&self, alloc: Global, name: &str) -> Result<usize, DropFault>
        ensures named { IfOk result (HasName self.now name.now) }
        ensures first { IfOk result (IsFirstNamed self.now name.now) }
        ensures unread { IfOk result (IsUnread self.now) }
        ensures unknown { (result ≡ Err UnknownQuery) ↔ HasNoQuery self.now name.now }
        ensures err { IfErr result (StaysFor self.now name.now) }
    {
        match self.query_of(name) {
            None => Err(DropFault::UnknownQuery),
            Some(query) => match self.reader_of(self.stream_of(query)) {
                Some(reader) => {
                    let reader = Text::make(alloc, self.streams.name(self.stream_of(reader)))?;
                    Err(DropFault::InUse { reader })
                }
                None => Ok(query),
            },
        }
    }

    /// Takes the query with this number out, which none reads, as `drop_query` does. Want of memory changes nothing.
    ///
    /// It costs the query's own lines, and in each list steps as a logarithm of how much stands there, whichever query it is.
    pub fn drop_at(&mut self, alloc: Global, query: usize) -> Result<Dropped, Memory>
        requires within { query < length self.old.order }
        requires unread { IsUnread self.old query }
        ensures ok { IfOk result (λ dropped. IsLeft query dropped self.old self.new) }
        ensures stands { OnOk result (StandsInOrder self.new) }
        ensures kept { OnErr result (self.new ≡ self.old) }
    {
        let part = self.part_of(query);
        let mut ends: Numbers = List::new(alloc);
        add_part(&mut ends, &self.chains.ends, part.first, part.end)?;
        self.take_out(query, part);
        Ok(Dropped {
            ends,
            part: part.lost,
        })
    }

    // The number of the query of this name.
    fn query_of(&self, name: &str) -> Option<usize>
        ensures found { IfSome result (HasName self.now name.now) }
        ensures first { IfSome result (IsFirstNamed self.now name.now) }
        ensures none { IfNone result (HasNoQuery self.now name.now) }
    {
        match self.streams.find(name) {
            None => None,
            Some(stream) => match publisher(&self.work.published, stream) {
                None => None,
                Some(place) => Some(self.work.order.get(place)),
            },
        }
    }

    // The number of the first query that reads the stream.
    fn reader_of(&self, stream: StreamId) -> Option<usize>
        ensures found { IfSome result (IsFirstReader self.now stream) }
        ensures none { IfNone result ((number : ℕ) → number < length self.now.order → LeavesUnread self.now stream number) }
    {
        if tally_at(&self.reads, stream) == 0 {
            return None;
        }
        for query in 0..self.work.order.len() {
            if does_read(self.expr(query), stream) {
                return Some(query);
            }
        }
        None
    }

    // Takes the query with this number out, which has this part of the lines and of the layout.
    fn take_out(&mut self, query: usize, part: Part)
        requires within { query < length self.old.order }
        requires unread { IsUnread self.old query }
        requires part { IsPart self.old query part }
        ensures { self.new ≡ catalogue_without self.old query }
    {
        let place = self.place(query);
        self.streams.retire(self.work.published.get(place).stream);
        self.work.order.leave(query);
        self.work.published.remove(place);
        untally(&mut self.reads, self.work.expressions.get(place));
        self.work.expressions.remove(place);
        self.size -= size_between(&self.chains.lines, part.first, part.end);
        self.chains.lines.cut(part.first, part.end);
        self.chains.ends.cut(part.first, part.end);
        self.chains.shares.remove(place);
        self.chains.layout.shrink(part.lost);
    }

    // Which lines and which streams of the layout are those of the query with this number.
    fn part_of(&self, query: usize) -> Part
        requires { query < length self.now.order }
        ensures { IsPart self.now query result }
    {
        let place = self.place(query);
        let lines = span_at(&self.chains.shares.lines, place);
        let streams = span_at(&self.chains.shares.streams, place);
        let lost = Shrinkage {
            first: streams.first,
            end: streams.end,
            out: query,
        };
        Part {
            first: lines.first,
            end: lines.end,
            lost,
        }
    }
}

// The place of the query that publishes the stream, by halves: later queries publish greater ones.
fn publisher(published: &LongList<Published>, stream: StreamId) -> Option<usize>
    requires { AllPairs (λ earlier later. earlier.stream < later.stream) published.now }
    ensures { result ≡ position (λ query. query.stream == stream) published.now }
{
    let mut first = 0;
    let mut end = published.len();
    while first < end {
        let middle = first + (end - first) / 2;
        if published.get(middle).stream < stream {
            first = middle + 1;
        } else {
            end = middle;
        }
    }
    if first < published.len() && published.get(first).stream == stream {
        Some(first)
    } else {
        None
    }
}
