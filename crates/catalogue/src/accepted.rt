//! Catalogues: query texts that are accepted, and their queries.
ghost use Rattle.std.specs.Prelude.{◌≡◌, ◌<◌, ◌+◌, ◌^◌, ◌==◌, IfOk, length, sum_by};
ghost use Rattle.std.specs.List.{position_or_len};
ghost use Rattle.expressions.specs.Views.{ex_of};
ghost use Rattle.splitter.specs.Chains.{lines_of};
ghost use Rattle.stream_schema.specs.Streams.{AreThere, IsRetired};
ghost use Rattle.catalogue.specs.Catalogued.{program_in, query_in};
ghost use Rattle.catalogue.specs.Loaded.{HoldsJudged, IsUnchanged};
ghost use Rattle.catalogue.specs.Parts.{IsAccepted, parts_of, judged_of};
ghost use Rattle.catalogue.specs.Standing.{IsLayoutOver, StandsInOrder};

use crate::held_lines::HeldLines;
use crate::held_queries::HeldQueries;
use crate::laying::{Typed, hold, lay_out};
use automaton::{Layout, Line};
use cel_parser::File;
use event_types::{Memory, Numbers, StreamId};
use expressions::Expr;
use long_lists::LongList;
use std::alloc::Global;
use std::marker::Model;
use stream_schema::Streams;
use work_order::WorkOrder;

/// Queries that stand in order: the statements that they were loaded from, the streams that these declare, those that
/// the queries publish, hidden ones too, and the queries, typed, with their lines. A query's number is its place among
/// those that are there, from 0; one that was added stands behind those that were there.
pub struct Catalogue {
    file: File,
    declared: usize,
    // By number: those that STREAM declares, those of the queries, and hidden ones.
    pub(crate) streams: Streams,
    pub(crate) work: HeldQueries,
    pub(crate) chains: HeldLines,
    pub(crate) next_end: usize,
    // How many lines there are, and hops on them.
    pub(crate) size: usize,
    // For each stream by number how many reads of it the expressions have; none behind the last one.
    pub(crate) reads: Numbers,
}

// A caller that lets a catalogue go makes one call, where a derive would take each part apart at each place.
impl Drop for Catalogue {
    fn drop(self) {
        let Catalogue {
            file: _file,
            declared: _,
            streams: _streams,
            work: _work,
            chains: _chains,
            next_end: _,
            size: _,
            reads: _reads,
        } = self;
    }
}

impl Model for Catalogue {
    ghost use Rattle.catalogue.specs.Catalogued.{Catalogued, catalogued_code};

    ghost Value = { Catalogued };

    ghost coded = { catalogued_code };

    ghost use Rattle.catalogue.specs.Tables.{IsKept};

    ghost view = { λ c. record { file = c.file; declared = c.declared; streams = c.streams; order = c.work.order; published = c.work.published; expressions = c.work.expressions; ends = c.chains.ends; next_end = c.next_end; layout = c.chains.layout } };

    ghost invariant = { λ c. IsKept (record { file = c.file; declared = c.declared; streams = c.streams; order = c.work.order; published = c.work.published; expressions = c.work.expressions; ends = c.chains.ends; next_end = c.next_end; layout = c.chains.layout }) c.chains.lines c.chains.shares c.reads c.size };
}

impl Catalogue {
    // The catalogue of a file and what is typed of it. Want of memory drops both.
    pub(crate) fn make(alloc: Global, file: File, typed: Typed) -> Result<Catalogue, Memory>
        requires accepted { IsAccepted (parts_of file typed.streams typed.order typed.expressions) }
        requires typed { length typed.expressions ≡ length typed.order }
        requires there { AreThere typed.streams }
        ensures holds { IfOk result (HoldsJudged (judged_of (parts_of file typed.streams typed.order typed.expressions))) }
        ensures unchanged { IfOk result IsUnchanged }
    {
        let laid = lay_out(alloc, &file, &typed)?;
        let held = hold(alloc, file.size(), typed, laid)?;
        Ok(Catalogue {
            file,
            declared: held.declared,
            streams: held.streams,
            work: held.work,
            chains: held.chains,
            next_end: held.next_end,
            size: held.size,
            reads: held.reads,
        })
    }

    /// The statements of the text and their lines.
    pub fn file(&self) -> &File
        ensures value { result.now ≡ self.now.file }
        ensures stands { StandsInOrder self.now }
    {
        &self.file
    }

    /// The streams by number: first those that STREAM declares, in the order of the file, and then those
    /// that queries publish, in the order of work, and hidden ones.
    pub fn streams(&self) -> &Streams
        ensures value { result.now ≡ self.now.streams }
        ensures stands { StandsInOrder self.now }
    {
        &self.streams
    }

    /// How many streams STREAM declares.
    pub fn declared(&self) -> usize
        ensures value { result ≡ self.now.declared }
        ensures stands { StandsInOrder self.now }
    {
        self.declared
    }

    /// How many queries there are.
    pub fn queries(&self) -> usize
        ensures value { result ≡ length self.now.order }
        ensures stands { StandsInOrder self.now }
    {
        self.work.order.len()
    }

    /// The stream that the query with this number publishes.
    pub fn stream_of(&self, query: usize) -> StreamId
        requires { query < length self.now.order }
        ensures value { result ≡ (query_in self.now query).stream }
        ensures within { result < length self.now.streams }
        ensures named { ¬ IsRetired self.now.streams result }
    {
        self.work.published.get(self.place(query)).stream
    }

    /// The expression of the query with this number.
    pub fn expr(&self, query: usize) -> &Expr
        requires { query < length self.now.order }
        ensures { ex_of result.now ≡ (query_in self.now query).expr }
    {
        self.work.expressions.get(self.place(query))
    }

    /// The numbers of the queries in the order of work.
    pub fn order(&self) -> &WorkOrder
        ensures value { result.now ≡ self.now.order }
        ensures stands { StandsInOrder self.now }
    {
        &self.work.order
    }

    /// The automaton lines of the queries, those of a stream before those that read it.
    pub fn lines(&self) -> &LongList<Line>
        ensures value { result.now ≡ lines_of (program_in self.now) }
        ensures few { sum_by (λ line. 1 + length line.hops) result.now < 2 ^ 64 }
    {
        &self.chains.lines
    }

    /// The streams of the lines. Printed are those of the queries, in the order of the file.
    pub fn layout(&self) -> &Layout
        ensures value { result.now ≡ self.now.layout }
        ensures laid { IsLayoutOver self.now.streams (program_in self.now) result.now }
    {
        &self.chains.layout
    }

    // The place of the query with this number in the order of work.
    pub(crate) fn place(&self, query: usize) -> usize
        requires { query < length self.now.order }
        ensures value { result ≡ position_or_len (λ other. query == other) self.now.order }
        ensures within { result < length self.now.order }
    {
        self.work.order.place_of(query)
    }
}
