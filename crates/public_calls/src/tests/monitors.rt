//! Queries that come and go beside an engine, by the calls of a catalogue and of an engine.
ghost use Rattle.std.specs.Prelude.{◌≡◌, ◌<◌, None, IsSome, IsTrue, IfOk, OnErr};
ghost use Rattle.event_types.specs.Tuple.{IsSound};
ghost use Rattle.automaton.specs.Layouts.{grown, shrunk};
ghost use Rattle.semantics.specs.Kinds.{ValueHasKind, ValuesHaveKinds};
ghost use Rattle.change_laws.specs.Calls.{MayBeAdded, MayBeRemoved};
ghost use Rattle.epoch_engine.specs.Adding.{Adds, Drops};
ghost use Rattle.epoch_engine.specs.Closes.{Closes, KeepsPlan};
ghost use Rattle.epoch_engine.specs.Offers.{IsHeard, IsNotAhead};

use crate::tests::offering::is_worked;
use catalogue::{AddFault, Added, Catalogue, DropFault, Dropped, load};
use epoch_engine::{Batch, Engine};
use event_types::{Kind, Memory, StreamId, Tuple, Value};
use prefix_merge::Merged;
use std::alloc::Global;
use std::marker::Model;
use std::process::Abort;
use std::sync::ledger::Blank;
use steps::{Ledger, Quiet, Steps};

/// The queries that are there and an engine that is at one with them, through whatever was offered, and whatever queries
/// came and left. Contracts see the catalogue.
#[derive(Drop)]
pub struct Monitor {
    catalogue: Catalogue,
    engine: Engine,
}

impl Model for Monitor {
    ghost use Rattle.catalogue.specs.Catalogued.{Catalogued, catalogued_code};

    ghost Value = { Catalogued };

    ghost coded = { catalogued_code };

    ghost view = { λ m. m.catalogue };

    ghost use Rattle.std.specs.Prelude.{List};
    ghost use Rattle.semantics.specs.Histories.{Event};
    ghost use Rattle.change_laws.specs.Courses.{StandsForProgram};

    ghost invariant = { λ m. (events : List Event) × StandsForProgram (record { catalogue = m.catalogue; engine = m.engine; events = events }) };
}

impl Monitor {
    /// The queries of a text, and an engine over them that has heard nothing.
    pub fn make(rt: &impl Abort, alloc: Global, text: &[u8]) -> Result<Monitor, Memory> {
        let catalogue = match load(alloc, text) {
            Ok(catalogue) => catalogue,
            Err(_) => panic!(rt; "refused"),
        };
        let _queries = catalogue.queries();
        let merged = Merged::of(alloc, catalogue.lines())?;
        let layout = catalogue.layout().copy(alloc)?;
        let engine = Engine::make(alloc, merged, layout)?;
        Ok(Monitor { catalogue, engine })
    }

    /// The queries that are there.
    pub fn catalogue(&self) -> &Catalogue
        ensures { result.now ≡ self.now }
    {
        &self.catalogue
    }

    /// The open epoch.
    pub fn open_time(&self) -> Option<u64> {
        self.engine.open_time()
    }

    /// The number of states.
    pub fn states(&self) -> usize {
        self.engine.network().states()
    }

    /// The number of bindings that are stored.
    pub fn live(&self) -> u64 {
        self.engine.live()
    }

    /// Takes the bindings out that no later event can match.
    pub fn trim(&mut self) {
        self.engine.trim();
    }

    /// Offers an event of a declared stream, with values of its kinds, in the open epoch or a later one.
    pub fn offer(&mut self, rt: &impl Abort, stream: StreamId, event: Tuple) {
        assert!(rt; stream < self.catalogue.declared());
        check_event(rt, &self.engine, stream, &event);
        check_time(rt, &self.engine, &event);
        match self.engine.offer(stream, event) {
            Ok(()) => {}
            Err(_) => panic!(rt; "not taken"),
        }
    }

    /// Closes the open epoch.
    pub fn close(&mut self, rt: &impl Abort, alloc: Global) -> Result<Batch, Memory> {
        assert!(rt; self.engine.open_time().is_some());
        close::<Quiet>(alloc, &mut self.engine, Blank::new(1))
    }

    /// Takes a batch back that was read.
    pub fn take_back(&mut self, batch: Batch) {
        self.engine.take_back(batch);
    }

    /// Brings the query of a text, where no epoch is open.
    pub fn add(&mut self, rt: &impl Abort, alloc: Global, text: &[u8]) -> Result<(), AddFault> {
        assert!(rt; self.engine.open_time().is_none());
        let since = self.engine.last_closed();
        let added = self.catalogue.add(alloc, text, since)?;
        let _queries = self.catalogue.queries();
        bring(rt, alloc, &mut self.engine, since, added);
        Ok(())
    }

    /// Takes the query of this name out, where no epoch is open.
    pub fn drop_query(
        &mut self,
        rt: &impl Abort,
        alloc: Global,
        name: &str,
    ) -> Result<(), DropFault> {
        assert!(rt; self.engine.open_time().is_none());
        let dropped = self.catalogue.drop_query(alloc, name)?;
        let _queries = self.catalogue.queries();
        take_out(&mut self.engine, dropped);
        Ok(())
    }

    /// Lets go of the queries and of the engine, each by itself.
    pub fn end(self) {
        let Monitor { catalogue, engine } = self;
        end_queries(catalogue);
        end_engine(engine);
    }
}

// Lets go of a catalogue.
fn end_queries(_catalogue: Catalogue) {}

// Lets go of an engine.
fn end_engine(_engine: Engine) {}

// The stream of an event is declared, and its values are of the stream's kinds.
fn check_event(rt: &impl Abort, engine: &Engine, stream: StreamId, event: &Tuple)
    ensures { IsHeard engine.now.layout stream event.now }
{
    let layout = engine.layout();
    assert!(rt; stream < layout.kinds.len());
    let kinds = layout.kinds.get(stream);
    assert!(rt; are_of_kinds(kinds.as_slice(), event.vals().as_slice()));
    assert!(rt; !is_worked(&layout.order, stream));
}

// An event isn't ahead of the open epoch.
fn check_time(rt: &impl Abort, engine: &Engine, event: &Tuple)
    ensures not_ahead { IsNotAhead engine.now.time event.now.at }
    ensures sound { IsSound event.now }
{
    let at = event.at();
    if let Some(time) = engine.open_time() {
        assert!(rt; at <= time);
    }
}

// Adds what a catalogue told of a query that came to an engine.
fn bring(rt: &impl Abort, alloc: Global, engine: &mut Engine, since: Option<u64>, added: Added)
    requires closed { engine.old.time ≡ None }
    requires since { since ≡ engine.old.closed_time }
    requires may { MayBeAdded added.lines added.ends added.growth engine.old }
    ensures { Adds added.lines added.ends since (grown engine.old.layout added.growth) engine.old engine.new }
{
    let growth = added.growth;
    match engine.add(alloc, &added.lines, &added.ends, since, growth) {
        Ok(()) => {}
        Err(_) => panic!(rt; "no memory"),
    }
}

// Removes what a catalogue gave out of a query that left from an engine.
fn take_out(engine: &mut Engine, dropped: Dropped)
    requires closed { engine.old.time ≡ None }
    requires may { MayBeRemoved dropped.ends dropped.part engine.old }
    ensures { Drops dropped.ends (shrunk engine.old.layout dropped.part) engine.old engine.new }
{
    engine.remove(&dropped.ends, dropped.part);
}

// Closes the open epoch of an engine.
fn close<L: Ledger>(alloc: Global, engine: &mut Engine, blank: Blank) -> Result<Batch, Memory>
    requires name { blank.name ≡ L.name }
    requires parts { blank.parts ≡ L.parts }
    requires some { 0 < blank.parts }
    requires opened { IsSome engine.old.time }
    ensures closed { IfOk result (λ batch. Closes engine.old engine.new batch) }
    ensures plan { KeepsPlan engine.old engine.new }
    ensures kept { OnErr result (engine.new ≡ engine.old) }
{
    let mut steps = Steps::<L>::new(blank);
    engine.close(alloc, &mut steps)
}

/// Whether values are of these kinds, one by one.
pub fn are_of_kinds(kinds: &[Kind], vals: &[Value]) -> bool
    ensures { IsTrue result → ValuesHaveKinds kinds.now vals.now }
{
    let Some((kind, other_kinds)) = kinds.split_first() else {
        return vals.is_empty();
    };
    let Some((value, others)) = vals.split_first() else {
        return false;
    };
    is_of_kind(*kind, value) && are_of_kinds(other_kinds, others)
}

// Whether a value is of a kind.
fn is_of_kind(kind: Kind, value: &Value) -> bool
    ensures { IsTrue result → ValueHasKind kind value.now }
{
    match (kind, value) {
        (Kind::Int, Value::Int(_)) | (Kind::Text, Value::Text(_)) => true,
        (Kind::Int, Value::Over) | (Kind::Dec(_), Value::Over) => true,
        (Kind::Dec(places), Value::Dec { scale, .. }) => places == *scale,
        _ => false,
    }
}

/// Whether the tuples of a stream in a batch are these, in their order.
pub fn has_tuples(batch: &Batch, stream: StreamId, wanted: &[Tuple]) -> bool {
    let printed = batch.printed();
    if printed.streams.contains(&stream) && stream < printed.places.len() {
        are(printed.tuples, printed.places[stream].as_slice(), wanted)
    } else {
        wanted.is_empty()
    }
}

// Whether the tuples at these places are those.
fn are(tuples: &[Tuple], places: &[usize], wanted: &[Tuple]) -> bool {
    if places.len() != wanted.len() {
        return false;
    }
    for (place, tuple) in places.iter().zip(wanted) {
        if tuples.len() <= *place || tuples[*place] != *tuple {
            return false;
        }
    }
    true
}
