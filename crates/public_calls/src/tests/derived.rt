//! Whether a derivation derives a tuple.
ghost use Rattle.std.specs.Prelude.{◌≡◌, ◌≤◌, ◌<◌, IfOk, OnOk, length};
ghost use Rattle.std.specs.List.{All};
ghost use Rattle.semantics.specs.Kinds.{HasKinds};
ghost use Rattle.semantics.specs.TypedPrograms.{HaveTheirKinds};
ghost use Rattle.cel_types.specs.SourceLaws.{kinds_in};
ghost use Rattle.catalogue.specs.Loaded.{IsUnchanged};
ghost use Rattle.derivations.specs.HeardLines.{events_of};

use crate::tests::monitors::are_of_kinds;
use catalogue::{Catalogue, load};
use event_types::{List, Memory, Tuple, Value};
use lineage::{Deriv, Heard, History, check};
use std::alloc::Global;
use std::process::Abort;
use std::sync::ledger::Blank;
use std::test::Fail;
use steps::{Ledger, Quiet, Steps};

/// Each event with the next one.
const QUERIES: &[u8] = b"STREAM Stock (x INT);\nSELECT * FROM Stock NEXT Stock PUBLISH Pair;\n";

// The queries, which were there from the beginning.
fn catalogue(rt: &impl Abort, alloc: Global) -> Catalogue
    ensures { IsUnchanged result }
{
    match load(alloc, QUERIES) {
        Ok(catalogue) => catalogue,
        Err(_) => panic!(rt; "refused"),
    }
}

// A tuple of these numbers.
fn tuple(
    rt: &impl Abort,
    alloc: Global,
    numbers: &[i128],
    from: u64,
    at: u64,
) -> Result<Tuple, Memory>
    ensures { IfOk result (λ tuple. tuple.at ≡ at) }
{
    let mut vals = List::new(alloc);
    for number in numbers {
        vals.add(Value::Int(*number))?;
    }
    match Tuple::make(vals, from, at) {
        Ok(tuple) => Ok(tuple),
        Err(_) => panic!(rt; "starts after its detection"),
    }
}

// No event is detected after this time.
fn are_until(rt: &impl Abort, events: &[Heard], time: u64)
    ensures { All (λ event. event.tuple.at ≤ time) events.now }
{
    for event in events {
        assert!(rt; event.tuple.at() <= time);
    }
}

// Hears an event of one number, on the line whose number is its time.
fn hear(
    rt: &impl Abort,
    alloc: Global,
    history: &mut History,
    number: i128,
    time: u64,
) -> Result<(), Memory> {
    let tuple = tuple(rt, alloc, &[number], time, time)?;
    are_until(rt, history.as_slice(), time);
    match history.push(Heard {
        stream: 0,
        tuple,
        line: time,
    }) {
        Ok(()) => Ok(()),
        Err(_) => Err(Memory),
    }
}

// Three events, one after another.
fn three(rt: &impl Abort, alloc: Global) -> Result<History, Memory> {
    let mut history = History::new(alloc);
    hear(rt, alloc, &mut history, 10, 1)?;
    hear(rt, alloc, &mut history, 11, 2)?;
    hear(rt, alloc, &mut history, 12, 3)?;
    Ok(history)
}

// The event has the kinds of its stream.
fn has_its_kinds(
    rt: &impl Abort,
    alloc: Global,
    catalogue: &Catalogue,
    event: &Heard,
) -> Result<(), Memory>
    ensures { OnOk result (HasKinds (kinds_in catalogue.now.streams event.now.stream) event.now.tuple) }
{
    assert!(rt; event.stream < catalogue.layout().kinds.len());
    let kinds = catalogue.streams().schema(event.stream).kinds(alloc)?;
    assert!(rt; are_of_kinds(kinds.as_slice(), event.tuple.vals().as_slice()));
    Ok(())
}

// So does each event.
fn have_their_kinds(
    rt: &impl Abort,
    alloc: Global,
    catalogue: &Catalogue,
    events: &[Heard],
) -> Result<(), Memory>
    ensures { OnOk result (HaveTheirKinds (kinds_in catalogue.now.streams) (events_of events.now)) }
{
    for event in events {
        has_its_kinds(rt, alloc, catalogue, event)?;
    }
    Ok(())
}

// Whether the derivation derives the tuple of the first query.
fn checked<L: Ledger>(
    alloc: Global,
    catalogue: &Catalogue,
    history: &History,
    tuple: &Tuple,
    deriv: &Deriv,
    blank: Blank,
) -> Result<bool, Memory>
    requires name { blank.name ≡ L.name }
    requires parts { blank.parts ≡ L.parts }
    requires some { 0 < blank.parts }
    requires unchanged { IsUnchanged catalogue.now }
    requires kinds { HaveTheirKinds (kinds_in catalogue.now.streams) (events_of history.now) }
    requires one { 0 < length catalogue.now.order }
{
    let mut steps = Steps::<L>::new(blank);
    check(alloc, catalogue, history, 0, tuple, deriv, &mut steps)
}

// Whether the event of this place and the one of that place derive the pair of these numbers.
fn derive(
    rt: &impl Abort,
    alloc: Global,
    places: (usize, usize),
    numbers: &[i128],
    span: (u64, u64),
) -> Result<bool, Memory> {
    let catalogue = catalogue(rt, alloc);
    assert!(rt; 0 < catalogue.queries());
    let history = three(rt, alloc)?;
    have_their_kinds(rt, alloc, &catalogue, history.as_slice())?;
    let tuple = tuple(rt, alloc, numbers, span.0, span.1)?;
    let left = Box::new(alloc, Deriv::Event(places.0))?;
    let right = Box::new(alloc, Deriv::Event(places.1))?;
    let deriv = Deriv::Next(left, right);
    checked::<Quiet>(alloc, &catalogue, &history, &tuple, &deriv, Blank::new(1))
}

#[test]
fn the_next_event_derives_a_pair_and_a_later_one_does_not(rt: HostRuntime) -> Result<(), Fail> {
    let alloc = rt.alloc();
    assert!(rt; derive(&rt, alloc, (1, 2), &[10, 11], (1, 2))?);
    assert!(rt; derive(&rt, alloc, (2, 3), &[11, 12], (2, 3))?);
    assert!(rt; !derive(&rt, alloc, (1, 3), &[10, 12], (1, 3))?);
    assert!(rt; !derive(&rt, alloc, (1, 2), &[10, 12], (1, 2))?);
    Ok(())
}
