//! Events that an engine hands back, and how many bindings wait.
ghost use Rattle.std.specs.Prelude.{◌≡◌, ◌<◌};

use crate::tests::offering::{NEWS, Parts, STOCK, catalogue, engine, offer};
use epoch_engine::{Batch, Engine, OfferFault};
use event_types::{Memory, StreamId, Tuple, Value};
use std::alloc::Global;
use std::process::Abort;
use std::sync::ledger::Blank;
use std::test::Fail;
use steps::{Ledger, Quiet, Steps};

/// The streams of Pair and Near, which stand behind the declared ones.
const PAIR: StreamId = 2;

const NEAR: StreamId = 4;

// A row: its start, its detection and its numbers.
type Row<'a> = (u64, u64, &'a [i128]);

// What is done with an engine, and what is seen then.
#[derive(Clone, Copy)]
enum Deed<'a> {
    // An event of a stream with a number, a start and a detection is taken.
    Offer(StreamId, i128, u64, u64),
    // An event of Stock with a start and a detection comes back, as late for this time.
    Late(u64, u64, u64),
    // The open epoch is closed, and a printed stream has these rows.
    Close(StreamId, &'a [Row<'a>]),
    // So many bindings are stored once those are taken out that no later event can match.
    Alive(u64),
}

// An event of a stream is taken; where memory for that is refused, it is offered again.
fn take(
    rt: &impl Abort,
    alloc: Global,
    engine: &mut Engine,
    stream: StreamId,
    parts: Parts,
) -> Result<(), Memory> {
    let answer = match offer(rt, alloc, engine, stream, parts)? {
        Err(OfferFault::Memory { .. }) => offer(rt, alloc, engine, stream, parts)?,
        answer => answer,
    };
    assert!(rt; answer.is_ok());
    Ok(())
}

// Closes the open epoch; where one request is refused, it is open still, and is closed at the second try.
fn close<L: Ledger>(rt: &impl Abort, alloc: Global, engine: &mut Engine, blank: Blank) -> Batch
    requires name { blank.name ≡ L.name }
    requires parts { blank.parts ≡ L.parts }
    requires some { 0 < blank.parts }
{
    let mut steps = Steps::<L>::new(blank);
    assert!(rt; engine.open_time().is_some());
    match engine.close(alloc, &mut steps) {
        Ok(batch) => batch,
        Err(_) => match engine.close(alloc, &mut steps) {
            Ok(batch) => batch,
            Err(_) => panic!(rt; "refused once more"),
        },
    }
}

// These are the rows of a printed stream, and no other has some.
fn is_printed(rt: &impl Abort, batch: &Batch, stream: StreamId, rows: &[Row<'_>]) {
    let printed = batch.printed();
    match printed.streams {
        [] => assert_eq!(rt; rows.len(), 0),
        [only] => {
            assert_eq!(rt; *only, stream);
            assert!(rt; *only < printed.places.len());
            let places = printed.places[*only].as_slice();
            are(rt, printed.tuples, places, rows);
        }
        _ => panic!(rt; "several streams have rows"),
    }
}

// The tuples at these places are these rows.
fn are(rt: &impl Abort, tuples: &[Tuple], places: &[usize], rows: &[Row<'_>]) {
    assert_eq!(rt; places.len(), rows.len());
    for (place, row) in places.iter().zip(rows) {
        assert!(rt; *place < tuples.len());
        is_row(rt, &tuples[*place], *row);
    }
}

// The tuple is this row.
fn is_row(rt: &impl Abort, tuple: &Tuple, row: Row<'_>) {
    let (from, at, numbers) = row;
    assert_eq!(rt; (tuple.from(), tuple.at()), (from, at));
    assert_eq!(rt; tuple.vals().len(), numbers.len());
    for (value, number) in tuple.vals().as_slice().iter().zip(numbers) {
        assert!(rt; *value == Value::Int(*number));
    }
}

// The open epoch has these rows of a printed stream.
fn closes_with(
    rt: &impl Abort,
    alloc: Global,
    engine: &mut Engine,
    stream: StreamId,
    rows: &[Row<'_>],
) {
    let batch = close::<Quiet>(rt, alloc, engine, Blank::new(1));
    is_printed(rt, &batch, stream, rows);
    engine.take_back(batch);
}

// An event of Stock is out of order for what was seen, and comes back.
fn comes_back(
    rt: &impl Abort,
    alloc: Global,
    engine: &mut Engine,
    from: u64,
    at: u64,
    seen: u64,
) -> Result<(), Memory> {
    match offer(rt, alloc, engine, STOCK, (8, from, at))? {
        Err(
            OfferFault::OutOfOrder {
                at: offered,
                seen: met,
                tuple,
            },
        ) => {
            assert_eq!(rt; (offered, met), (at, seen));
            is_row(rt, &tuple, (from, at, &[8]));
            Ok(())
        }
        _ => panic!(rt; "not out of order"),
    }
}

// Does one thing with an engine.
fn does(rt: &impl Abort, alloc: Global, engine: &mut Engine, deed: Deed<'_>) -> Result<(), Memory> {
    match deed {
        Deed::Offer(stream, number, from, at) => {
            take(rt, alloc, engine, stream, (number, from, at))?;
        }
        Deed::Late(from, at, seen) => comes_back(rt, alloc, engine, from, at, seen)?,
        Deed::Close(stream, rows) => closes_with(rt, alloc, engine, stream, rows),
        Deed::Alive(count) => {
            engine.trim();
            assert_eq!(rt; engine.live(), count);
        }
    }
    Ok(())
}

// Does one thing after another.
fn goes_through(
    rt: &impl Abort,
    alloc: Global,
    engine: &mut Engine,
    deeds: &[Deed<'_>],
) -> Result<(), Memory> {
    for deed in deeds {
        does(rt, alloc, engine, *deed)?;
    }
    Ok(())
}

// A new engine goes through the deeds.
fn expect(rt: &impl Abort, alloc: Global, deeds: &[Deed<'_>]) -> Result<(), Memory> {
    let mut engine = engine(alloc, &catalogue(alloc)?)?;
    goes_through(rt, alloc, &mut engine, deeds)
}

// Late for the open epoch, and for a closed one.
const LATE: [Deed; 6] = [
    Deed::Offer(STOCK, 7, 3, 3),
    Deed::Late(1, 2, 3),
    Deed::Close(NEAR, &[]),
    Deed::Late(2, 3, 3),
    Deed::Offer(STOCK, 9, 4, 4),
    Deed::Close(NEAR, &[(3, 4, &[7, 9])]),
];

#[test]
fn late_event_comes_back(rt: HostRuntime) -> Result<(), Fail> {
    expect(&rt, rt.alloc(), &LATE)?;
    Ok(())
}

// The event of 1 waits for an equal one, for a lower one, for any within 5 and for a pair. News meets none of
// these; after the epoch of 6 the third is out of time. The event of 7 meets the first, and waits for all four.
const WAITING: [Deed; 14] = [
    Deed::Alive(0),
    Deed::Offer(STOCK, 7, 1, 1),
    Deed::Alive(0),
    Deed::Close(PAIR, &[]),
    Deed::Alive(4),
    Deed::Offer(NEWS, 0, 5, 5),
    Deed::Close(PAIR, &[]),
    Deed::Alive(4),
    Deed::Offer(NEWS, 0, 6, 6),
    Deed::Close(PAIR, &[]),
    Deed::Alive(3),
    Deed::Offer(STOCK, 7, 7, 7),
    Deed::Close(PAIR, &[(1, 7, &[7, 7])]),
    Deed::Alive(6),
];

#[test]
fn bindings_that_wait_are_counted(rt: HostRuntime) -> Result<(), Fail> {
    expect(&rt, rt.alloc(), &WAITING)?;
    Ok(())
}
