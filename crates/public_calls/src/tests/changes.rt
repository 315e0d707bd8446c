//! A query that comes while another waits, by the calls of a catalogue and of an engine.
use crate::tests::monitors::{Monitor, has_tuples};
use catalogue::DropFault;
use event_types::{List, Memory, Text, Tuple, Tuples, Vals, Value};
use std::alloc::Global;
use std::process::Abort;
use std::test::Fail;

/// Pair waits for an event of the same name.
const QUERIES: &[u8] = b"STREAM Stock (Name TEXT, Price INT, Volume INT);\n\
    SELECT * FROM Stock NEXT {$2.Name = $1.Name} Stock PUBLISH Pair;\n";

/// The same under another name.
const OTHER: &[u8] = b"SELECT * FROM Stock NEXT {$2.Name = $1.Name} Stock PUBLISH Pair2;";

// A trade: its name, its price and its volume.
type Trade<'a> = (&'a str, i128, i128);

// A row: its start, its detection and its trades.
type Row<'a> = (u64, u64, &'a [Trade<'a>]);

// What is done with a monitor, and what is seen then.
#[derive(Clone, Copy)]
enum Deed<'a> {
    // A trade at a time is offered and its epoch closed: the first query has these rows.
    Hears(u64, Trade<'a>, &'a [Row<'a>]),
    // The query of a text comes.
    Adds(&'a [u8]),
    // The query of a name leaves.
    Drops(&'a str),
    // No query has the name.
    HasNo(&'a str),
    // So many states are there, and so many bindings are stored.
    Has(usize, u64),
    // The bindings that no later event can match are taken out.
    Trims,
}

// Puts the values of a trade behind others.
fn add_values(alloc: Global, vals: &mut Vals, trade: Trade<'_>) -> Result<(), Memory> {
    let (name, price, volume) = trade;
    vals.add(Value::Text(Text::make(alloc, name)?))?;
    vals.add(Value::Int(price))?;
    vals.add(Value::Int(volume))
}

// The tuple of a row.
fn tuple_of(rt: &impl Abort, alloc: Global, row: Row<'_>) -> Result<Tuple, Memory> {
    let (from, at, trades) = row;
    let mut vals: Vals = List::new(alloc);
    for trade in trades {
        add_values(alloc, &mut vals, *trade)?;
    }
    match Tuple::make(vals, from, at) {
        Ok(tuple) => Ok(tuple),
        Err(_) => panic!(rt; "starts after its detection"),
    }
}

// The tuples of rows.
fn tuples_of(rt: &impl Abort, alloc: Global, rows: &[Row<'_>]) -> Result<Tuples, Memory> {
    let mut tuples: Tuples = List::new(alloc);
    for row in rows {
        tuples.add(tuple_of(rt, alloc, *row)?)?;
    }
    Ok(tuples)
}

// Closes the open epoch, in which the first query has these rows.
fn closes(
    rt: &impl Abort,
    alloc: Global,
    monitor: &mut Monitor,
    rows: &[Row<'_>],
) -> Result<(), Memory> {
    let wanted = tuples_of(rt, alloc, rows)?;
    let catalogue = monitor.catalogue();
    assert!(rt; 0 < catalogue.queries());
    let first = catalogue.stream_of(0);
    let batch = monitor.close(rt, alloc)?;
    assert!(rt; has_tuples(&batch, first, wanted.as_slice()));
    monitor.take_back(batch);
    Ok(())
}

// Does one thing with a monitor.
fn does(
    rt: &impl Abort,
    alloc: Global,
    monitor: &mut Monitor,
    deed: Deed<'_>,
) -> Result<(), Memory> {
    match deed {
        Deed::Hears(time, trade, rows) => {
            let event = tuple_of(rt, alloc, (time, time, &[trade]))?;
            monitor.offer(rt, 0, event);
            closes(rt, alloc, monitor, rows)?;
        }
        Deed::Adds(text) => assert!(rt; monitor.add(rt, alloc, text).is_ok()),
        Deed::Drops(name) => assert!(rt; monitor.drop_query(rt, alloc, name).is_ok()),
        Deed::HasNo(name) => is_unknown(rt, monitor.drop_query(rt, alloc, name)),
        Deed::Has(states, live) => assert_eq!(rt;
            (monitor.states(), monitor.live()),
            (states, live)
        ),
        Deed::Trims => monitor.trim(),
    }
    Ok(())
}

// No query has the name.
fn is_unknown(rt: &impl Abort, answer: Result<(), DropFault>) {
    assert!(rt; matches!(answer, Err(DropFault::UnknownQuery)));
}

// Two bindings wait at the state that the two queries share. Once Pair has left, none of them is of use to Pair2,
// which has but the pair that begins after its birth.
const DEEDS: [Deed; 12] = [
    Deed::Hears(1, ("IBM", 10, 5), &[]),
    Deed::Hears(2, ("ACME", 20, 5), &[]),
    Deed::Has(2, 2),
    Deed::Adds(OTHER),
    Deed::Has(2, 2),
    Deed::Drops("Pair"),
    Deed::Has(2, 2),
    Deed::Trims,
    Deed::Has(2, 0),
    Deed::Hears(3, ("IBM", 12, 7), &[]),
    Deed::Hears(
        4,
        ("IBM", 13, 8),
        &[(3, 4, &[("IBM", 12, 7), ("IBM", 13, 8)])],
    ),
    Deed::HasNo("Pair"),
];

// Does it all.
fn does_all(rt: &impl Abort, alloc: Global, monitor: &mut Monitor) -> Result<(), Memory> {
    for deed in &DEEDS {
        does(rt, alloc, monitor, *deed)?;
    }
    Ok(())
}

#[test]
fn a_query_that_comes_shares_states_and_begins_anew(rt: HostRuntime) -> Result<(), Fail> {
    let mut monitor = Monitor::make(&rt, rt.alloc(), QUERIES)?;
    let done = does_all(&rt, rt.alloc(), &mut monitor);
    monitor.end();
    done?;
    Ok(())
}
