//! Queries that leave a catalogue.
use catalogue::{Catalogue, DropFault, Dropped, load};
use std::alloc::Global;
use std::process::Abort;
use std::test::Fail;

// Later reads Early.
const QUERIES: &[u8] = b"STREAM Stock (x INT);\n\
    SELECT * FROM Stock PUBLISH Early;\n\
    SELECT * FROM Early NEXT Stock PUBLISH Later;\n";

// The catalogue of the queries.
fn catalogue(rt: &impl Abort, alloc: Global) -> Catalogue {
    match load(alloc, QUERIES) {
        Ok(catalogue) => catalogue,
        Err(_) => panic!(rt; "refused"),
    }
}

// The query can't leave, as this one reads it.
fn is_read(rt: &impl Abort, answer: Result<Dropped, DropFault>, by: &str) {
    match answer {
        Err(DropFault::InUse { reader }) => assert_eq!(rt; reader.as_str(), by),
        _ => panic!(rt; "no query reads it"),
    }
}

// No query has the name.
fn is_unknown(rt: &impl Abort, answer: Result<Dropped, DropFault>) {
    match answer {
        Err(DropFault::UnknownQuery) => {}
        _ => panic!(rt; "a query has the name"),
    }
}

// The query left, with the ends of these numbers.
fn left(rt: &impl Abort, answer: Result<Dropped, DropFault>, ends: &[usize]) {
    match answer {
        Ok(dropped) => assert!(rt; dropped.ends.as_slice() == ends),
        Err(_) => panic!(rt; "it stays"),
    }
}

#[test]
fn a_query_leaves_once_none_reads_it(rt: HostRuntime) -> Result<(), Fail> {
    let alloc = rt.alloc();
    let mut catalogue = catalogue(&rt, alloc);
    assert!(rt; catalogue.queries() == 2);
    assert!(rt; catalogue.birth_of(1).is_none());
    is_read(&rt, catalogue.drop_query(alloc, "Early"), "Later");
    is_unknown(&rt, catalogue.drop_query(alloc, "Stock"));
    left(&rt, catalogue.drop_query(alloc, "Later"), &[1]);
    is_unknown(&rt, catalogue.drop_query(alloc, "Later"));
    left(&rt, catalogue.drop_query(alloc, "Early"), &[0]);
    assert!(rt; catalogue.queries() == 0);
    Ok(())
}
