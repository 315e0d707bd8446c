//! A statement's canonical line, a result line that is read as an event again, and a stream that is retired.
use cel_lexer::lex;
use cel_parser::parse;
use cel_print::print_one;
use event_csv::{Feed, Got, read_event};
use event_types::{Kind, Tuple};
use result_text::row;
use std::alloc::Global;
use std::process::Abort;
use std::test::Fail;
use stream_schema::{Schema, Streams};

#[test]
fn one_statement_is_printed(rt: HostRuntime) -> Result<(), Fail> {
    let alloc = rt.alloc();
    let tokens = lex(alloc, b"STREAM S(a INT);SELECT*FROM((S))PUBLISH Q;")?;
    let file = parse(alloc, &tokens)?;
    assert!(rt; file.size() == 2);
    let line = print_one(alloc, &file, 1)?;
    assert_eq!(rt; line.as_str(), "SELECT * FROM S PUBLISH Q;\n");
    Ok(())
}

// One stream of one number.
fn streams(alloc: Global) -> Result<Streams, Fail> {
    let mut schema = Schema::new(alloc);
    schema.add("a", Kind::Int)?;
    let mut streams = Streams::new(alloc);
    streams.add("S", schema, true)?;
    Ok(streams)
}

// The event of the next line.
fn next_event(rt: &impl Abort, alloc: Global, streams: &Streams, feed: &mut Feed) -> Tuple {
    let Got::Line { number: _, bytes } = feed.next_line() else {
        panic!(rt; "no line");
    };
    match read_event(alloc, streams, bytes) {
        Ok(event) => event.tuple,
        Err(_) => panic!(rt; "no event"),
    }
}

#[test]
fn a_result_line_is_read_as_an_event(rt: HostRuntime) -> Result<(), Fail> {
    let alloc = rt.alloc();
    let streams = streams(alloc)?;
    let mut feed = Feed::new(alloc);
    feed.push(b"S,3,4,-5\n")?;
    let event = next_event(&rt, alloc, &streams, &mut feed);
    let line = row(alloc, "S", &event)?;
    assert_eq!(rt; line.as_str(), "S,3,4,-5\n");
    Ok(())
}

#[test]
fn a_retired_name_is_free_again(rt: HostRuntime) -> Result<(), Fail> {
    let alloc = rt.alloc();
    let mut streams = Streams::new(alloc);
    let first = streams.add("Q", Schema::new(alloc), false)?;
    streams.retire(first);
    assert!(rt; streams.named(first).is_none());
    assert!(rt; streams.find("Q").is_none());
    let second = streams.add("Q", Schema::new(alloc), false)?;
    assert!(rt; second == 1);
    assert!(rt; streams.find_near(first, "Q") == Some(1));
    Ok(())
}
