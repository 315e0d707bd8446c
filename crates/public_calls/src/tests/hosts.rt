//! A host in memory with pieces, room and calls that fail, and a host that counts lines.
ghost use Rattle.std.specs.Prelude.{◌<◌, IfOk};
ghost use Rattle.cay_host.specs.MemHost.{mem_told};
ghost use Rattle.cay_host.specs.Told.{IsFree};

use cay_host::{Failed, Host, MemHost, Side, TallyHost, write_whole};
use std::alloc::{AllocError, Global};
use std::test::Fail;

fn host_with_events(alloc: Global, room: usize) -> Result<MemHost, AllocError>
    ensures { IfOk result (λ host. IsFree (mem_told host)) }
{
    let mut host = MemHost::make(alloc, room)?;
    host.put("events", b"old")?;
    host.put("events", b"abcde")?;
    Ok(host)
}

#[test]
fn pieces_bound_each_read_and_each_write(rt: HostRuntime) -> Result<(), Fail> {
    let mut host = host_with_events(rt.alloc(), 5)?;
    host.pieces(2, 3);
    let mut buf = [0u8; 4];
    assert_eq!(rt; host.attach(Side::Events, "events"), Ok(()));
    assert_eq!(rt; host.read(Side::Events, &mut buf), Ok(2));
    assert_eq!(rt; buf, *b"ab\0\0");
    assert_eq!(rt; host.read(Side::Events, &mut buf[..1]), Ok(1));
    assert_eq!(rt; host.read(Side::Events, &mut buf), Ok(2));
    assert_eq!(rt; host.read(Side::Events, &mut buf), Ok(0));
    assert_eq!(rt; host.write(b"wxyz"), Ok(3));
    assert_eq!(rt; host.write(b"wxyz"), Ok(2));
    assert_eq!(rt; host.write(b"wxyz"), Err(Failed));
    assert_eq!(rt; host.written(), b"wxywx".as_slice());
    Ok(())
}

#[test]
fn a_listed_call_fails_and_an_absent_name_is_a_call(rt: HostRuntime) -> Result<(), Fail> {
    let mut host = host_with_events(rt.alloc(), 5)?;
    host.fail(2)?;
    host.fail(4)?;
    let mut buf = [0u8; 9];
    assert_eq!(rt; host.attach(Side::Events, "absent"), Err(Failed));
    assert_eq!(rt; host.attach(Side::Events, "events"), Err(Failed));
    assert_eq!(rt; host.attach(Side::Events, "events"), Ok(()));
    assert_eq!(rt; host.read(Side::Events, &mut buf), Err(Failed));
    assert_eq!(rt; host.read(Side::Events, &mut buf), Ok(5));
    Ok(())
}

#[test]
fn a_whole_write_stops_where_the_room_ends(rt: HostRuntime) -> Result<(), Fail> {
    let mut host = host_with_events(rt.alloc(), 7)?;
    host.pieces(1, 2);
    assert_eq!(rt; write_whole(&mut host, b""), Ok(()));
    assert_eq!(rt; write_whole(&mut host, b"abcde"), Ok(()));
    assert_eq!(rt; write_whole(&mut host, b"fgh"), Err(Failed));
    assert_eq!(rt; host.written(), b"abcdefg".as_slice());
    Ok(())
}

#[test]
fn a_tally_counts_lines_and_opens_no_file(rt: HostRuntime) -> Result<(), Fail> {
    let mut host = TallyHost::new();
    assert_eq!(rt; host.lines(), 0);
    assert_eq!(rt; host.attach(Side::Queries, "events"), Err(Failed));
    assert_eq!(rt; host.write(b"ab\n\ncd"), Ok(6));
    assert_eq!(rt; write_whole(&mut host, b"\n"), Ok(()));
    assert_eq!(rt; host.lines(), 3);
    Ok(())
}
