//! Runs over a host in memory: its pieces, calls that fail, limits, and control lines. What else files show stands in
//! examples/.
ghost use Rattle.std.specs.Prelude.{◌≡◌, ◌<◌, IfOk};
ghost use Rattle.cay_host.specs.MemHost.{mem_told};
ghost use Rattle.cay_host.specs.Told.{IsFree};

mod cases;
mod control;
mod failing;

use cases::{CASES, Case, PAIRS};
use cay_host::{Ledger, MemHost, Quiet, Steps};
use cayuga_run::{Status, cayuga_within};
use control::{COMES, CONTROLS};
use failing::{STAGES, Stage};
use std::alloc::{AllocError, Global};
use std::process::Abort;
use std::sync::ledger::Blank;
use std::test::Fail;

// A host with the texts of a case.
fn host_with(alloc: Global, case: &Case<'_>) -> Result<MemHost, AllocError>
    ensures { IfOk result (λ host. IsFree (mem_told host)) }
{
    let mut host = MemHost::make(alloc, 1000)?;
    host.put("q", case.queries)?;
    host.put("e", case.events)?;
    host.fail(case.failing)?;
    Ok(host)
}

// The run of a case.
fn status_of<L: Ledger>(alloc: Global, host: &mut MemHost, case: &Case<'_>, blank: Blank) -> Status
    requires name { blank.name ≡ L.name }
    requires parts { blank.parts ≡ L.parts }
    requires some { 0 < blank.parts }
    requires free { IsFree (mem_told host.old) }
{
    let mut steps = Steps::<L>::new(blank);
    cayuga_within(alloc, host, case.words, case.limit, &mut steps)
}

// The run of a case ends and writes as it says.
fn expect(rt: &impl Abort, alloc: Global, case: &Case<'_>) -> Result<(), Fail> {
    let (read, write) = case.pieces;
    assert!(rt; 0 < read);
    assert!(rt; 0 < write);
    let mut host = host_with(alloc, case)?;
    host.pieces(read, write);
    let status = status_of::<Quiet>(alloc, &mut host, case, Blank::new(1));
    let text = status.text(alloc)?;
    assert!(rt; text.as_str() == case.status, "{}", case.name);
    assert!(rt; host.written() == case.written, "{}", case.name);
    Ok(())
}

#[test]
fn pieces_calls_that_fail_and_limits_are_told(rt: HostRuntime) -> Result<(), Fail> {
    for case in &CASES {
        expect(&rt, rt.alloc(), case)?;
    }
    Ok(())
}

#[test]
fn control_lines_change_the_queries_between_epochs(rt: HostRuntime) -> Result<(), Fail> {
    for case in &CONTROLS {
        expect(&rt, rt.alloc(), case)?;
    }
    Ok(())
}

#[test]
fn control_lines_are_heard_alike_however_the_text_is_cut(rt: HostRuntime) -> Result<(), Fail> {
    for size in 1..COMES.events.len() {
        let case = Case {
            pieces: (size, 1000),
            ..COMES
        };
        expect(&rt, rt.alloc(), &case)?;
    }
    Ok(())
}

// The calls of a stage, one a run, fail.
fn fail_in_turn(rt: &impl Abort, alloc: Global, stage: &Stage<'_>) -> Result<(), Fail> {
    for place in 0..stage.calls {
        let more = if stage.writes { place as usize } else { 0 };
        let written = stage.written.saturating_add(more);
        assert!(rt; written <= PAIRS.written.len());
        let case = Case {
            name: stage.name,
            failing: stage.first.saturating_add(place),
            status: stage.status,
            written: &PAIRS.written[..written],
            ..PAIRS
        };
        expect(rt, alloc, &case)?;
    }
    Ok(())
}

#[test]
fn each_call_that_fails_is_told_with_what_was_written_before(rt: HostRuntime) -> Result<(), Fail> {
    for stage in &STAGES {
        fail_in_turn(&rt, rt.alloc(), stage)?;
    }
    Ok(())
}
