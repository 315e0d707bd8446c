//! The top call.
ghost use Rattle.std.specs.Prelude.{◌≡◌, ◌^◌, false, Some};
ghost use Rattle.cay_host.specs.declared.side.Side.{Side};
ghost use Rattle.cay_host.specs.Told.{IsFree};
ghost use Rattle.command_line.specs.Table.{IsInRange, job, texts_of};
ghost use Rattle.cayuga_run.specs.Answers.{Answers};
ghost use Rattle.cayuga_run.specs.Blaming.{BlamesHost};
ghost use Rattle.cayuga_run.specs.Outcome.{Outcome};
ghost use Rattle.cayuga_run.specs.Reading.{Reads};
ghost use Rattle.cayuga_run.specs.Tests.{StaysWithinWork};
ghost use Rattle.cayuga_run.specs.Works.{has_side, work_of};

use crate::explain::explain;
use crate::load::load;
use crate::run::{Hearing, run};
use crate::status::Status;
use crate::writing::{check, plan};
use cay_host::{Host, Ledger, Steps};
use command_line::{Job, job_of};
use std::alloc::Global;

/// The most bytes of an event text that the program takes: 2^40.
const MOST_EVENT_BYTES: u64 = 1 << 40;

/// Does what the words after the program's name ask for. `run [--stats] QUERIES EVENTS` writes the report
/// of the queries over the events, of which at most 2^40 bytes are taken, and with the flag a line of stats
/// behind it. `check QUERIES` writes the canonical text of the queries, and `plan QUERIES` what each of them
/// publishes and reads. `load SEED N` runs the generator's texts and writes one line of numbers.
/// `explain QUERIES EVENTS` writes each result with the event lines that made it, of an event text with no control lines.
pub fn cayuga<H: Host, L: Ledger>(
    alloc: Global,
    host: &mut H,
    words: &[&str],
    steps: &mut Steps<L>,
) -> Status
    requires { IsFree (H.told host.old) }
    ensures answers { Answers (work_of (job (texts_of words.now))) (2 ^ 40) (H.told host.old) (H.told host.new) result }
    ensures tests { StaysWithinWork (work_of (job (texts_of words.now))) (2 ^ 40) (H.told host.old) (H.told host.new) steps.old steps.new }
{
    cayuga_within(alloc, host, words, MOST_EVENT_BYTES, steps)
}

/// The same with another limit on the bytes of the event text.
pub fn cayuga_within<H: Host, L: Ledger>(
    alloc: Global,
    host: &mut H,
    words: &[&str],
    limit: u64,
    steps: &mut Steps<L>,
) -> Status
    requires { IsFree (H.told host.old) }
    ensures answers { Answers (work_of (job (texts_of words.now))) limit (H.told host.old) (H.told host.new) result }
    ensures tests { StaysWithinWork (work_of (job (texts_of words.now))) limit (H.told host.old) (H.told host.new) steps.old steps.new }
{
    do_words(alloc, host, words, limit, steps)
}

// The same, by the table of the statuses.
fn do_words<H: Host, L: Ledger>(
    alloc: Global,
    host: &mut H,
    words: &[&str],
    limit: u64,
    steps: &mut Steps<L>,
) -> Status
    requires { IsFree (H.told host.old) }
    ensures outcome { Outcome (work_of (job (texts_of words.now))) limit (H.told host.old) (H.told host.new) result }
    ensures blames { BlamesHost (H.told host.old) (H.told host.new) result }
    ensures reads { Reads (work_of (job (texts_of words.now))) limit (H.told host.old) (H.told host.new) }
    ensures sides { (side : Side) → has_side (work_of (job (texts_of words.now))) side ≡ false → (H.told host.new).attached side ≡ false }
    ensures tests { StaysWithinWork (work_of (job (texts_of words.now))) limit (H.told host.old) (H.told host.new) steps.old steps.new }
{
    match job_of(alloc, words) {
        Ok(Some(job)) => do_job(alloc, host, &job, limit, steps),
        Ok(None) => Status::Usage,
        Err(_) => Status::Memory,
    }
}

// Does a job.
fn do_job<H: Host, L: Ledger>(
    alloc: Global,
    host: &mut H,
    job: &Job,
    limit: u64,
    steps: &mut Steps<L>,
) -> Status
    requires free { IsFree (H.told host.old) }
    requires in_range { IsInRange (Some job.now) }
    ensures outcome { Outcome (work_of (Some job.now)) limit (H.told host.old) (H.told host.new) result }
    ensures blames { BlamesHost (H.told host.old) (H.told host.new) result }
    ensures reads { Reads (work_of (Some job.now)) limit (H.told host.old) (H.told host.new) }
    ensures sides { (side : Side) → has_side (work_of (Some job.now)) side ≡ false → (H.told host.new).attached side ≡ false }
    ensures tests { StaysWithinWork (work_of (Some job.now)) limit (H.told host.old) (H.told host.new) steps.old steps.new }
{
    match job {
        Job::Run {
            queries,
            events,
            stats,
        } => {
            let hearing = Hearing {
                events: events.as_str(),
                limit,
                stats: *stats,
            };
            run(alloc, host, queries.as_str(), &hearing, steps)
        }
        Job::Check { queries } => check(alloc, host, queries.as_str()),
        Job::Plan { queries } => plan(alloc, host, queries.as_str()),
        Job::Load { seed, events } => load(alloc, host, *seed, *events, steps),
        Job::Explain { queries, events } => {
            explain(alloc, host, queries.as_str(), events.as_str(), limit, steps)
        }
    }
}
