//! A text about accepted queries, written whole.
ghost use Rattle.std.specs.Prelude.{◌≡◌, false};
ghost use Rattle.cay_host.specs.declared.side.Side.TheVariants.{Queries, Events};
ghost use Rattle.cay_host.specs.Output.{SameButOutput};
ghost use Rattle.cayuga_run.specs.Blaming.{BlamesHost};
ghost use Rattle.cayuga_run.specs.Reading.{ReadsNoEvents};
ghost use Rattle.cayuga_run.specs.WritingText.{WritesText};
ghost use Rattle.cayuga_run.specs.Works.{canonical_of};
ghost use Rattle.cayuga_run.specs.WritingOutcome.{WritingOutcome};
ghost use Rattle.plan_text.specs.Plan.{plan_of};

use crate::accepting::accept;
use crate::status::Status;
use catalogue::Catalogue;
use cay_host::{Host, write_whole};
use cel_print::print;
use std::alloc::Global;

/// Writes the canonical text of the queries.
pub fn check<H: Host>(alloc: Global, host: &mut H, queries: &str) -> Status
    requires queries { (H.told host.old).attached Queries ≡ false }
    requires events { (H.told host.old).attached Events ≡ false }
    ensures outcome { WritingOutcome (record { queries = queries.now; text_of = canonical_of }) (H.told host.old) (H.told host.new) result }
    ensures blames { BlamesHost (H.told host.old) (H.told host.new) result }
    ensures reads { ReadsNoEvents queries.now (H.told host.old) (H.told host.new) }
    ensures events { (H.told host.new).attached Events ≡ false }
{
    match accept(alloc, host, queries) {
        Ok(catalogue) => match print(alloc, catalogue.file()) {
            Ok(text) => {
                let_go(catalogue);
                write_text(host, text.as_str())
            }
            Err(_) => {
                let_go(catalogue);
                Status::Memory
            }
        },
        Err(status) => status,
    }
}

/// Writes what each query publishes and reads, in the order of work.
pub fn plan<H: Host>(alloc: Global, host: &mut H, queries: &str) -> Status
    requires queries { (H.told host.old).attached Queries ≡ false }
    requires events { (H.told host.old).attached Events ≡ false }
    ensures outcome { WritingOutcome (record { queries = queries.now; text_of = plan_of }) (H.told host.old) (H.told host.new) result }
    ensures blames { BlamesHost (H.told host.old) (H.told host.new) result }
    ensures reads { ReadsNoEvents queries.now (H.told host.old) (H.told host.new) }
    ensures events { (H.told host.new).attached Events ≡ false }
{
    match accept(alloc, host, queries) {
        Ok(catalogue) => match plan_text::plan(alloc, &catalogue) {
            Ok(text) => {
                let_go(catalogue);
                write_text(host, text.as_str())
            }
            Err(_) => {
                let_go(catalogue);
                Status::Memory
            }
        },
        Err(status) => status,
    }
}

// A catalogue is let go by one call, where each place would take its parts apart.
fn let_go(_catalogue: Catalogue) {}

/// Writes a text whole.
pub fn write_text<H: Host>(host: &mut H, text: &str) -> Status
    ensures writes { WritesText text.now (H.told host.old) (H.told host.new) result }
    ensures blames { BlamesHost (H.told host.old) (H.told host.new) result }
    ensures same { SameButOutput (H.told host.old) (H.told host.new) }
{
    match write_whole(host, text.as_bytes()) {
        Ok(()) => Status::Done,
        Err(_) => Status::WriteFault,
    }
}
