//! The queries of a file, attached, read and judged.
ghost use Rattle.std.specs.Prelude.{◌≡◌, false, true, IfOk, IfErr};
ghost use Rattle.cay_host.specs.declared.side.Side.TheVariants.{Queries, Events};
ghost use Rattle.cay_host.specs.Input.{SameButRead};
ghost use Rattle.catalogue.specs.Holding.{IsAsLoaded, judged_in};
ghost use Rattle.catalogue.specs.Judgement.{Accepts};
ghost use Rattle.cayuga_run.specs.Begun.{HasAccepted, HasRead};
ghost use Rattle.cayuga_run.specs.Blaming.{BlamesHost};
ghost use Rattle.cayuga_run.specs.QueryFailing.{QueriesFail, TextFails};
ghost use Rattle.cayuga_run.specs.Reading.{ReadsNoEvents, TakesAtMost};
ghost use Rattle.cayuga_run.specs.Refusing.{AreNotAccepted};

use crate::sides::{ReadEnd, read_side};
use crate::status::Status;
use catalogue::{Catalogue, LoadFault, load};
use cay_host::{Host, Side};
use std::alloc::Global;

/// The most bytes of a query text.
const MOST_QUERY_BYTES: u64 = 1_048_576;

/// Attaches the queries, reads them and judges them. The events stay unattached.
pub fn accept<H: Host>(alloc: Global, host: &mut H, queries: &str) -> Result<Catalogue, Status>
    requires queries { (H.told host.old).attached Queries ≡ false }
    requires events { (H.told host.old).attached Events ≡ false }
    ensures accepted { IfOk result (λ catalogue. HasAccepted queries.now (judged_in catalogue) (H.told host.old) (H.told host.new)) }
    ensures loaded { IfOk result IsAsLoaded }
    ensures fails { IfErr result (AreNotAccepted queries.now (H.told host.old) (H.told host.new)) }
    ensures blames { IfErr result (BlamesHost (H.told host.old) (H.told host.new)) }
    ensures reads { ReadsNoEvents queries.now (H.told host.old) (H.told host.new) }
    ensures events { (H.told host.new).attached Events ≡ false }
{
    if host.attach(Side::Queries, queries).is_err() {
        return Err(Status::AttachFault(Side::Queries));
    }
    read_queries(alloc, host)
}

// Reads the queries and judges them.
fn read_queries<H: Host>(alloc: Global, host: &mut H) -> Result<Catalogue, Status>
    requires { (H.told host.old).attached Queries ≡ true }
    ensures accepted { IfOk result (λ catalogue. HasRead (judged_in catalogue) (H.told host.old) (H.told host.new)) }
    ensures loaded { IfOk result IsAsLoaded }
    ensures fails { IfErr result (QueriesFail (H.told host.old) (H.told host.new)) }
    ensures blames { IfErr result (BlamesHost (H.told host.old) (H.told host.new)) }
    ensures taken { TakesAtMost 1048577 ((H.told host.old).left Queries) ((H.told host.new).left Queries) }
    ensures same { SameButRead Queries (H.told host.old) (H.told host.new) }
{
    match read_side(alloc, host, Side::Queries, MOST_QUERY_BYTES) {
        Err(_) => Err(Status::Memory),
        Ok(text) => match text.end {
            ReadEnd::Failed => Err(Status::ReadFault(Side::Queries)),
            ReadEnd::Whole => judge_text(alloc, &text.bytes),
            ReadEnd::More => judge_text(alloc, &text.bytes),
        },
    }
}

/// Judges the bytes of the queries.
pub fn judge_text(alloc: Global, text: &[u8]) -> Result<Catalogue, Status>
    ensures accepted { IfOk result (λ catalogue. Accepts text.now (judged_in catalogue)) }
    ensures loaded { IfOk result IsAsLoaded }
    ensures fails { IfErr result (TextFails text.now) }
{
    match load(alloc, text) {
        Ok(catalogue) => Ok(catalogue),
        Err(LoadFault::Bad { line, why }) => Err(Status::BadQuery { line, why }),
        Err(LoadFault::Cycle(names)) => Err(Status::Cycle(names)),
        Err(LoadFault::Memory) => Err(Status::Memory),
    }
}
