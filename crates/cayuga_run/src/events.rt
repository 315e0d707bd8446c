//! The events of a run, heard piece by piece as they are read.
ghost use Rattle.std.specs.Prelude.{◌≡◌, [], true};
ghost use Rattle.cay_host.specs.declared.side.Side.TheVariants.{Events};
ghost use Rattle.catalogue.specs.Holding.{judged_in};
ghost use Rattle.courses.specs.QuerySet.{set_of};
ghost use Rattle.session.specs.SessionView.{SessionStandsFor};
ghost use Rattle.cayuga_run.specs.Blaming.{BlamesHost};
ghost use Rattle.cayuga_run.specs.HearingOutcome.{Hears, HearsAlone, status_of};
ghost use Rattle.cayuga_run.specs.Reading.{StopsInPiece};
ghost use Rattle.cayuga_run.specs.Tests.{TestsOfTaken};

use crate::pieces::{PIECE, piece_size};
use crate::status::Status;
use cay_host::{Host, Ledger, Side, Steps};
use courses::Refusal;
use session::{Session, SessionFault};
use std::alloc::Global;

/// Reads the events, and feeds each piece to the session as it comes, to the end of the events or to the
/// first refusal.
pub fn read_events<H: Host, L: Ledger>(
    alloc: Global,
    host: &mut H,
    session: &mut Session,
    limit: u64,
    steps: &mut Steps<L>,
) -> Status
    requires attached { (H.told host.old).attached Events ≡ true }
    requires stands { SessionStandsFor session.old (set_of (judged_in session.old.catalogue)) [] [] }
    requires limit { session.old.limit ≡ limit }
    ensures hears { Hears (set_of (judged_in session.old.catalogue)) limit session.new (H.told host.old) (H.told host.new) result }
    ensures blames { BlamesHost (H.told host.old) (H.told host.new) result }
    ensures stops { StopsInPiece (set_of (judged_in session.old.catalogue)) limit ((H.told host.old).left Events) ((H.told host.new).left Events) }
    ensures alone { HearsAlone (H.told host.old) (H.told host.new) }
    ensures tests { TestsOfTaken (set_of (judged_in session.old.catalogue)) limit ((H.told host.old).left Events) ((H.told host.new).left Events) steps.old steps.new }
{
    let mut piece = [0u8; PIECE];
    let mut taken: u64 = 0;
    'pieces: loop {
        let want = piece_size(limit - taken);
        match host.read(Side::Events, &mut piece[..want]) {
            Err(_) => return Status::ReadFault(Side::Events),
            Ok(count) => {
                if count == 0 {
                    return match session.finish(alloc, host, steps) {
                        Ok(()) => Status::Done,
                        Err(fault) => status_of(fault),
                    };
                }
                match session.feed(alloc, host, &piece[..count], steps) {
                    Ok(()) => taken += count as u64,
                    Err(fault) => return status_of(fault),
                }
            }
        }
    }
}

/// The status of a session's fault.
pub fn status_of(fault: SessionFault) -> Status
    ensures { result ≡ status_of fault }
{
    match fault {
        SessionFault::Refused(Refusal::HasFault { line, why }) => Status::BadEvent { line, why },
        SessionFault::Refused(Refusal::HasControlFault { line, why }) => {
            Status::BadControl { line, why }
        }
        SessionFault::Refused(Refusal::IsOutOfOrder { line, at, seen }) => Status::OutOfOrder {
            line,
            at,
            seen,
        },
        SessionFault::TooMuch { limit } => Status::TooMuch { limit },
        SessionFault::WriteFault => Status::WriteFault,
        SessionFault::Memory => Status::Memory,
    }
}
