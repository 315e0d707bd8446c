//! The events of an explaining, heard piece by piece as they are read.
ghost use Rattle.std.specs.Prelude.{◌≡◌, [], true};
ghost use Rattle.semantics.specs.TypedPrograms.{HaveTheirKinds};
ghost use Rattle.cay_host.specs.declared.side.Side.TheVariants.{Events};
ghost use Rattle.cay_host.specs.Input.{SameButRead};
ghost use Rattle.catalogue.specs.Holding.{IsAsLoaded, judged_in};
ghost use Rattle.cel_types.specs.SourceLaws.{kinds_in};
ghost use Rattle.derivations.specs.HeardLines.{events_of};
ghost use Rattle.explanation.specs.HearingView.{HasHeard};
ghost use Rattle.cayuga_run.specs.declared.status.Status.TheVariants.{Done};
ghost use Rattle.cayuga_run.specs.Blaming.{BlamesHost};
ghost use Rattle.cayuga_run.specs.HearingHere.{HearsEvents, status_here};
ghost use Rattle.cayuga_run.specs.Reading.{StopsInPieceHere};

use crate::pieces::{PIECE, piece_size};
use crate::status::Status;
use catalogue::Catalogue;
use cay_host::{Host, Side};
use courses::Refusal;
use explanation::{HearFault, Hearing};
use std::alloc::Global;

/// Reads the events, and hears each piece as it comes, to the end of the events or to the first refusal.
pub(crate) fn hear_events<H: Host>(
    alloc: Global,
    host: &mut H,
    catalogue: &Catalogue,
    hearing: &mut Hearing,
    limit: u64,
) -> Status
    requires attached { (H.told host.old).attached Events ≡ true }
    requires loaded { IsAsLoaded catalogue.now }
    requires heard { HasHeard catalogue.now.streams [] hearing.old }
    requires limit { hearing.old.limit ≡ limit }
    ensures hears { HearsEvents (judged_in catalogue.now) limit hearing.new.history (H.told host.old) (H.told host.new) result }
    ensures kinds { result ≡ Done → HaveTheirKinds (kinds_in catalogue.now.streams) (events_of hearing.new.history) }
    ensures blames { BlamesHost (H.told host.old) (H.told host.new) result }
    ensures stops { StopsInPieceHere (judged_in catalogue.now) limit ((H.told host.old).left Events) ((H.told host.new).left Events) }
    ensures same { SameButRead Events (H.told host.old) (H.told host.new) }
{
    let mut piece = [0u8; PIECE];
    let mut taken: u64 = 0;
    'pieces: loop {
        let want = piece_size(limit - taken);
        match host.read(Side::Events, &mut piece[..want]) {
            Err(_) => return Status::ReadFault(Side::Events),
            Ok(count) => {
                if count == 0 {
                    return match hearing.finish(alloc, catalogue.streams()) {
                        Ok(()) => Status::Done,
                        Err(fault) => status_of(fault),
                    };
                }
                match hearing.feed(alloc, catalogue.streams(), &piece[..count]) {
                    Ok(()) => taken += count as u64,
                    Err(fault) => return status_of(fault),
                }
            }
        }
    }
}

// The status of a fault of the hearing.
fn status_of(fault: HearFault) -> Status
    ensures { result ≡ status_here fault }
{
    match fault {
        HearFault::Refused(Refusal::HasFault { line, why }) => Status::BadEvent { line, why },
        HearFault::Refused(Refusal::HasControlFault { line, why }) => {
            Status::BadControl { line, why }
        }
        HearFault::Refused(Refusal::IsOutOfOrder { line, at, seen }) => Status::OutOfOrder {
            line,
            at,
            seen,
        },
        HearFault::TooMuch { limit } => Status::TooMuch { limit },
        HearFault::Memory => Status::Memory,
    }
}
