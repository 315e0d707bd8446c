//! Reading a side whole.
ghost use Rattle.std.specs.Prelude.{◌≡◌, ◌+◌, None, true, IfOk, MatchResult};
ghost use Rattle.std.specs.Io.KnownBytes.{prepend_known};
ghost use Rattle.cay_host.specs.Calls.{FailedLast};
ghost use Rattle.cay_host.specs.Input.{SameButRead};
ghost use Rattle.cayuga_run.specs.Reading.{TakesAtMost};
ghost use Rattle.cayuga_run.specs.Taking.{BlamesReading, EndsAs, failed_read};

use crate::pieces::{PIECE, piece_size};
use cay_host::{Host, Side};
use event_types::Memory;
use std::alloc::Global;

/// How the reading of a side ended.
#[derive(Clone, Copy, Debug, PartialEq, Eq, Drop)]
pub enum ReadEnd {
    /// All bytes were read.
    Whole,
    /// One byte more than the limit was read.
    More,
    /// A read failed.
    Failed,
}

/// The bytes that were read of a side.
#[derive(Drop)]
pub struct Taken {
    pub bytes: Vec<u8>,
    pub end: ReadEnd,
}

/// Reads a side to its end, to one byte past the limit, or to a failing read.
pub fn read_side<H: Host>(
    alloc: Global,
    host: &mut H,
    side: Side,
    limit: u64,
) -> Result<Taken, Memory>
    requires { (H.told host.old).attached side ≡ true }
    ensures front { IfOk result (λ t. (H.told host.old).left side ≡ prepend_known t.bytes.items ((H.told host.new).left side)) }
    ensures end { IfOk result (λ t. EndsAs t.end limit t.bytes.items side (H.told host.old) (H.told host.new)) }
    ensures taken { TakesAtMost (limit + 1) ((H.told host.old).left side) ((H.told host.new).left side) }
    ensures quiet { MatchResult result (λ t. BlamesReading t.end (H.told host.old) (H.told host.new)) (λ none. (H.told host.new).read_faults ≡ (H.told host.old).read_faults) }
    ensures last { MatchResult result (λ t. FailedLast (failed_read t.end side) (H.told host.old) (H.told host.new)) (λ none. FailedLast None (H.told host.old) (H.told host.new)) }
    ensures same { SameButRead side (H.told host.old) (H.told host.new) }
{
    let mut bytes = Vec::new(alloc);
    let mut piece = [0u8; PIECE];
    'pieces: while bytes.len() as u64 <= limit {
        let want = piece_size(limit - bytes.len() as u64);
        match host.read(side, &mut piece[..want]) {
            Err(_) => {
                return Ok(Taken {
                    bytes,
                    end: ReadEnd::Failed,
                });
            }
            Ok(count) => {
                if count == 0 {
                    return Ok(Taken {
                        bytes,
                        end: ReadEnd::Whole,
                    });
                }
                bytes.extend_from_slice(&piece[..count])?;
            }
        }
    }
    Ok(Taken {
        bytes,
        end: ReadEnd::More,
    })
}
