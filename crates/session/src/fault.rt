//! Why a session ends before its work is done.
ghost use Rattle.std.specs.Prelude.{◌≡◌};

use cay_host::Failed;
use courses::Refusal;
use event_types::Memory;

/// Why a session ends before its work is done.
#[derive(Drop)]
pub enum SessionFault {
    /// A line is refused.
    Refused(Refusal),
    /// The event text has more bytes than the limit.
    TooMuch { limit: u64 },
    /// The output couldn't be written.
    WriteFault,
    /// There was no memory.
    Memory,
}

impl From<Memory> for SessionFault {
    ghost use Rattle.session.specs.declared.fault.SessionFault.TheVariants as fault;

    ghost from_gives = { λ _ made. made ≡ fault.Memory };

    fn from(_error: Memory) -> SessionFault {
        SessionFault::Memory
    }
}

impl From<Failed> for SessionFault {
    ghost use Rattle.session.specs.declared.fault.SessionFault.TheVariants as fault;

    ghost from_gives = { λ _ made. made ≡ fault.WriteFault };

    fn from(_error: Failed) -> SessionFault {
        SessionFault::WriteFault
    }
}
