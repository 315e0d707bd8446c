//! Why a line of the event text is refused.
use crate::fault::ControlFault;
use event_csv::LineFault;

/// Why a line of the event text is refused. Lines are counted from 1.
#[derive(Drop)]
pub enum Refusal {
    /// The line has the fault of an event line.
    HasFault { line: u64, why: LineFault },
    /// It begins with `>`, and has the fault of a control line.
    HasControlFault { line: u64, why: ControlFault },
    /// Its event is detected at `at`, which is before the last event, or is the time of the last event and a control
    /// line came between. That one was detected at `seen`.
    IsOutOfOrder { line: u64, at: u64, seen: u64 },
}
