//! How a run ended.
ghost use Rattle.std.specs.Prelude.{◌≡◌};
ghost use Rattle.cayuga_run.specs.Number.{number_of};

use catalogue::QueryFault;
use cay_host::Side;
use courses::ControlFault;
use event_csv::LineFault;
use event_types::Names;

/// How a run ended.
#[derive(Drop)]
pub enum Status {
    /// The job was done; a run has read the events to their end.
    Done,
    /// The words ask for no job.
    Usage,
    /// The query text is refused. Lines are counted from 1.
    BadQuery { line: u64, why: QueryFault },
    /// Queries read one another in a circle: each name reads the next, and the last reads the first.
    Cycle(Names),
    /// An event line has a fault. Lines are counted from 1.
    BadEvent { line: u64, why: LineFault },
    /// An event is detected before the last event, which was seen at `seen`, or at its time with a control line between
    /// them. Lines are counted from 1.
    OutOfOrder { line: u64, at: u64, seen: u64 },
    /// A file couldn't be opened.
    AttachFault(Side),
    /// A file couldn't be read.
    ReadFault(Side),
    /// The output couldn't be written.
    WriteFault,
    /// The event text has more bytes than the limit.
    TooMuch { limit: u64 },
    /// There was no memory.
    Memory,
    /// A control line has a fault. Lines are counted from 1.
    BadControl { line: u64, why: ControlFault },
}

impl Status {
    /// The number that the program ends with. Takes no memory.
    pub fn number(&self) -> u8
        ensures { result ≡ number_of self.now }
    {
        match self {
            Status::Done => 0,
            Status::Usage => 1,
            Status::BadQuery { .. } => 2,
            Status::Cycle(_) => 3,
            Status::BadEvent { .. } => 4,
            Status::OutOfOrder { .. } => 5,
            Status::AttachFault(_) => 6,
            Status::ReadFault(_) => 7,
            Status::WriteFault => 8,
            Status::TooMuch { .. } => 9,
            Status::Memory => 10,
            Status::BadControl { .. } => 11,
        }
    }
}
