//! Why the hearing of an event text ended before the text did.
use courses::Refusal;

/// Why the hearing of an event text ended before the text did.
#[derive(Drop)]
pub enum HearFault {
    /// A line of the event text is refused.
    Refused(Refusal),
    /// The event text has more bytes than the limit.
    TooMuch { limit: u64 },
    /// There was no memory.
    Memory,
}
