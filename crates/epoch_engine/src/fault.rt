//! Why a tuple isn't taken.
use event_types::Tuple;

/// Why an engine doesn't take a tuple, which comes back.
#[derive(Drop)]
pub enum OfferFault {
    /// The tuple is detected at `at`, before the open epoch `seen`, or no epoch is open and it isn't
    /// detected after the last closed time `seen`.
    OutOfOrder { at: u64, seen: u64, tuple: Tuple },
    /// There was no memory.
    Memory { tuple: Tuple },
}
