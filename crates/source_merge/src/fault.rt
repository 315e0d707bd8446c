//! Why an event isn't taken.
use event_csv::Seen;

/// Why an event isn't taken. It comes back.
#[derive(Drop)]
pub enum TakeFault {
    /// Its detection time `at` is below the bound of its file: after 5, where a lateness of 2 is allowed, 2 is late, and
    /// the bound is 3.
    Late { at: u64, bound: u64, seen: Seen },
    /// There was no memory to hold it.
    Memory { seen: Seen },
}
