//! What a feed gives next.

/// What a feed gives next. Lines are numbered from 1, and those that are passed over count.
#[derive(Clone, Copy, PartialEq, Eq, Debug)]
pub enum Got<'a> {
    /// A line without its end.
    Line { number: u64, bytes: &'a [u8] },
    /// A line of more than 65,536 bytes.
    Long { number: u64 },
    /// No line that has its end.
    NotYet,
}
