//! Why a text has no tokens.
use thiserror::Error;

/// Why a text has no tokens, with the line, counted from 1. That the text is not UTF-8 comes before
/// any other fault, and else the first bad place from the left decides.
#[derive(Debug, Drop, PartialEq, Eq, Clone, Copy, Error)]
pub enum LexFault {
    /// A byte does not continue UTF-8, or the text ends within a character.
    #[error("line {line}: not UTF-8")]
    NotUtf8 { line: u64 },
    /// No token stands there, as at `?`, at `'open`, at a word of more than 64 bytes, or at a decimal with
    /// more than 18 digits behind its point.
    #[error("line {line}: bad token")]
    BadToken { line: u64 },
    /// A number is above 2^127-1, or the units of a decimal are.
    #[error("line {line}: number past 128 bits")]
    NumberPast128 { line: u64 },
    /// No memory for the list of tokens.
    #[error("no memory")]
    Memory,
}
