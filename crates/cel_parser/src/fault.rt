//! Why tokens are no statements.
use event_types::Memory;
use thiserror::Error;

/// Why tokens are no statements. A statement is what stands up to a `;`; the first faulty one decides,
/// and in it the first of this order. `number` is its number and `line` the line of its first token, its
/// `;` included, both counted from 1.
#[derive(Debug, Drop, PartialEq, Eq, Clone, Copy, Error)]
pub enum SyntaxFault {
    /// It has more than 1,024 tokens, its `;` not counted, as with 1,025 times `NOT` before its `;`.
    #[error("line {line}: statement {number} has more than 1024 tokens")]
    TooManyTokens { number: u64, line: u64 },
    /// At some token more than 64 of `(` and `{` are open, as where 65 times `(` stand together.
    #[error("line {line}: statement {number} is nested more than 64 deep")]
    TooDeep { number: u64, line: u64 },
    /// The grammar does not have it, as `SELECT * FROM Stock;`. Tokens behind the last `;` are this fault,
    /// whatever they are. Where one query is wanted, so are a text without a statement and a first statement that
    /// declares a stream, each with the number 1, and a second statement, with the number 2.
    #[error("line {line}: statement {number} is not in the grammar")]
    BadStatement { number: u64, line: u64 },
    /// No memory for the statements.
    #[error("no memory")]
    Memory,
}

impl From<Memory> for SyntaxFault {
    ghost use Rattle.std.specs.Prelude.{◌≡◌};
    ghost use Rattle.cel_parser.specs.declared.fault.SyntaxFault.TheVariants as fault;

    ghost from_gives = { λ _ made. made ≡ fault.Memory };

    fn from(_error: Memory) -> SyntaxFault {
        SyntaxFault::Memory
    }
}
