//! Symbols: what the grammar sees of tokens.
use event_types::Cmp;

/// A token by its keyword, mark or sign, by its name, number or decimal, or by its literal.
#[derive(Clone, Copy)]
pub enum Symbol<'a> {
    Stream,
    Int,
    Text,
    Select,
    As,
    From,
    Publish,
    Filter,
    Next,
    Fold,
    Union,
    And,
    Or,
    Not,
    True,
    Dur,
    Min,
    Max,
    Name(&'a str),
    /// Not below 0.
    Number(i128),
    /// With its quotes, as `'it''s'`.
    Quoted(&'a str),
    Dollar1,
    Dollar2,
    Dollar,
    Open,
    Close,
    BraceOpen,
    BraceClose,
    Comma,
    End,
    Dot,
    Star,
    Plus,
    Minus,
    Compare(Cmp),
    /// The units are not below 0.
    Decimal { scale: u8, units: i128 },
}
