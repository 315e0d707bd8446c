//! Tokens and their kinds.

/// What a token is. Which keyword, mark or sign it is, its text tells.
#[derive(Clone, Copy, Debug, PartialEq, Eq)]
pub enum What {
    /// A word that is no name, as `SELECT`.
    Keyword,
    /// A name of at most 64 bytes.
    Name,
    /// A number from 0 to 2^127-1.
    Number(i128),
    /// A text literal with its quotes, as `'it''s'`.
    Quoted,
    /// `$1`, `$2` or `$`.
    Mark,
    /// A sign, as `(` or `<=`.
    Sign,
    /// A decimal with 1 to 18 digits behind its point, as `10.50`, which is 1050 units of scale 2. It has at most
    /// 2^127-1 units, and its scale is its number of digits behind the point.
    Decimal { scale: u8, units: i128 },
}

/// A token, with its line, counted from 1, and its bytes in the source: from `begin`, counted from
/// 0, up to and without `end`.
#[derive(Clone, Copy, Debug, PartialEq, Eq)]
pub struct Token {
    pub what: What,
    pub line: u64,
    pub begin: usize,
    pub end: usize,
}
