//! Marks and signs.
ghost use Rattle.std.specs.Prelude.{◌≡◌};
ghost use Rattle.cel_lexer.specs.Bytes.{is_first};
ghost use Rattle.cel_lexer.specs.Signs.{is_long_sign, is_side, is_sign, mark_piece, sign_piece};

use crate::pieces::Piece;
use crate::token::What;

/// The mark whose `$` stands right before a text.
pub(crate) fn mark_before(text: &[u8]) -> Piece
    ensures { result ≡ mark_piece text.now }
{
    let len = if begins_with_side(text) { 2 } else { 1 };
    Piece::Lexeme(What::Mark, len)
}

/// The sign whose first byte `b` stands right before a text.
pub(crate) fn sign_before(b: u8, text: &[u8]) -> Piece
    ensures { result ≡ sign_piece b text.now }
{
    if is_sign(b) {
        let len = if is_long(b, text) { 2 } else { 1 };
        Piece::Lexeme(What::Sign, len)
    } else {
        Piece::BadToken
    }
}

// Whether a text begins with the number of a side.
fn begins_with_side(text: &[u8]) -> bool
    ensures { result ≡ is_first is_side text.now }
{
    match text {
        [] => false,
        [b, ..] => *b == b'1' || *b == b'2',
    }
}

// Whether a byte alone is a sign.
#[tactic(auto, unfolding(crate::specs::Signs::is_sign))]
fn is_sign(b: u8) -> bool
    ensures { result ≡ is_sign b }
{
    b"(){},;.*+-=<>".contains(&b)
}

// Whether `b` and the first byte of a text are one sign.
fn is_long(b: u8, text: &[u8]) -> bool
    ensures { result ≡ is_first (is_long_sign b) text.now }
{
    match text {
        [] => false,
        [next, ..] => (b == b'<' && *next == b'>') || ((b == b'<' || b == b'>') && *next == b'='),
    }
}
