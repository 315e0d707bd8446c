//! The piece at the front of a text.
ghost use Rattle.std.specs.Prelude.{◌≡◌, length, take_while};
ghost use Rattle.cel_lexer.specs.Bytes.{is_comment_byte};
ghost use Rattle.cel_lexer.specs.Pieces.{piece_of};

use crate::bytes::{begins_with, is_blank, is_letter};
use crate::literals::literal_before;
use crate::numbers::numeral_at;
use crate::signs::{mark_before, sign_before};
use crate::token::What;
use crate::words::word_at;

/// What stands at the front of a text.
#[derive(Clone, Copy, Debug)]
pub(crate) enum Piece {
    /// A blank or a comment, of so many bytes.
    Gap(usize),
    /// A token of so many bytes.
    Lexeme(What, usize),
    /// No token.
    BadToken,
    /// A number above 2^127-1, or a decimal with more units.
    NumberPast128,
}

/// The longest piece at the front of a text.
pub(crate) fn piece_at(text: &[u8]) -> Piece
    ensures { result ≡ piece_of text.now }
{
    match text {
        [] => Piece::BadToken,
        [b, rest @ ..] => {
            if is_blank(*b) {
                Piece::Gap(1)
            } else if *b == b'-' && begins_with(rest, b'-') {
                Piece::Gap(comment_len(text))
            } else if is_letter(*b) {
                word_at(text)
            } else if b.is_ascii_digit() {
                numeral_at(text)
            } else if *b == b'\'' {
                literal_before(rest)
            } else if *b == b'$' {
                mark_before(rest)
            } else {
                sign_before(*b, rest)
            }
        }
    }
}

// How many bytes the line at the front has, without its line feed.
fn comment_len(text: &[u8]) -> usize
    ensures { result ≡ length (take_while is_comment_byte text.now) }
{
    text.iter().take_while(|b| **b != b'\n').count()
}
