//! Text literals.
ghost use Rattle.std.specs.Prelude.{◌≡◌, ◌≤◌, IfSome, length};
ghost use Rattle.cel_lexer.specs.Literals.{literal_piece, literal_rest};

use crate::bytes::begins_with;
use crate::pieces::Piece;
use crate::token::What;

/// The text literal whose opening quote stands right before a text.
pub(crate) fn literal_before(text: &[u8]) -> Piece
    ensures { result ≡ literal_piece (literal_rest text.now) }
{
    match literal_rest(text) {
        Some(len) => Piece::Lexeme(What::Quoted, len + 1),
        None => Piece::BadToken,
    }
}

// How many bytes a text literal has behind its opening quote, where it is closed on its line.
fn literal_rest(text: &[u8]) -> Option<usize>
    ensures value { result ≡ literal_rest text.now }
    ensures within { IfSome result (λ len. len ≤ length text.now) }
{
    let mut len = 0;
    while len < text.len() {
        if text[len] == b'\n' {
            return None;
        }
        if text[len] != b'\'' {
            len += 1;
        } else if begins_with(&text[len + 1..], b'\'') {
            len += 2;
        } else {
            return Some(len + 1);
        }
    }
    None
}
