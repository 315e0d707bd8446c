//! Names.
ghost use Rattle.std.specs.Prelude.{◌≡◌, ◌↔◌, [], ◌∷◌, IsTrue, Ok};
ghost use Rattle.cel_lexer.specs.Faults.{tokens_of};
ghost use Rattle.cel_lexer.specs.Names.{is_name, is_name_of, name_over};

use crate::pieces::{Piece, piece_at};
use crate::token::What;

/// Whether a word is one name: `Pair_2` is, and `FROM`, `2nd`, `a b`, ` a` and the empty word are not. Takes no
/// memory.
pub fn is_name(word: &str) -> bool
    ensures value { result ≡ is_name word.now }
    ensures one_token { IsTrue result ↔ (tokens_of word.now ≡ Ok (name_over word.now ∷ [])) }
{
    is_name_of(word.len(), piece_at(word.as_bytes()))
}

// Whether a piece is a name of so many bytes.
fn is_name_of(len: usize, piece: Piece) -> bool
    ensures { result ≡ is_name_of len piece }
{
    match piece {
        Piece::Lexeme(What::Name, size) => size == len,
        _ => false,
    }
}
