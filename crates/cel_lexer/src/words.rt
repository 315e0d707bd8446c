//! Words: keywords and names.
ghost use Rattle.std.specs.Prelude.{◌≡◌, length, take_while, if◌then◌else◌};
ghost use Rattle.cel_lexer.specs.Bytes.{is_word_byte};
ghost use Rattle.cel_lexer.specs.Words.{is_keyword, word_piece};

use crate::bytes::is_word_byte;
use crate::pieces::Piece;
use crate::token::What;

// The words that are no names.
const KEYWORDS: [&[u8]; 18] = [
    b"STREAM", b"INT", b"TEXT", b"SELECT", b"AS", b"FROM", b"PUBLISH", b"FILTER", b"NEXT", b"FOLD",
    b"UNION", b"AND", b"OR", b"NOT", b"TRUE", b"DUR", b"MIN", b"MAX",
];

/// The word at the front of a text that begins with a letter or `_`.
pub(crate) fn word_at(text: &[u8]) -> Piece
    ensures { result ≡ word_piece (take_while is_word_byte text.now) }
{
    let len = word_len(text);
    if len > 64 {
        Piece::BadToken
    } else {
        Piece::Lexeme(word_kind(&text[..len]), len)
    }
}

// How many bytes the word at the front has.
fn word_len(text: &[u8]) -> usize
    ensures { result ≡ length (take_while is_word_byte text.now) }
{
    text.iter().take_while(|b| is_word_byte(**b)).count()
}

// Whether a word is a keyword or a name.
fn word_kind(word: &[u8]) -> What
    ensures { result ≡ (if is_keyword word.now then What.Keyword else What.Name) }
{
    if is_keyword(word) {
        What::Keyword
    } else {
        What::Name
    }
}

// Whether a word is one of the keywords.
#[tactic(auto, unfolding(crate::specs::Words::is_keyword))]
fn is_keyword(word: &[u8]) -> bool
    ensures { result ≡ is_keyword word.now }
{
    KEYWORDS.contains(&word)
}
