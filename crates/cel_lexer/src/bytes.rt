//! Bytes of a query text.
ghost use Rattle.std.specs.Prelude.{◌≡◌, ◌==◌};
ghost use Rattle.std.specs.Char.{is_ascii_digit};
ghost use Rattle.cel_lexer.specs.Bytes.{is_blank, is_first, is_letter, is_word_byte};

/// Whether a byte separates tokens.
pub(crate) fn is_blank(b: u8) -> bool
    ensures { result ≡ is_blank b }
{
    b == b' ' || b == b'\t' || b == b'\r' || b == b'\n'
}

/// Whether a byte may begin a word.
pub(crate) fn is_letter(b: u8) -> bool
    ensures { result ≡ is_letter b }
{
    b.is_ascii_alphabetic() || b == b'_'
}

/// Whether a byte may go on with a word.
pub(crate) fn is_word_byte(b: u8) -> bool
    ensures { result ≡ is_word_byte b }
{
    is_letter(b) || b.is_ascii_digit()
}

/// Whether a text begins with a byte.
pub(crate) fn begins_with(text: &[u8], b: u8) -> bool
    ensures { result ≡ is_first (λ first. first == b) text.now }
{
    match text {
        [] => false,
        [first, ..] => *first == b,
    }
}
