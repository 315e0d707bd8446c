//! Names and text literals as texts.
ghost use Rattle.std.specs.Prelude.{◌≡◌, ◌≤◌, ◌∷◌, length, IfOk, IfErr};
ghost use Rattle.cel_grammar.specs.Spellings.{inside, undoubled};

use crate::unread::Unread;
use event_types::Text;
use std::alloc::Global;

const QUOTE: u8 = b'\'';

/// A name as a text.
pub(crate) fn name_text(alloc: Global, name: &str) -> Result<Text, Unread>
    ensures ok { IfOk result (λ text. text ≡ name.now) }
    ensures memory { IfErr result (λ fault. fault ≡ Unread.Memory) }
{
    Ok(Text::make(alloc, name)?)
}

/// What stands between the quotes of a literal, each doubled quote once.
pub(crate) fn literal_text(alloc: Global, literal: &str) -> Result<Text, Unread>
    ensures ok { IfOk result (λ text. text ≡ undoubled (inside literal.now)) }
    ensures memory { IfErr result (λ fault. fault ≡ Unread.Memory) }
{
    let bytes = without_doubled(alloc, between_quotes(literal.as_bytes()))?;
    match str::from_utf8(&bytes) {
        Ok(text) => name_text(alloc, text),
        // Of no token: its quotes stand around whole characters.
        Err(_) => Err(Unread::Memory),
    }
}

// The bytes but the first and the last one.
fn between_quotes(literal: &[u8]) -> &[u8]
    ensures { result.now ≡ inside literal.now }
{
    if literal.len() < 2 {
        return &[];
    }
    &literal[1..literal.len() - 1]
}

// The bytes, each doubled quote once.
fn without_doubled(alloc: Global, text: &[u8]) -> Result<Vec<u8>, Unread>
    ensures ok { IfOk result (λ bytes. bytes.items ≡ undoubled text.now) }
    ensures memory { IfErr result (λ fault. fault ≡ Unread.Memory) }
{
    let mut bytes = Vec::new(alloc);
    let mut rest = text;
    while let [first, behind @ ..] = rest {
        bytes.push(*first)?;
        rest = after_byte(*first, behind);
    }
    Ok(bytes)
}

// What follows a byte, without a second quote where the byte is the first of two.
fn after_byte(first: u8, behind: &[u8]) -> &[u8]
    ensures value { first ∷ undoubled result.now ≡ undoubled (first ∷ behind.now) }
    ensures within { length result.now ≤ length behind.now }
{
    match behind {
        [QUOTE, rest @ ..] if first == QUOTE => rest,
        _ => behind,
    }
}
