//! The field at the front of those that are left of a line, cut off without the reader of `csv`: a text that stands in
//! the line as it is, or a number of few digits.
ghost use Rattle.std.specs.Prelude.{◌≡◌, ◌∷◌, neg_ℤ, option_map, pos, true, IfSome, IsUtf8, MatchOption, Some};
ghost use Rattle.std.specs.Str.{IsAscii};
ghost use Rattle.event_csv.specs.Fields.{quote};
ghost use Rattle.event_csv.specs.Quick.{HasDigits, IntFirst, IsFirst, IsPiece, IsPlainEnd, IsQuoteAt, IsQuoted, IsRest, NoQuoteFirst, NumberFirst};

use crate::numbers::SHORT;
use std::str::{from_utf8, from_utf8_unchecked};

/// The field at the front and those behind it, where it has no quotes around it, or no doubled quote between them.
#[inline(always)]
pub(crate) fn take_field(text: &[u8]) -> Option<(&str, Option<&[u8]>)>
    ensures { IfSome result (λ r. IsFirst text.now r.0.now (option_map (λ s. s.now) r.1)) }
{
    match behind_quote(text) {
        Some(behind) => take_quoted(behind),
        None => take_rest(text),
    }
}

/// The bytes behind a quote that stands first.
#[inline(always)]
pub(crate) fn behind_quote(text: &[u8]) -> Option<&[u8]>
    ensures { MatchOption result (NoQuoteFirst text.now) (λ behind. text.now ≡ quote ∷ behind.now) }
{
    if 0 < text.len() && text[0] == b'"' {
        return Some(&text[1..]);
    }
    None
}

/// The rest of a field that isn't between quotes, and the fields behind it. A quote in it is a byte as others are.
#[inline(always)]
pub(crate) fn take_rest(text: &[u8]) -> Option<(&str, Option<&[u8]>)>
    ensures { IfSome result (λ r. IsRest text.now r.0.now (option_map (λ s. s.now) r.1)) }
{
    let (end, is_ascii) = plain_end(text)?;
    let field = text_of(&text[..end], is_ascii)?;
    if end < text.len() {
        Some((field, Some(&text[end + 1..])))
    } else {
        Some((field, None))
    }
}

/// The INT of the field at the front, where few digits write it, and the fields behind it. Most have no sign, so none is
/// looked for until that fails.
#[inline(always)]
pub(crate) fn take_int(text: &[u8]) -> Option<(i128, Option<&[u8]>)>
    ensures { IfSome result (λ r. IntFirst text.now r.0 (option_map (λ s. s.now) r.1)) }
{
    match take_number(text) {
        Some((number, rest)) => Some((number as i128, rest)),
        None => take_signed(text),
    }
}

/// The number of the field at the front, where that is few digits, and the fields behind it.
#[inline(always)]
pub(crate) fn take_number(text: &[u8]) -> Option<(u64, Option<&[u8]>)>
    ensures { IfSome result (λ r. NumberFirst text.now r.0 (option_map (λ s. s.now) r.1)) }
{
    let (number, end) = few_digits(text);
    if end == 0 {
        return None;
    }
    if end == text.len() {
        return Some((number, None));
    }
    if text[end] == b',' {
        return Some((number, Some(&text[end + 1..])));
    }
    None
}

// The INT of the field at the front, where a sign and few digits write it, and the fields behind it.
#[inline(always)]
fn take_signed(text: &[u8]) -> Option<(i128, Option<&[u8]>)>
    ensures { IfSome result (λ r. IntFirst text.now r.0 (option_map (λ s. s.now) r.1)) }
{
    if 0 < text.len() && text[0] == b'-' {
        let (number, rest) = take_number(&text[1..])?;
        return Some((below_zero(number), rest));
    }
    if 0 < text.len() && text[0] == b'+' {
        let (number, rest) = take_number(&text[1..])?;
        return Some((number as i128, rest));
    }
    None
}

// The field whose first quote is gone and those behind it, where no quote stands in it.
#[inline(always)]
fn take_quoted(text: &[u8]) -> Option<(&str, Option<&[u8]>)>
    ensures { IfSome result (λ r. IsQuoted text.now r.0.now (option_map (λ s. s.now) r.1)) }
{
    let (field, rest) = take_piece(text)?;
    if rest.len() == 0 {
        return Some((field, None));
    }
    if rest[0] == b',' {
        return Some((field, Some(&rest[1..])));
    }
    None
}

/// The text before the first quote, and the bytes behind that quote.
#[inline(always)]
pub(crate) fn take_piece(text: &[u8]) -> Option<(&str, &[u8])>
    ensures { IfSome result (λ r. IsPiece text.now r.0.now r.1.now) }
{
    let (end, is_ascii) = quote_at(text)?;
    let piece = text_of(&text[..end], is_ascii)?;
    Some((piece, &text[end + 1..]))
}

// The text of bytes. Those that are known to be ASCII aren't looked at again.
#[inline(always)]
fn text_of(bytes: &[u8], is_ascii: bool) -> Option<&str>
    requires { is_ascii ≡ true → IsAscii bytes.now }
    ensures { IfSome result (λ text. (text.now ≡ bytes.now) × IsUtf8 bytes.now) }
{
    if is_ascii || is_utf8(bytes) {
        return Some(unsafe { from_utf8_unchecked(bytes) });
    }
    None
}

// Whether the bytes are UTF-8. Out of line, so that a field of ASCII needs no room for a fault.
#[inline(never)]
fn is_utf8(bytes: &[u8]) -> bool
    ensures { result ≡ true → IsUtf8 bytes.now }
{
    from_utf8(bytes).is_ok()
}

// The place of the first quote, if there is one, and a flag that is true only if all bytes before it are ASCII.
#[inline(always)]
fn quote_at(text: &[u8]) -> Option<(usize, bool)>
    ensures { IfSome result (λ r. IsQuoteAt text.now r.0 r.1) }
{
    let mut is_ascii = true;
    for (place, byte) in text.iter().enumerate() {
        if *byte == b'"' {
            return Some((place, is_ascii));
        }
        if 127 < *byte {
            is_ascii = false;
        }
    }
    None
}

// A place up to which no comma or line feed stands, and where a comma does or the text ends; and a flag that is true only
// if all bytes before it are ASCII. It may answer none. Both are small, so one comparison passes most bytes.
#[inline(always)]
fn plain_end(text: &[u8]) -> Option<(usize, bool)>
    ensures { IfSome result (λ r. IsPlainEnd text.now r.0 r.1) }
{
    let mut is_ascii = true;
    for (place, byte) in text.iter().enumerate() {
        if b',' < *byte && *byte < 128 {
            continue;
        }
        if *byte == b',' {
            return Some((place, is_ascii));
        }
        if *byte == b'\n' {
            return None;
        }
        if 127 < *byte {
            is_ascii = false;
        }
    }
    Some((text.len(), is_ascii))
}

#[inline(always)]
fn below_zero(number: u64) -> i128
    ensures { result ≡ neg_ℤ (pos number) }
{
    -(number as i128)
}

// The number that the digits at the front write, of few at most, and how many they are.
#[inline(always)]
fn few_digits(text: &[u8]) -> (u64, usize)
    ensures { HasDigits text.now result.0 result.1 }
{
    let most = text.len().min(SHORT);
    let mut number: u64 = 0;
    for place in 0..most {
        let digit = (text[place] as u64).wrapping_sub(48);
        if 9 < digit {
            return (number, place);
        }
        number = number * 10 + digit;
    }
    (number, most)
}
