//! Whole numbers and decimals.
ghost use Rattle.std.specs.Prelude.{◌≡◌, ◌<◌, ◌^◌, ◌++◌, length, take_while};
ghost use Rattle.std.specs.Char.{is_ascii_digit};
ghost use Rattle.std.specs.Str.Parse.{digits_value, digits_value_after};
ghost use Rattle.cel_lexer.specs.Numbers.{behind_point, decimal_piece, in_range, number_piece, numeral_piece};

use crate::pieces::Piece;
use crate::token::What;

// 2^127 - 1.
const GREATEST: u128 = 0x7FFF_FFFF_FFFF_FFFF_FFFF_FFFF_FFFF_FFFF;

// The most digits behind the point of a decimal.
const MOST_PLACES: usize = 18;

/// The number or the decimal at the front of a text that begins with a digit.
#[tactic(auto, unfolding(crate::specs::Numbers::numeral_piece))]
pub(crate) fn numeral_at(text: &[u8]) -> Piece
    ensures { result ≡ numeral_piece text.now }
{
    let len = digit_count(text);
    let behind = after_point(&text[len..]);
    if digit_count(behind) == 0 {
        number(text)
    } else {
        decimal(text, behind)
    }
}

// How many digits stand at the front.
fn digit_count(text: &[u8]) -> usize
    ensures { result ≡ length (take_while is_ascii_digit text.now) }
{
    text.iter().take_while(|b| b.is_ascii_digit()).count()
}

// What stands behind a point at the front, which may be missing.
fn after_point(text: &[u8]) -> &[u8]
    ensures { result.now ≡ behind_point text.now }
{
    match text {
        [b'.', rest @ ..] => rest,
        _ => &[],
    }
}

// The number of the digits at the front of a text.
fn number(text: &[u8]) -> Piece
    ensures { result ≡ number_piece (take_while is_ascii_digit text.now) }
{
    match value_after(0, text) {
        Some(value) => Piece::Lexeme(What::Number(value as i128), digit_count(text)),
        None => Piece::NumberPast128,
    }
}

// The decimal of the digits at the front of a text and of those behind its point.
fn decimal(text: &[u8], behind: &[u8]) -> Piece
    ensures { result ≡ decimal_piece (take_while is_ascii_digit text.now) (take_while is_ascii_digit behind.now) }
{
    let places = digit_count(behind);
    if places > MOST_PLACES {
        return Piece::BadToken;
    }
    match units(text, behind) {
        Some(units) => {
            let what = What::Decimal {
                scale: places as u8,
                units: units as i128,
            };
            Piece::Lexeme(what, digit_count(text) + 1 + places)
        }
        None => Piece::NumberPast128,
    }
}

// The number of the digits at the front of two texts, where it is at most 2^127-1.
fn units(text: &[u8], behind: &[u8]) -> Option<u128>
    ensures { result ≡ in_range (digits_value 10 (take_while is_ascii_digit text.now ++ take_while is_ascii_digit behind.now)) }
{
    match value_after(0, text) {
        Some(whole) => value_after(whole, behind),
        None => None,
    }
}

// The number of these digits and those at the front of a text, where it is at most 2^127-1.
fn value_after(before: u128, text: &[u8]) -> Option<u128>
    requires { before < 2 ^ 127 }
    ensures { result ≡ in_range (digits_value_after 10 before (take_while is_ascii_digit text.now)) }
{
    let mut value = before;
    for b in text {
        if !b.is_ascii_digit() {
            return Some(value);
        }
        let digit = (*b - b'0') as u128;
        if (GREATEST - digit) / 10 < value {
            return None;
        }
        value = value * 10 + digit;
    }
    Some(value)
}
