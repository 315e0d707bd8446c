//! The canonical text of scalars.
ghost use Rattle.std.specs.Prelude.{◌≡◌, ◌++◌, [], OnOk};
ghost use Rattle.std.specs.Fmt.{signed_decimal};
ghost use Rattle.cel_grammar.specs.Symbols as the;
ghost use Rattle.cel_print.specs.Parts.{scalar_text};
ghost use Rattle.cel_grammar.specs.Views.{scalar_of};
ghost use Rattle.cel_print.specs.ScalarWords.{attribute_words};
ghost use Rattle.cel_print.specs.Spelled.{doubled, spelling, text_of};

use crate::appending::{append, close_unless, open_unless};
use crate::places::{ScalarPlace, takes_product, takes_sum};
use cel_grammar::{Mark, Raw};
use event_types::Memory;
use itoa::Buffer;
use result_text::append_decimal;

/// Puts a scalar behind a text, in parentheses where it may not stand at this place as it is.
pub(crate) fn append_scalar(
    text: &mut Vec<u8>,
    place: ScalarPlace,
    scalar: &Raw,
) -> Result<(), Memory>
    ensures { OnOk result (text.new.items ≡ text.old.items ++ scalar_text place (scalar_of scalar.now)) }
{
    match scalar {
        Raw::Number(number) => append_number(text, *number),
        Raw::Quoted(quoted) => append_quoted(text, quoted.as_str().as_bytes()),
        Raw::Attr(mark, name) => append_attribute(text, *mark, name.as_str().as_bytes()),
        Raw::Dur => append(text, b"DUR"),
        Raw::Decimal { scale, units } => append_decimal(text, *scale, *units),
        Raw::Add(x, y) => {
            open_unless(text, takes_sum(place))?;
            append_scalar(text, ScalarPlace::Scalar, x)?;
            append(text, b" + ")?;
            append_scalar(text, ScalarPlace::Product, y)?;
            close_unless(text, takes_sum(place))
        }
        Raw::Sub(x, y) => {
            open_unless(text, takes_sum(place))?;
            append_scalar(text, ScalarPlace::Scalar, x)?;
            append(text, b" - ")?;
            append_scalar(text, ScalarPlace::Product, y)?;
            close_unless(text, takes_sum(place))
        }
        Raw::Mul(x, y) => {
            open_unless(text, takes_product(place))?;
            append_scalar(text, ScalarPlace::Product, x)?;
            append(text, b" * ")?;
            append_scalar(text, ScalarPlace::Factor, y)?;
            close_unless(text, takes_product(place))
        }
        Raw::Min(x, y) => {
            append(text, b"MIN(")?;
            append_scalar(text, ScalarPlace::Scalar, x)?;
            append(text, b", ")?;
            append_scalar(text, ScalarPlace::Scalar, y)?;
            append(text, b")")
        }
        Raw::Max(x, y) => {
            append(text, b"MAX(")?;
            append_scalar(text, ScalarPlace::Scalar, x)?;
            append(text, b", ")?;
            append_scalar(text, ScalarPlace::Scalar, y)?;
            append(text, b")")
        }
    }
}

// Puts a number behind a text.
fn append_number(text: &mut Vec<u8>, number: i128) -> Result<(), Memory>
    ensures { OnOk result (text.new.items ≡ text.old.items ++ signed_decimal number) }
{
    append(text, Buffer::new().format(number).as_bytes())
}

// Puts a text literal behind a text, with each quote doubled.
fn append_quoted(text: &mut Vec<u8>, quoted: &[u8]) -> Result<(), Memory>
    ensures { OnOk result (text.new.items ≡ text.old.items ++ spelling (the.Quoted quoted.now)) }
{
    append(text, b"'")?;
    append_doubled(text, quoted)?;
    append(text, b"'")
}

// Puts bytes behind a text, each quote twice.
fn append_doubled(text: &mut Vec<u8>, bytes: &[u8]) -> Result<(), Memory>
    ensures { OnOk result (text.new.items ≡ text.old.items ++ doubled bytes.now) }
{
    for byte in bytes {
        if *byte == b'\'' {
            text.push(b'\'')?;
        }
        text.push(*byte)?;
    }
    Ok(())
}

// Puts an attribute with its mark behind a text.
fn append_attribute(text: &mut Vec<u8>, mark: Mark, name: &[u8]) -> Result<(), Memory>
    ensures { OnOk result (text.new.items ≡ text.old.items ++ text_of (attribute_words mark name.now [])) }
{
    match mark {
        Mark::Bare => {}
        Mark::First => append(text, b"$1.")?,
        Mark::Second => append(text, b"$2.")?,
        Mark::So => append(text, b"$.")?,
    }
    append(text, name)
}
