//! Decimals as they are written.
ghost use Rattle.std.specs.Prelude.{◌≡◌, ◌++◌, OnOk, decimal};
ghost use Rattle.semantics.specs.Report.{decimal_text, with_places, with_point};

use event_types::Memory;
use itoa::Buffer;

/// Puts a decimal behind a text, as `-0.05` for -5 units of scale 2.
pub fn append_decimal(text: &mut Vec<u8>, scale: u8, units: i128) -> Result<(), Memory>
    ensures { OnOk result (text.new.items ≡ text.old.items ++ decimal_text scale units) }
{
    if units < 0 {
        text.push(b'-')?;
    }
    append_places(text, scale, units.unsigned_abs())
}

// Puts a number of so many places behind a text.
fn append_places(text: &mut Vec<u8>, places: u8, number: u128) -> Result<(), Memory>
    ensures { OnOk result (text.new.items ≡ text.old.items ++ with_places places number) }
{
    if places == 0 {
        append_whole(text, number)
    } else {
        append_point(text, places, number)
    }
}

// Puts a number, a point before its last so many digits, and these behind a text.
fn append_point(text: &mut Vec<u8>, places: u8, number: u128) -> Result<(), Memory>
    ensures { OnOk result (text.new.items ≡ text.old.items ++ with_point places number) }
{
    if places == 0 {
        append_whole(text, number)?;
        text.push(b'.')?;
    } else {
        append_point(text, places - 1, number / 10)?;
        text.push(b'0' + (number % 10) as u8)?;
    }
    Ok(())
}

// Puts a whole number behind a text.
fn append_whole(text: &mut Vec<u8>, number: u128) -> Result<(), Memory>
    ensures { OnOk result (text.new.items ≡ text.old.items ++ decimal number) }
{
    text.extend_from_slice(Buffer::new().format(number).as_bytes())?;
    Ok(())
}
