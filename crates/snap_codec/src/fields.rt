//! Numbers, texts and times, as bytes and from bytes.
ghost use Rattle.std.specs.Prelude.{◌≡◌, ◌++◌, IfOk, OnOk, length};
ghost use Rattle.snap_codec.specs.Answers.{Gives};
ghost use Rattle.snap_codec.specs.Reading.{chars_from, number_at, number_from, place_in, text_at, text_from, time_at, whole_from};
ghost use Rattle.snap_codec.specs.Spelling.{bits_bytes, number_bytes, text_bytes, time_bytes, whole_bytes};

use crate::fault::SnapFault;
use crate::stored::Stored;
use event_types::{Memory, Text};
use std::alloc::Global;
use std::str::from_utf8;

// Puts bytes at the end.
fn put(out: &mut Vec<u8>, bytes: &[u8]) -> Result<(), Memory>
    ensures { OnOk result (out.new.items ≡ out.old.items ++ bytes.now) }
{
    out.extend_from_slice(bytes)?;
    Ok(())
}

/// Puts the bytes of a number at the end.
#[tactic(auto, unfolding(crate::specs::Spelling::number_bytes))]
pub(crate) fn put_number(out: &mut Vec<u8>, number: u64) -> Result<(), Memory>
    ensures { OnOk result (out.new.items ≡ out.old.items ++ number_bytes number) }
{
    put(out, &number.to_be_bytes())
}

// Puts the bytes of 128 bits at the end.
#[tactic(auto, unfolding(crate::specs::Spelling::bits_bytes))]
fn put_bits(out: &mut Vec<u8>, bits: u128) -> Result<(), Memory>
    ensures { OnOk result (out.new.items ≡ out.old.items ++ bits_bytes bits) }
{
    put(out, &bits.to_be_bytes())
}

/// Puts the bytes of a number of 128 bits at the end.
pub(crate) fn put_whole(out: &mut Vec<u8>, number: i128) -> Result<(), Memory>
    ensures { OnOk result (out.new.items ≡ out.old.items ++ whole_bytes number) }
{
    put_bits(out, number.cast_unsigned())
}

/// Puts the bytes of a text at the end.
pub(crate) fn put_text(out: &mut Vec<u8>, text: &Text) -> Result<(), Memory>
    ensures { OnOk result (out.new.items ≡ out.old.items ++ text_bytes text.now) }
{
    let text = text.as_str();
    put_number(out, text.len() as u64)?;
    put(out, text.as_bytes())
}

/// The place of the first of these bytes, which end so many bytes behind the begin of the snapshot.
pub(crate) fn place_of(total: usize, bytes: &[u8]) -> u64
    ensures { result ≡ place_in total bytes.now }
{
    total.saturating_sub(bytes.len()) as u64
}

/// The number of an item that begins at a place.
#[tactic(auto, unfolding(crate::specs::Reading::number_from))]
pub(crate) fn read_number_from(place: u64, bytes: &[u8]) -> Result<(u64, &[u8]), SnapFault>
    ensures { Gives (λ x. (x.0, x.1.now)) result (number_from place bytes.now) }
{
    if bytes.len() < 8 {
        return Err(SnapFault::Cut { at: place });
    }
    let (front, rest) = bytes.split_at(8);
    let number = u64::from_be_bytes([
        front[0], front[1], front[2], front[3], front[4], front[5], front[6], front[7],
    ]);
    Ok((number, rest))
}

/// The number at the front.
pub(crate) fn read_number(total: usize, bytes: &[u8]) -> Result<(u64, &[u8]), SnapFault>
    ensures { Gives (λ x. (x.0, x.1.now)) result (number_at total bytes.now) }
{
    read_number_from(place_of(total, bytes), bytes)
}

/// The number of 128 bits of an item that begins at a place.
#[tactic(auto, unfolding(crate::specs::Reading::whole_from))]
pub(crate) fn read_whole_from(place: u64, bytes: &[u8]) -> Result<(i128, &[u8]), SnapFault>
    ensures { Gives (λ x. (x.0, x.1.now)) result (whole_from place bytes.now) }
{
    if bytes.len() < 16 {
        return Err(SnapFault::Cut { at: place });
    }
    let (front, rest) = bytes.split_at(16);
    let number = u128::from_be_bytes([
        front[0], front[1], front[2], front[3], front[4], front[5], front[6], front[7], front[8],
        front[9], front[10], front[11], front[12], front[13], front[14], front[15],
    ]);
    Ok((number.cast_signed(), rest))
}

// The text of so many bytes of an item that begins at a place.
fn read_chars_from(
    alloc: Global,
    place: u64,
    count: u64,
    bytes: &[u8],
) -> Result<(Text, &[u8]), SnapFault>
    ensures { Gives (λ x. (x.0, x.1.now)) result (chars_from place count bytes.now) }
{
    let count = count as usize;
    if bytes.len() < count {
        return Err(SnapFault::Cut { at: place });
    }
    let (chars, rest) = bytes.split_at(count);
    match from_utf8(chars) {
        Ok(chars) => {
            let text = Text::make(alloc, chars)?;
            Ok((text, rest))
        }
        Err(_) => Err(SnapFault::BadByte { at: place }),
    }
}

/// The text of an item that begins at a place.
#[tactic(auto, unfolding(crate::specs::Reading::text_from))]
pub(crate) fn read_text_from(
    alloc: Global,
    place: u64,
    bytes: &[u8],
) -> Result<(Text, &[u8]), SnapFault>
    ensures { Gives (λ x. (x.0, x.1.now)) result (text_from place bytes.now) }
{
    let (count, rest) = read_number_from(place, bytes)?;
    let (text, rest) = read_chars_from(alloc, place, count, rest)?;
    Ok((text, rest))
}

/// The text at the front.
pub(crate) fn read_text(
    alloc: Global,
    total: usize,
    bytes: &[u8],
) -> Result<(Text, &[u8]), SnapFault>
    ensures { Gives (λ x. (x.0, x.1.now)) result (text_at total bytes.now) }
{
    read_text_from(alloc, place_of(total, bytes), bytes)
}

#[tactic(auto, unfolding(crate::specs::Reading::time_at))]
impl Stored for Option<u64> {
    ghost use Rattle.snap_codec.specs.Reading.{time_at};
    ghost use Rattle.snap_codec.specs.Spelling.{time_bytes};

    ghost bytes_of = { time_bytes };

    ghost read_at = { time_at };

    fn write(&self, out: &mut Vec<u8>) -> Result<(), Memory> {
        match self {
            None => out.push(0)?,
            Some(time) => {
                out.push(1)?;
                put_number(out, *time)?;
            }
        }
        Ok(())
    }

    fn read(_alloc: Global, total: usize, bytes: &[u8]) -> Result<(Self, &[u8]), SnapFault> {
        match bytes {
            [] => Err(SnapFault::Cut { at: total as u64 }),
            [0, rest @ ..] => Ok((None, rest)),
            [1, rest @ ..] => {
                let (time, rest) = read_number_from(place_of(total, bytes), rest)?;
                Ok((Some(time), rest))
            }
            [_, ..] => Err(SnapFault::BadByte {
                at: place_of(total, bytes),
            }),
        }
    }
}
