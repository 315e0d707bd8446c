//! Values, tuples, open events and what waits, as bytes and from bytes.
ghost use Rattle.std.specs.Prelude.{◌≡◌, ◌++◌, OnOk};
ghost use Rattle.snap_codec.specs.Answers.{Gives};
ghost use Rattle.snap_codec.specs.Reading.{decimal_from, item_at, open_at, spanned_at, tuple_at, value_at};
ghost use Rattle.snap_codec.specs.Spelling.{item_bytes, open_bytes, tuple_bytes, value_bytes};

use crate::fault::SnapFault;
use crate::fields::{
    place_of, put_number, put_text, put_whole, read_number, read_text_from, read_whole_from,
};
use crate::image::{Item, Open};
use crate::stored::Stored;
use event_types::{Memory, Tuple, Vals, Value};
use std::alloc::Global;

// The decimal of an item that begins at a place.
#[tactic(auto, unfolding(crate::specs::Reading::decimal_from))]
fn read_decimal_from(place: u64, bytes: &[u8]) -> Result<(Value, &[u8]), SnapFault>
    ensures { Gives (λ x. (x.0, x.1.now)) result (decimal_from place bytes.now) }
{
    match bytes {
        [] => Err(SnapFault::Cut { at: place }),
        [scale, rest @ ..] => {
            let scale = *scale;
            let (units, rest) = read_whole_from(place, rest)?;
            if 18 < scale {
                return Err(SnapFault::BadByte { at: place });
            }
            Ok((Value::Dec { scale, units }, rest))
        }
    }
}

#[tactic(auto, unfolding(crate::specs::Reading::value_at))]
impl Stored for Value {
    ghost use Rattle.snap_codec.specs.Reading.{value_at};
    ghost use Rattle.snap_codec.specs.Spelling.{value_bytes};

    ghost bytes_of = { value_bytes };

    ghost read_at = { value_at };

    fn write(&self, out: &mut Vec<u8>) -> Result<(), Memory> {
        match self {
            Value::Int(number) => {
                out.push(0)?;
                put_whole(out, *number)?;
            }
            Value::Over => out.push(1)?,
            Value::Text(text) => {
                out.push(2)?;
                put_text(out, text)?;
            }
            Value::Dec { scale, units } => {
                out.push(3)?;
                out.push(*scale)?;
                put_whole(out, *units)?;
            }
        }
        Ok(())
    }

    fn read(alloc: Global, total: usize, bytes: &[u8]) -> Result<(Self, &[u8]), SnapFault> {
        match bytes {
            [] => Err(SnapFault::Cut { at: total as u64 }),
            [0, rest @ ..] => {
                let (number, rest) = read_whole_from(place_of(total, bytes), rest)?;
                Ok((Value::Int(number), rest))
            }
            [1, rest @ ..] => Ok((Value::Over, rest)),
            [2, rest @ ..] => {
                let (text, rest) = read_text_from(alloc, place_of(total, bytes), rest)?;
                Ok((Value::Text(text), rest))
            }
            [3, rest @ ..] => {
                let (value, rest) = read_decimal_from(place_of(total, bytes), rest)?;
                Ok((value, rest))
            }
            [_, ..] => Err(SnapFault::BadByte {
                at: place_of(total, bytes),
            }),
        }
    }
}

// The values of a tuple that begins at a place, and the tuple.
#[tactic(auto, unfolding(crate::specs::Reading::spanned_at))]
fn read_spanned(
    alloc: Global,
    place: u64,
    total: usize,
    from: u64,
    at: u64,
    bytes: &[u8],
) -> Result<(Tuple, &[u8]), SnapFault>
    ensures { Gives (λ x. (x.0, x.1.now)) result (spanned_at place total from at bytes.now) }
{
    if at < from {
        return Err(SnapFault::BadByte { at: place });
    }
    let (vals, rest) = Vals::read(alloc, total, bytes)?;
    match Tuple::make(vals, from, at) {
        Ok(tuple) => Ok((tuple, rest)),
        Err(_) => Err(SnapFault::BadByte { at: place }),
    }
}

#[tactic(auto, unfolding(crate::specs::Reading::tuple_at))]
impl Stored for Tuple {
    ghost use Rattle.snap_codec.specs.Reading.{tuple_at};
    ghost use Rattle.snap_codec.specs.Spelling.{tuple_bytes};

    ghost bytes_of = { tuple_bytes };

    ghost read_at = { tuple_at };

    fn write(&self, out: &mut Vec<u8>) -> Result<(), Memory> {
        put_number(out, self.from())?;
        put_number(out, self.at())?;
        self.vals().write(out)
    }

    fn read(alloc: Global, total: usize, bytes: &[u8]) -> Result<(Self, &[u8]), SnapFault> {
        let place = place_of(total, bytes);
        let (from, rest) = read_number(total, bytes)?;
        let (at, rest) = read_number(total, rest)?;
        read_spanned(alloc, place, total, from, at, rest)
    }
}

#[tactic(auto, unfolding(crate::specs::Reading::open_at))]
impl Stored for Open {
    ghost use Rattle.snap_codec.specs.Reading.{open_at};
    ghost use Rattle.snap_codec.specs.Spelling.{open_bytes};

    ghost bytes_of = { open_bytes };

    ghost read_at = { open_at };

    fn write(&self, out: &mut Vec<u8>) -> Result<(), Memory> {
        put_number(out, self.place)?;
        self.tuple.write(out)
    }

    fn read(alloc: Global, total: usize, bytes: &[u8]) -> Result<(Self, &[u8]), SnapFault> {
        let (place, rest) = read_number(total, bytes)?;
        let (tuple, rest) = Tuple::read(alloc, total, rest)?;
        Ok((Open { place, tuple }, rest))
    }
}

#[tactic(auto, unfolding(crate::specs::Reading::item_at))]
impl Stored for Item {
    ghost use Rattle.snap_codec.specs.Reading.{item_at};
    ghost use Rattle.snap_codec.specs.Spelling.{item_bytes};

    ghost bytes_of = { item_bytes };

    ghost read_at = { item_at };

    fn write(&self, out: &mut Vec<u8>) -> Result<(), Memory> {
        put_number(out, self.first)?;
        self.tuple.write(out)
    }

    fn read(alloc: Global, total: usize, bytes: &[u8]) -> Result<(Self, &[u8]), SnapFault> {
        let (first, rest) = read_number(total, bytes)?;
        let (tuple, rest) = Tuple::read(alloc, total, rest)?;
        Ok((Item { first, tuple }, rest))
    }
}
