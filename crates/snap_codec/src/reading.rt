//! The image that bytes are those of.
ghost use Rattle.std.specs.Prelude.{IfOk, Ok};
ghost use Rattle.snap_codec.specs.Answers.{Gives};
ghost use Rattle.snap_codec.specs.Reading.{decoded, ended, parts_at};
ghost use Rattle.snap_codec.specs.Snapshot.{IsSnapshotOf};
ghost use Rattle.snap_codec.specs.declared.image.Image.{Image};

use crate::fault::SnapFault;
use crate::fields::{place_of, read_text};
use crate::image::{Image, Opens, Stores, Times};
use crate::stored::Stored;
use crate::writing::MAGIC;
use std::alloc::Global;

// The parts of an image.
#[tactic(auto, unfolding(crate::specs::Reading::parts_at))]
fn read_parts(alloc: Global, total: usize, bytes: &[u8]) -> Result<(Image, &[u8]), SnapFault>
    ensures { Gives (λ x. (x.0, x.1.now)) result (parts_at total bytes.now) }
{
    let (text, rest) = read_text(alloc, total, bytes)?;
    let (births, rest) = Times::read(alloc, total, rest)?;
    let (last, rest) = <Option<u64> as Stored>::read(alloc, total, rest)?;
    let (opened, rest) = <Option<u64> as Stored>::read(alloc, total, rest)?;
    let (events, rest) = Opens::read(alloc, total, rest)?;
    let (stores, rest) = Stores::read(alloc, total, rest)?;
    let image = Image {
        text,
        births,
        last,
        opened,
        events,
        stores,
    };
    Ok((image, rest))
}

// The image, where no byte is left.
#[tactic(auto, unfolding(crate::specs::Reading::ended))]
fn end(total: usize, image: Image, bytes: &[u8]) -> Result<Image, SnapFault>
    ensures { Gives (λ image. image) result (ended total image bytes.now) }
{
    match bytes {
        [] => Ok(image),
        [_, ..] => Err(SnapFault::Extra {
            at: place_of(total, bytes),
        }),
    }
}

// The image of all bytes.
#[tactic(auto, unfolding(crate::specs::Reading::decoded))]
fn read_all(alloc: Global, bytes: &[u8]) -> Result<Image, SnapFault>
    ensures { Gives (λ image. image) result (decoded bytes.now) }
{
    if 4_294_967_296 < bytes.len() {
        return Err(SnapFault::TooBig);
    }
    if !bytes.starts_with(&MAGIC) {
        return Err(SnapFault::NotSnapshot);
    }
    let total = bytes.len();
    let (_, parts) = bytes.split_at(8);
    let (image, rest) = read_parts(alloc, total, parts)?;
    end(total, image, rest)
}

/// The image that bytes are those of, or the first fault: `TooBig`, `NotSnapshot`, `Cut`, `BadByte` or `Extra`.
pub fn decode(alloc: Global, bytes: &[u8]) -> Result<Image, SnapFault>
    ensures ok { IfOk result (IsSnapshotOf bytes.now) }
    ensures all { (image : Image) → IsSnapshotOf bytes.now image → Gives (λ read. read) result (Ok image) }
    ensures first { Gives (λ read. read) result (decoded bytes.now) }
{
    read_all(alloc, bytes)
}
