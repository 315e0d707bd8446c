//! The bytes of an image.
ghost use Rattle.std.specs.Prelude.{◌≡◌, IfOk};
ghost use Rattle.snap_codec.specs.Spelling.{image_bytes};

use crate::blob::Blob;
use crate::fields::put_text;
use crate::image::Image;
use crate::stored::Stored;
use event_types::Memory;
use std::alloc::Global;

/// The eight bytes with which each snapshot begins.
pub(crate) const MAGIC: [u8; 8] = *b"CAYSNAP1";

/// The bytes of an image.
pub fn encode(alloc: Global, image: &Image) -> Result<Blob, Memory>
    ensures { IfOk result (λ blob. blob ≡ image_bytes image.now) }
{
    let mut out = Vec::new(alloc);
    out.extend_from_slice(&MAGIC)?;
    put_text(&mut out, &image.text)?;
    image.births.write(&mut out)?;
    image.last.write(&mut out)?;
    image.opened.write(&mut out)?;
    image.events.write(&mut out)?;
    image.stores.write(&mut out)?;
    Ok(Blob::of(out))
}
