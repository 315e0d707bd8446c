//! Lists, as bytes and from bytes.
ghost use Rattle.std.specs.Prelude.{◌≡◌, ◌++◌, OnOk};
ghost use Rattle.snap_codec.specs.Answers.{Gives};
ghost use Rattle.snap_codec.specs.Reading.{items_at};

use crate::fault::SnapFault;
use crate::fields::{put_number, read_number};
use crate::stored::Stored;
use event_types::{List, Memory};
use std::alloc::Global;

// So many items, one after the other.
fn read_items<T: Stored + Drop>(
    alloc: Global,
    total: usize,
    count: u64,
    bytes: &[u8],
) -> Result<(List<T>, &[u8]), SnapFault>
    ensures { Gives (λ x. (x.0, x.1.now)) result (items_at (T.read_at total) count bytes.now) }
{
    let mut items = List::new(alloc);
    let mut rest = bytes;
    'items: for _ in 0..count {
        let (item, after) = T::read(alloc, total, rest)?;
        items.add(item)?;
        rest = after;
    }
    Ok((items, rest))
}

#[tactic(auto, unfolding(crate::specs::Reading::list_at))]
impl<T: Stored + Drop> Stored for List<T> {
    ghost use Rattle.snap_codec.specs.Reading.{list_at};
    ghost use Rattle.snap_codec.specs.Spelling.{list_bytes};

    ghost bytes_of = { list_bytes T.bytes_of };

    ghost read_at = { list_at T.read_at };

    fn write(&self, out: &mut Vec<u8>) -> Result<(), Memory> {
        put_number(out, self.len() as u64)?;
        'items: for item in self.as_slice() {
            item.write(out)?;
        }
        Ok(())
    }

    fn read(alloc: Global, total: usize, bytes: &[u8]) -> Result<(Self, &[u8]), SnapFault> {
        let (count, rest) = read_number(total, bytes)?;
        read_items(alloc, total, count, rest)
    }
}
