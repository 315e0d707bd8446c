//! Layouts: which streams lines publish, in which order, and of which kinds.
ghost use Rattle.std.specs.Prelude.{◌≡◌, IfOk, drop};

use event_types::{KindLists, Kinds, List, Memory, Numbers};
use long_lists::{LongList, LongNumbers};
use std::alloc::Global;

/// The streams of a network.
///
/// `order` has the derived streams in the order of work, hidden ones included, `outs` the streams that
/// are printed, in print order, and `kinds` the kinds of each stream by its number.
#[derive(Drop)]
pub struct Layout {
    pub order: LongNumbers,
    pub outs: LongNumbers,
    pub kinds: KindLists,
}

impl Layout {
    /// An equal layout.
    pub fn copy(&self, alloc: Global) -> Result<Layout, Memory>
        ensures { IfOk result (λ copy. copy ≡ self.now) }
    {
        let order = LongList::of(alloc, numbers_from(alloc, &self.order, 0)?)?;
        let outs = LongList::of(alloc, numbers_from(alloc, &self.outs, 0)?)?;
        let kinds = copy_kind_lists(alloc, self.kinds.as_slice())?;
        Ok(Layout { order, outs, kinds })
    }
}

// The numbers from a place on.
pub(crate) fn numbers_from(
    alloc: Global,
    numbers: &LongNumbers,
    first: usize,
) -> Result<Numbers, Memory>
    ensures { IfOk result (λ copy. copy ≡ drop first numbers.now) }
{
    let mut copy = List::new(alloc);
    for place in first..numbers.len() {
        copy.add(*numbers.get(place))?;
    }
    Ok(copy)
}

// Equal numbers.
pub(crate) fn copy_numbers(alloc: Global, numbers: &[usize]) -> Result<Numbers, Memory>
    ensures { IfOk result (λ copy. copy ≡ numbers.now) }
{
    let mut copy = List::new(alloc);
    for number in numbers {
        copy.add(*number)?;
    }
    Ok(copy)
}

// Equal kinds.
pub(crate) fn copy_kinds(alloc: Global, kinds: &Kinds) -> Result<Kinds, Memory>
    ensures { IfOk result (λ copy. copy ≡ kinds.now) }
{
    let mut copy = List::new(alloc);
    for kind in kinds.as_slice() {
        copy.add(*kind)?;
    }
    Ok(copy)
}

// Equal kinds of each stream.
pub(crate) fn copy_kind_lists(alloc: Global, lists: &[Kinds]) -> Result<KindLists, Memory>
    ensures { IfOk result (λ copy. copy ≡ lists.now) }
{
    let mut copy = List::new(alloc);
    for kinds in lists {
        copy.add(copy_kinds(alloc, kinds)?)?;
    }
    Ok(copy)
}
