//! Lists that are filled and emptied.
ghost use Rattle.std.specs.Prelude.{◌≡◌, ℕ, ◌<◌, ◌≤◌, ◌⊎◌, [], Contains, OnOk, length, slice_index_or};
ghost use Rattle.std.specs.List.{All};
ghost use Rattle.epoch_draft.specs.Filling.{IsLengthened};

use event_types::{List, Memory};
use short_lists::ShortList;
use std::alloc::Global;

/// Puts the item at the end of a list until there are so many. After want of memory there may be more than before.
pub fn lengthen<T: Copy>(list: &mut List<T>, count: usize, item: T) -> Result<(), Memory>
    ensures more { IsLengthened item list.old list.new }
    ensures long { OnOk result (count ≤ length list.new) }
    ensures within { length list.old ≤ count → length list.new ≤ count }
{
    while list.len() < count {
        list.add(item)?;
    }
    Ok(())
}

/// Makes a list so many times the item, of which it has nothing else. After want of memory it may have fewer.
pub fn fit<T: Copy>(list: &mut List<T>, count: usize, item: T) -> Result<(), Memory>
    requires { (place : ℕ) → slice_index_or list.old place item ≡ item }
    ensures as_many { OnOk result (length list.new ≡ count) }
    ensures same { (place : ℕ) → slice_index_or list.new place item ≡ item }
{
    list.truncate(count);
    lengthen(list, count, item)
}

/// Puts empty lists at the end until there are so many. After want of memory there may be more than before.
pub fn lengthen_lists<T: Drop>(
    alloc: Global,
    lists: &mut List<List<T>>,
    count: usize,
) -> Result<(), Memory>
    ensures more { IsLengthened [] lists.old lists.new }
    ensures long { OnOk result (count ≤ length lists.new) }
    ensures within { length lists.old ≤ count → length lists.new ≤ count }
{
    while lists.len() < count {
        lists.add(List::new(alloc))?;
    }
    Ok(())
}

/// Puts empty lists of numbers at the end until there are so many. After want of memory there may be more than before.
pub(crate) fn lengthen_short_lists(
    alloc: Global,
    lists: &mut List<ShortList>,
    count: usize,
) -> Result<(), Memory>
    ensures more { IsLengthened [] lists.old lists.new }
    ensures long { OnOk result (count ≤ length lists.new) }
    ensures within { length lists.old ≤ count → length lists.new ≤ count }
{
    while lists.len() < count {
        lists.add(ShortList::new(alloc))?;
    }
    Ok(())
}

/// Drops the numbers of the lists at these places, and keeps their room. Takes no memory.
pub(crate) fn clear_short_lists(lists: &mut List<ShortList>, numbers: &[usize])
    requires numbers { All (λ number. number < length lists.old) numbers.now }
    requires others { (place : ℕ) → (slice_index_or lists.old place [] ≡ []) ⊎ Contains numbers.now place }
    ensures as_many { length lists.new ≡ length lists.old }
    ensures empty { (place : ℕ) → slice_index_or lists.new place [] ≡ [] }
{
    for number in numbers {
        lists.get_mut(*number).clear();
    }
}
