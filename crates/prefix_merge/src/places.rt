//! Which numbers no state of a network has.
ghost use Rattle.std.specs.Prelude.{◌≡◌, ◌<◌, ◌≤◌, ℕ, OnOk, length};
ghost use Rattle.prefix_merge.specs.Places.{is_free};

use event_types::Memory;
use long_lists::FreeNumbers;

// Lists a number, which is free, where it is the next one.
pub(crate) fn make_place(free: &mut FreeNumbers, number: usize) -> Result<(), Memory>
    requires { number ≤ length free.old }
    ensures listed { OnOk result (number < length free.new) }
    ensures same { (other : ℕ) → is_free free.new other ≡ is_free free.old other }
{
    if number == free.len() {
        free.add()?;
        free.free(number);
    }
    Ok(())
}
