//! The numbers of what a query has in a list.
ghost use Rattle.std.specs.Prelude.{◌≡◌, ◌≤◌, ◌-◌, ◌++◌, OnOk, length, take, drop};

use event_types::{Memory, Numbers};
use long_lists::LongNumbers;

/// Adds the numbers from one place up to another.
pub fn add_part(
    part: &mut Numbers,
    numbers: &LongNumbers,
    first: usize,
    end: usize,
) -> Result<(), Memory>
    requires up { first ≤ end }
    requires within { end ≤ length numbers.now }
    ensures { OnOk result (part.new ≡ part.old ++ take (end - first) (drop first numbers.now)) }
{
    for place in first..end {
        part.add(*numbers.get(place))?;
    }
    Ok(())
}
