//! The ids that are met, out of those that may be.
ghost use Rattle.std.specs.Prelude.{◌≡◌, ◌&&◌};
ghost use Rattle.static_index.specs.Narrowing.{is_other, passing};
ghost use Rattle.static_index.specs.Table.{meets};

use crate::entries::Entries;
use crate::entry::Asked;
use crate::meeting::holds;
use event_types::{Numbers, Tuple};

// Keeps those ids that are met, where equal ones that follow one another are asked once.
pub(crate) fn narrow(entries: &Entries, asked: Asked, event: &Tuple, found: &mut Numbers)
    ensures { found.new ≡ passing (meets entries.now asked event.now) found.old }
{
    let mut kept = 0;
    let mut place = 0;
    let mut last = None;
    'places: while place < found.len() {
        let id = *found.get(place);
        let keeps = is_kept(entries, asked, event, last, id);
        place += 1;
        last = Some(id);
        if keeps {
            *found.get_mut(kept) = id;
            kept += 1;
        }
    }
    found.truncate(kept);
}

// Whether an id isn't the one before it, and is met.
fn is_kept(entries: &Entries, asked: Asked, event: &Tuple, last: Option<usize>, id: usize) -> bool
    ensures { result ≡ (is_other last id && meets entries.now asked event.now id) }
{
    let is_other = match last {
        Some(last) => id != last,
        None => true,
    };
    is_other && is_met(entries, asked, event, id)
}

// Whether there is a condition with this id, and the parts that are asked hold for an event.
fn is_met(entries: &Entries, asked: Asked, event: &Tuple, id: usize) -> bool
    ensures { result ≡ meets entries.now asked event.now id }
{
    match entries.get(id) {
        Some(entry) => holds(&entry.parts, asked, event),
        None => false,
    }
}
