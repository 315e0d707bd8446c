//! The places of numbers.
ghost use Rattle.std.specs.Prelude.{◌≡◌, IfOk, length};
ghost use Rattle.work_order.specs.Numbers.{AreNumbers};
ghost use Rattle.work_order.specs.Places.{HasPlaces};

use event_types::{List, Memory, Numbers};
use std::alloc::Global;

/// For each number its place, counted from 0.
pub fn places_in(alloc: Global, numbers: &Numbers) -> Result<Numbers, Memory>
    requires { AreNumbers numbers.now }
    ensures { IfOk result (λ places. HasPlaces numbers.now places) }
{
    let mut places = zeros(alloc, numbers.len())?;
    for place in 0..numbers.len() {
        *places.get_mut(*numbers.get(place)) = place;
    }
    Ok(places)
}

// So many zeros.
fn zeros(alloc: Global, many: usize) -> Result<Numbers, Memory>
    ensures { IfOk result (λ numbers. length numbers ≡ many) }
{
    let mut numbers: Numbers = List::new(alloc);
    for _ in 0..many {
        numbers.add(0)?;
    }
    Ok(numbers)
}
