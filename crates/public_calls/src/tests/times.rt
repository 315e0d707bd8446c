//! Deadlines of places.
ghost use Rattle.std.specs.Prelude.{◌≡◌, IfOk, length};

use deadlines::{Deadlines, NEVER};
use event_types::Memory;
use std::alloc::Global;
use std::test::Fail;

// Three places, the second with deadline 7 and the last with 5.
fn three(alloc: Global) -> Result<Deadlines, Memory>
    ensures { IfOk result (λ deadlines. length deadlines ≡ 3) }
{
    let mut deadlines = Deadlines::make(alloc, 3)?;
    deadlines.set(1, 7);
    deadlines.set(2, 5);
    Ok(deadlines)
}

#[test]
fn places_are_found_once_their_deadlines_pass(rt: HostRuntime) -> Result<(), Fail> {
    let mut deadlines = three(rt.alloc())?;
    assert_eq!(rt; deadlines.first_until(4), None);
    assert_eq!(rt; deadlines.first_until(5), Some(2));
    assert_eq!(rt; deadlines.first_until(7), Some(1));
    deadlines.set(1, NEVER);
    assert_eq!(rt; deadlines.first_until(7), Some(2));
    assert_eq!(rt; deadlines.get(0), NEVER);
    Ok(())
}
