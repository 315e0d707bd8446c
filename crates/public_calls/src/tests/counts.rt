//! A count of steps holds no bytes.
ghost use Rattle.std.specs.Prelude.{◌≡◌, ◌<◌};

use std::sync::ledger::Blank;
use steps::{Ledger, Quiet, Steps};

fn size_after_two_ticks<L: Ledger>(blank: Blank) -> usize
    requires name { blank.name ≡ L.name }
    requires parts { blank.parts ≡ L.parts }
    requires some { 0 < blank.parts }
{
    let mut steps = Steps::<L>::new(blank);
    steps.tick();
    steps.tick();
    size_of::<Steps<L>>()
}

#[test]
fn steps_hold_no_bytes(rt: HostRuntime) {
    assert_eq!(rt; size_after_two_ticks::<Quiet>(Blank::new(1)), 0);
}
