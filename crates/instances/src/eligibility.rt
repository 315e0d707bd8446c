//! Taking out the instances that an event matches.
ghost use Rattle.std.specs.Prelude.{◌≡◌, ◌+◌, ◌≤◌, IsTrue, Some, length, not, filter, All};
ghost use Rattle.semantics.specs.Nexts.{is_eligible};
ghost use Rattle.scalar_expr.specs.Fits.{AllFit};
ghost use Rattle.instances.specs.Keys.{key_matches, key_of_places};

use crate::instance::Instance;
use crate::spent::SpentBeads;
use event_types::Tuple;
use inst_chain::Chain;
use scalar_expr::{Conj, KeyPlaces, can_follow, can_follow_alike};
use steps::{Ledger, Steps};

/// Whether the event is eligible for a binding that it found by a key, if there is one. Whether the key part holds isn't
/// tested again. Takes no memory.
#[inline(always)]
pub fn can_follow_found<L: Ledger>(
    condition: &Conj,
    key: Option<KeyPlaces>,
    binding: &Tuple,
    event: &Tuple,
    steps: &mut Steps<L>,
) -> bool
    requires fits { AllFit condition.now event.now (Some binding.now) }
    requires found { IsTrue (key_matches (key_of_places key) event.now binding.now) }
    ensures value { result ≡ is_eligible condition.now binding.now event.now }
    ensures ticks { steps.new ≤ steps.old + 1 }
{
    match key {
        Some(key) => can_follow_alike(condition, key, binding, event, steps),
        None => can_follow(condition, binding, event, steps),
    }
}

/// Takes the instances for which the event is eligible out of a chain where it found them by a key, if there is one, and
/// keeps their beads among the spent ones. Takes no memory.
pub fn take_eligible<L: Ledger>(
    chain: &mut Chain<Instance>,
    event: &Tuple,
    choose: &Conj,
    key: Option<KeyPlaces>,
    steps: &mut Steps<L>,
    spent: &mut SpentBeads,
)
    requires fits { All (λ instance. AllFit choose.now event.now (Some instance.tuple)) chain.old }
    requires found { All (λ instance. IsTrue (key_matches (key_of_places key) event.now instance.tuple)) chain.old }
    ensures others { chain.new ≡ filter (λ instance. not (is_eligible choose.now instance.tuple event.now)) chain.old }
    ensures ticks { steps.new ≤ steps.old + length chain.old }
{
    let mut walk = chain.walk();
    while let Some(instance) = walk.get() {
        if can_follow_found(choose, key, &instance.tuple, event, steps) {
            spent.put(walk.unlink());
        } else {
            walk.step();
        }
    }
}
