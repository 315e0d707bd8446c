//! The deadlines of states.
ghost use Rattle.std.specs.Prelude.{◌+◌, ◌<◌, ◌≤◌, ◌≡◌, [], All, Any, IfNone, IfSome, Some, length, slice_index, slice_set};
ghost use Rattle.automaton.specs.States.{wait_at};
ghost use Rattle.automaton.specs.declared.wait.Wait.{Wait};
ghost use Rattle.instances.specs.Bounds.{AreAliveUntil};
ghost use Rattle.epoch_draft.specs.Watching.{ArePurgedEach, IsNeeded, Watches};

use crate::purging::purge;
use crate::stores::Stores;
use automaton::Network;
use deadlines::{Deadlines, NEVER};
use inst_chain::Chain;
use instances::{Instance, expires_at};
use scalar_expr::Conj;

/// Takes out of each store the instances that no event after this time can match, as the bounds on DUR tell.
/// A store whose deadline is later is not looked at. Takes no memory.
pub(crate) fn purge_due(stores: &mut Stores, deadlines: &mut Deadlines, time: u64)
    requires { Watches deadlines.old stores.old }
    ensures purged { ArePurgedEach (time + 1) stores.old stores.new }
    ensures watches { Watches deadlines.new stores.new }
    ensures later { All (λ deadline. time + 1 < deadline) deadlines.new }
{
    while let Some(number) = deadlines.first_until(time as u128 + 1) {
        let deadline = purge(stores.get_mut(number), time, None);
        deadlines.set(number, deadline);
    }
}

/// Lowers the deadline of a state, if it is a waiting state, so that it is one of these new instances too.
/// Takes no memory.
pub(crate) fn lower_at(
    network: &Network,
    deadlines: &mut Deadlines,
    number: usize,
    beads: &Chain<Instance>,
)
    requires number { number < length network.now }
    requires deadlines { number < length deadlines.old }
    ensures lowered { deadlines.new ≡ slice_set deadlines.old number (slice_index deadlines.new number) }
    ensures earlier { slice_index deadlines.new number ≤ slice_index deadlines.old number }
    ensures until { (wait : Wait) → wait_at network.now number ≡ Some wait → AreAliveUntil (slice_index deadlines.new number) wait.choose beads.now }
    ensures needed { slice_index deadlines.new number < slice_index deadlines.old number → (wait : Wait) × (wait_at network.now number ≡ Some wait) × IsNeeded (slice_index deadlines.old number) (slice_index deadlines.new number) wait.choose beads.now }
{
    if !network.used(number) {
        return;
    }
    if let Some(wait) = network.wait(number) {
        lower(deadlines, number, &wait.choose, beads);
    }
}

// The same by the state's condition.
fn lower(deadlines: &mut Deadlines, number: usize, condition: &Conj, beads: &Chain<Instance>)
    requires { number < length deadlines.old }
    ensures lowered { deadlines.new ≡ slice_set deadlines.old number (slice_index deadlines.new number) }
    ensures earlier { slice_index deadlines.new number ≤ slice_index deadlines.old number }
    ensures until { AreAliveUntil (slice_index deadlines.new number) condition.now beads.now }
    ensures needed { IsNeeded (slice_index deadlines.old number) (slice_index deadlines.new number) condition.now beads.now }
{
    let deadline = deadline_of(condition, beads).min(deadlines.get(number));
    deadlines.set(number, deadline);
}

// The first time at which one of these instances is alive no more, or `NEVER`.
fn deadline_of(condition: &Conj, beads: &Chain<Instance>) -> u128
    ensures until { AreAliveUntil result condition.now beads.now }
    ensures needed { IsNeeded NEVER result condition.now beads.now }
{
    match oldest_start(beads) {
        Some(oldest) => expires_at(condition, oldest),
        None => NEVER,
    }
}

// The start of the instance that starts first, where there is one.
fn oldest_start(beads: &Chain<Instance>) -> Option<u64>
    ensures none { IfNone result (beads.now ≡ []) }
    ensures all { IfSome result (λ oldest. All (λ instance. oldest ≤ instance.tuple.from) beads.now) }
    ensures is_one { IfSome result (λ oldest. Any (λ instance. instance.tuple.from ≡ oldest) beads.now) }
{
    let mut look = beads.look();
    let mut oldest = look.next()?.tuple.from();
    while let Some(instance) = look.next() {
        oldest = oldest.min(instance.tuple.from());
    }
    Some(oldest)
}
