//! Stores of instances.
ghost use Rattle.std.specs.Prelude.{◌≡◌, ◌↔◌, ◌⊎◌, ◌+◌, ◌<◌, ◌≤◌, ◌^◌, ◌-◌, min, ◌∷◌, ℕ, List, Some, Option, length, All, Any, Contains, IfOk, OnErr, OnOk, IsPermutation};
ghost use Rattle.event_types.specs.declared.value.Value.{Value};
ghost use Rattle.semantics.specs.Scalars.{Pr};
ghost use Rattle.scalar_expr.specs.Fits.{AllFit};
ghost use Rattle.instances.specs.declared.instance.Instance.{Instance};
ghost use Rattle.instances.specs.Births.{began_after};
ghost use Rattle.instances.specs.Bounds.{AreAliveUntil, alive_instances};
ghost use Rattle.instances.specs.Keys.{BindingFits, EventFits, HasKey, IsKeyReady, KeepsUsedKeys, Key, candidates_of, unmatched};

use crate::instance::{Instance, Instances};
use crate::spent::SpentBeads;
use event_types::{Memory, Tuple};
use inst_chain::{Bead, Look};
use scalar_expr::Conj;
use std::alloc::Global;
use steps::{Ledger, Steps};

/// A store of the instances that wait at one state. The order of its instances is its own.
///
/// Room for an instance is made by `ready`, and the instance is put there by `link`, which can't be
/// refused.
pub trait Waiting {
    ghost condition: { Self → List Pr };

    ghost key: { Self → Option Key };

    ghost instances: { Self → List Instance };

    ghost ready_keys: { Self → List Value };

    /// The instances that an event may match, as far as the key tells. Takes no memory.
    fn candidates(&self, event: &Tuple) -> Look<'_, Instance>
        requires { EventFits (key self.now) event.now }
        ensures { result ≡ candidates_of (key self.now) event.now (instances self.now) };

    /// Takes out the candidates for which the event is eligible, and keeps their beads among the spent ones. Takes no
    /// memory.
    fn take<L: Ledger>(
        &mut self,
        event: &Tuple,
        choose: &Conj,
        steps: &mut Steps<L>,
        spent: &mut SpentBeads,
    )
        requires event_fits { EventFits (key self.old) event.now }
        requires condition_fits { All (λ instance. AllFit choose.now event.now (Some instance.tuple)) (candidates_of (key self.old) event.now (instances self.old)) }
        ensures others { instances self.new ≡ unmatched (key self.old) choose.now event.now (instances self.old) }
        ensures ticks { steps.new ≤ steps.old + length (candidates_of (key self.old) event.now (instances self.old)) }
        ensures same_ready { ready_keys self.new ≡ ready_keys self.old }
        ensures same_condition { condition self.new ≡ condition self.old }
        ensures same_key { key self.new ≡ key self.old };

    /// Equal copies of all instances.
    fn all(&self, alloc: Global) -> Result<Instances, Memory>
        ensures { IfOk result (λ copies. IsPermutation copies (instances self.now)) };

    /// Makes room for an instance with this key.
    fn ready(&mut self, instance: &Instance) -> Result<(), Memory>
        requires { BindingFits (key self.old) instance.now.tuple }
        ensures ok { OnOk result (IsKeyReady (key self.old) (ready_keys self.new) instance.now.tuple) }
        ensures more_ready { All (Contains (ready_keys self.new)) (ready_keys self.old) }
        ensures only { (value : Value) → Contains (ready_keys self.new) value → Contains (ready_keys self.old) value ⊎ HasKey (key self.old) instance.now.tuple value }
        ensures kept { OnErr result (ready_keys self.new ≡ ready_keys self.old) }
        ensures same_instances { instances self.new ≡ instances self.old }
        ensures same_condition { condition self.new ≡ condition self.old }
        ensures same_key { key self.new ≡ key self.old };

    /// Puts an instance where room was made for its key since the last purge. Takes no memory.
    fn link(&mut self, bead: Bead<Instance>)
        requires fits { BindingFits (key self.old) bead.tuple }
        requires is_ready { IsKeyReady (key self.old) (ready_keys self.old) bead.tuple }
        ensures linked { IsPermutation (instances self.new) (bead ∷ instances self.old) }
        ensures same_ready { ready_keys self.new ≡ ready_keys self.old }
        ensures same_condition { condition self.new ≡ condition self.old }
        ensures same_key { key self.new ≡ key self.old };

    /// Takes out the instances that no event after this time can match, as the bounds on DUR tell, and, where
    /// `since` is given, those that began no later. It forgets the keys that no instance has, and gives a
    /// deadline of the others, which is later than the next time. Takes no memory.
    fn purge(&mut self, now: u64, since: Option<u64>) -> u128
        ensures later { now + 1 < result }
        ensures until { AreAliveUntil result (condition self.old) (instances self.new) }
        ensures alive { instances self.new ≡ alive_instances (now + 1) (condition self.old) (began_after since (instances self.old)) }
        ensures ready { KeepsUsedKeys (key self.old) (instances self.new) (ready_keys self.old) (ready_keys self.new) }
        ensures same_condition { condition self.new ≡ condition self.old }
        ensures same_key { key self.new ≡ key self.old };

    /// The number of instances, or 2^64-1 where there are more. Takes no memory.
    fn count(&self) -> u64
        ensures { result ≡ min (length (instances self.now)) (2 ^ 64 - 1) };
}
