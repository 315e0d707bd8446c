//! The instances that have one key.
ghost use Rattle.std.specs.Prelude.{◌≡◌, ◌+◌, ◌-◌, ◌^◌, ◌≤◌, ◌++◌, [], IsTrue, OnOk, Some, min, length, not, filter, All};
ghost use Rattle.semantics.specs.Nexts.{is_eligible};
ghost use Rattle.scalar_expr.specs.Fits.{AllFit};
ghost use Rattle.instances.specs.Births.{began_after};
ghost use Rattle.instances.specs.Bounds.{alive_instances};
ghost use Rattle.instances.specs.Keys.{key_matches, key_of_places};
ghost use Rattle.binding_index.specs.Entries.{has_any};

use event_types::{Memory, Tuple};
use inst_chain::{Chain, Look};
use instances::{
    Instance, Instances, SpentBeads, add_copies, count_of, keep_after, keep_alive, take_eligible,
};
use scalar_expr::{Conj, KeyPlaces};
use std::alloc::Global;
use std::marker::Model;
use steps::{Ledger, Steps};

/// The instances that have one key, the last one that came first.
#[derive(Drop)]
pub(crate) struct Bucket {
    chain: Chain<Instance>,
}

impl Model for Bucket {
    ghost use Rattle.std.specs.Prelude.{List};
    ghost use Rattle.instances.specs.declared.instance.Instance.{Instance};

    ghost Value = { List Instance };

    ghost view = { λ b. b.chain };
}

impl Bucket {
    pub(crate) fn new() -> Bucket
        ensures { result ≡ [] }
    {
        Bucket {
            chain: Chain::new(),
        }
    }

    pub(crate) fn look(&self) -> Look<'_, Instance>
        ensures { result ≡ self.now }
    {
        self.chain.look()
    }

    pub(crate) fn has_some(&self) -> bool
        ensures { result ≡ has_any self.now }
    {
        self.chain.look().next().is_some()
    }

    /// The number of instances, or 2^64-1 where there are more.
    pub(crate) fn count(&self) -> u64
        ensures { result ≡ min (length self.now) (2 ^ 64 - 1) }
    {
        count_of(&self.chain)
    }

    pub(crate) fn add_copies(&self, alloc: Global, copies: &mut Instances) -> Result<(), Memory>
        ensures { OnOk result (copies.new ≡ copies.old ++ self.now) }
    {
        add_copies(alloc, copies, &self.chain)
    }

    /// Takes out the instances for which the event is eligible, as it found them by this key, and keeps their beads among
    /// the spent ones.
    pub(crate) fn take<L: Ledger>(
        &mut self,
        event: &Tuple,
        choose: &Conj,
        key: KeyPlaces,
        steps: &mut Steps<L>,
        spent: &mut SpentBeads,
    )
        requires fits { All (λ instance. AllFit choose.now event.now (Some instance.tuple)) self.old }
        requires found { All (λ instance. IsTrue (key_matches (key_of_places (Some key)) event.now instance.tuple)) self.old }
        ensures others { self.new ≡ filter (λ instance. not (is_eligible choose.now instance.tuple event.now)) self.old }
        ensures ticks { steps.new ≤ steps.old + length self.old }
    {
        take_eligible(&mut self.chain, event, choose, Some(key), steps, spent);
    }

    /// Puts the beads of a chain before the others, at once.
    pub(crate) fn put(&mut self, chain: &mut Chain<Instance>)
        ensures { self.new ≡ chain.old ++ self.old }
    {
        chain.append(&mut self.chain);
        std::mem::swap(&mut self.chain, chain);
    }

    /// Takes out the instances that began no later than a birth.
    pub(crate) fn keep_after(&mut self, birth: u64)
        ensures { self.new ≡ began_after (Some birth) self.old }
    {
        keep_after(&mut self.chain, birth);
    }

    /// Takes out the instances that no event after `now` can match, as the bounds on DUR tell. It gives a time
    /// before which none of the others starts.
    pub(crate) fn keep_alive(&mut self, condition: &Conj, now: u64) -> u64
        ensures alive { self.new ≡ alive_instances (now + 1) condition.now self.old }
        ensures oldest { All (λ instance. result ≤ instance.tuple.from) self.new }
    {
        keep_alive(&mut self.chain, condition, now)
    }
}
