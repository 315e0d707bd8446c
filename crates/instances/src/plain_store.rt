//! A store without a key.
ghost use Rattle.std.specs.Prelude.{◌≡◌, ◌+◌, ◌≤◌, [], All, None, IfOk};
ghost use Rattle.instances.specs.Births.{began_after};
ghost use Rattle.instances.specs.Bounds.{alive_instances};

use crate::births::keep_after;
use crate::bounds::{earliest_alive, keep_alive};
use crate::contents::{add_copies, count_of};
use crate::eligibility::take_eligible;
use crate::expiry::purged_until;
use crate::instance::{Instance, Instances};
use crate::spent::SpentBeads;
use crate::waiting::Waiting;
use event_types::{List, Memory, Tuple};
use inst_chain::{Bead, Chain, Look};
use scalar_expr::Conj;
use std::alloc::Global;
use std::marker::Model;
use steps::{Ledger, Steps};

/// A store that looks at each of its instances.
///
/// It keeps a time before which no instance starts. A purge walks it only where an instance of that start
/// would have expired.
#[derive(Drop)]
pub struct PlainStore {
    chain: Chain<Instance>,
    condition: Conj,
    // no instance starts before this time
    oldest: u64,
}

impl Model for PlainStore {
    ghost use Rattle.instances.specs.Plain.{Plain};
    ghost use Rattle.instances.specs.PlainCode.{plain_code};

    ghost Value = { Plain };

    ghost coded = { plain_code };

    ghost use Rattle.std.specs.Prelude.{◌≤◌, All};

    ghost view = { λ s. record { condition = s.condition; instances = s.chain } };

    ghost invariant = { λ s. All (λ instance. s.oldest ≤ instance.tuple.from) s.chain };
}

impl PlainStore {
    /// A store for the condition, with no instance.
    pub fn make(alloc: Global, choose: &Conj) -> Result<PlainStore, Memory>
        ensures { IfOk result (λ store. store ≡ record { condition = choose.now; instances = [] }) }
    {
        let condition = choose.copy(alloc)?;
        Ok(PlainStore {
            chain: Chain::new(),
            condition,
            oldest: u64::MAX,
        })
    }

    // Takes out the instances that began no later than `since`, where it is given.
    fn cut(&mut self, since: Option<u64>)
        ensures began { self.new.instances ≡ began_after since self.old.instances }
        ensures same_condition { self.new.condition ≡ self.old.condition }
    {
        if let Some(since) = since {
            keep_after(&mut self.chain, since);
        }
    }

    // Takes out the instances that no event after `now` can match. It gives a time before which none of the
    // others starts.
    fn expire(&mut self, now: u64) -> u64
        ensures alive { self.new.instances ≡ alive_instances (now + 1) self.old.condition self.old.instances }
        ensures oldest { All (λ instance. result ≤ instance.tuple.from) self.new.instances }
        ensures same_condition { self.new.condition ≡ self.old.condition }
    {
        if (self.oldest as u128) < earliest_alive(&self.condition, now) {
            self.oldest = keep_alive(&mut self.chain, &self.condition, now);
            return self.oldest;
        }
        self.oldest
    }
}

impl Waiting for PlainStore {
    ghost condition = { λ store. store.condition };

    ghost key = { λ store. None };

    ghost instances = { λ store. store.instances };

    ghost ready_keys = { λ store. [] };

    fn candidates(&self, _event: &Tuple) -> Look<'_, Instance> {
        self.chain.look()
    }

    fn take<L: Ledger>(
        &mut self,
        event: &Tuple,
        choose: &Conj,
        steps: &mut Steps<L>,
        spent: &mut SpentBeads,
    ) {
        take_eligible(&mut self.chain, event, choose, None, steps, spent);
    }

    fn all(&self, alloc: Global) -> Result<Instances, Memory> {
        let mut copies = List::new(alloc);
        add_copies(alloc, &mut copies, &self.chain)?;
        Ok(copies)
    }

    fn ready(&mut self, _instance: &Instance) -> Result<(), Memory> {
        Ok(())
    }

    /// Puts the instance in front, at once however many there are.
    fn link(&mut self, bead: Bead<Instance>) {
        let mut chain = Chain::new();
        chain.link(bead);
        if let Some(instance) = chain.look().next() {
            self.oldest = self.oldest.min(instance.tuple.from());
        }
        chain.append(&mut self.chain);
        std::mem::swap(&mut self.chain, &mut chain);
    }

    fn purge(&mut self, now: u64, since: Option<u64>) -> u128 {
        self.cut(since);
        let oldest = self.expire(now);
        purged_until(&self.condition, oldest, now)
    }

    fn count(&self) -> u64 {
        count_of(&self.chain)
    }
}
