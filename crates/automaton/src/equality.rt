//! Equality of steps, waits and hops.
ghost use Rattle.std.specs.Prelude.{◌≡◌, ◌↔◌, IsTrue};

use crate::line::Hop;
use crate::step::{Stage, Step};
use crate::wait::{Turn, Wait};

impl Stage {
    /// Whether both are equal. Takes no memory.
    pub fn is_same(&self, other: &Stage) -> bool
        ensures { IsTrue result ↔ (self.now ≡ other.now) }
    {
        match (self, other) {
            (Stage::Keep(condition), Stage::Keep(other)) => condition.is_same(other),
            (Stage::Make(projection), Stage::Make(other)) => projection.is_same(other),
            _ => false,
        }
    }
}

impl Turn {
    /// Whether both are equal. Takes no memory.
    pub fn is_same(&self, other: &Turn) -> bool
        ensures { IsTrue result ↔ (self.now ≡ other.now) }
    {
        self.on.is_same(&other.on) && self.set.is_same(&other.set)
    }
}

impl Wait {
    /// Whether both are equal. Takes no memory.
    pub fn is_same(&self, other: &Wait) -> bool
        ensures { IsTrue result ↔ (self.now ≡ other.now) }
    {
        self.stream == other.stream
            && self.choose.is_same(&other.choose)
            && is_same_turn(&self.fold, &other.fold)
    }
}

impl Hop {
    /// Whether both are equal. Takes no memory.
    pub fn is_same(&self, other: &Hop) -> bool
        ensures { IsTrue result ↔ (self.now ≡ other.now) }
    {
        is_same_step(&self.step, &other.step) && self.wait.is_same(&other.wait)
    }
}

// Whether both are equal, or neither is there.
fn is_same_turn(turn: &Option<Turn>, other: &Option<Turn>) -> bool
    ensures { IsTrue result ↔ (turn.now ≡ other.now) }
{
    match (turn, other) {
        (Some(turn), Some(other)) => turn.is_same(other),
        (None, None) => true,
        _ => false,
    }
}

// Whether the stages are the same, one by one.
fn is_same_step(step: &Step, other: &Step) -> bool
    ensures { IsTrue result ↔ (step.now ≡ other.now) }
{
    if step.len() != other.len() {
        return false;
    }
    for place in 0..step.len() {
        if !step.get(place).is_same(other.get(place)) {
            return false;
        }
    }
    true
}
