//! Hashes of how waiting states are entered.
ghost use Rattle.std.specs.Prelude.{◌≡◌};
ghost use Rattle.prefix_merge.specs.Buckets.{hash_of, with_stage, with_turn, with_wait};

use automaton::{Stage, Step, Turn, Wait};
use std::hash::{DefaultHasher, Hasher};

// The hash of a state that is entered from this one through a step, and waits so.
#[tactic(auto, unfolding(crate::specs::Buckets::hash_of))]
pub(crate) fn entrance_hash(before: usize, step: &Step, wait: &Wait) -> u64
    ensures { result ≡ hash_of before step.now wait.now }
{
    let mut hasher = DefaultHasher::new();
    hasher.write_usize(before);
    for stage in step.as_slice() {
        hash_stage(&mut hasher, stage);
    }
    hash_wait(&mut hasher, wait);
    hasher.finish()
}

// Goes on with a stage.
fn hash_stage(hasher: &mut DefaultHasher, stage: &Stage)
    ensures { hasher.new ≡ with_stage hasher.old stage.now }
{
    match stage {
        Stage::Keep(condition) => condition.add_to(hasher),
        Stage::Make(projection) => projection.add_to(hasher),
    }
}

// Goes on with a wait.
fn hash_wait(hasher: &mut DefaultHasher, wait: &Wait)
    ensures { hasher.new ≡ with_wait hasher.old wait.now }
{
    hasher.write_usize(wait.stream);
    wait.choose.add_to(hasher);
    hash_turn(hasher, &wait.fold);
}

// Goes on with a rebind edge, where there is one.
fn hash_turn(hasher: &mut DefaultHasher, turn: &Option<Turn>)
    ensures { hasher.new ≡ with_turn hasher.old turn.now }
{
    if let Some(turn) = turn {
        turn.on.add_to(hasher);
        turn.set.add_to(hasher);
    }
}
