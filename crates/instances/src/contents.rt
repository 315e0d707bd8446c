//! What a chain of instances holds: copies of all, and how many.
ghost use Rattle.std.specs.Prelude.{◌≡◌, ◌++◌, ◌^◌, ◌-◌, min, length, OnOk};

use crate::instance::{Instance, Instances};
use event_types::{Copied, Memory};
use inst_chain::Chain;
use std::alloc::Global;

/// Adds equal copies of a chain's instances to a list, in order.
pub fn add_copies(
    alloc: Global,
    copies: &mut Instances,
    chain: &Chain<Instance>,
) -> Result<(), Memory>
    ensures { OnOk result (copies.new ≡ copies.old ++ chain.now) }
{
    let mut look = chain.look();
    while let Some(instance) = look.next() {
        copies.add(instance.copied(alloc)?)?;
    }
    Ok(())
}

/// The number of a chain's instances, or 2^64-1 where there are more. Takes no memory.
pub fn count_of(chain: &Chain<Instance>) -> u64
    ensures { result ≡ min (length chain.now) (2 ^ 64 - 1) }
{
    let mut count = 0;
    let mut look = chain.look();
    while let Some(_instance) = look.next() {
        if count == u64::MAX {
            return count;
        }
        count += 1;
    }
    count
}
