//! Instances that began after a birth.
ghost use Rattle.std.specs.Prelude.{◌≡◌, Some};
ghost use Rattle.instances.specs.Births.{began_after};

use crate::instance::Instance;
use inst_chain::Chain;

/// Takes the instances that began no later than a birth out of a chain. Takes no memory.
pub fn keep_after(chain: &mut Chain<Instance>, birth: u64)
    ensures { chain.new ≡ began_after (Some birth) chain.old }
{
    let mut walk = chain.walk();
    while let Some(instance) = walk.get() {
        if birth < instance.first {
            walk.step();
        } else {
            let _ = walk.unlink();
        }
    }
}
