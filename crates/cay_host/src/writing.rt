//! Writing all of some bytes.
ghost use Rattle.std.specs.Prelude.{◌≡◌, [], None, Some, OnOk, OnErr};
ghost use Rattle.cay_host.specs.declared.call.Call.TheVariants.{Write};
ghost use Rattle.cay_host.specs.Calls.{FailedLast};
ghost use Rattle.cay_host.specs.Faults.{Rose};
ghost use Rattle.cay_host.specs.Output.{Wrote, WrotePart, SameButOutput};
ghost use Rattle.cay_host.specs.Told.{IsBounded};

use crate::host::{Failed, Host};

/// Writes all the bytes, or a proper prefix of them where the host fails. Takes no memory.
pub fn write_whole<H: Host>(host: &mut H, bytes: &[u8]) -> Result<(), Failed>
    ensures ok { OnOk result (Wrote bytes.now (H.told host.old) (H.told host.new)) }
    ensures quiet { OnOk result ((H.told host.new).write_faults ≡ (H.told host.old).write_faults) }
    ensures none_failed { OnOk result (FailedLast None (H.told host.old) (H.told host.new)) }
    ensures part { OnErr result (WrotePart bytes.now (H.told host.old) (H.told host.new)) }
    ensures cause { OnErr result (Rose (H.told host.old).write_faults (H.told host.new).write_faults) }
    ensures last_failed { OnErr result (FailedLast (Some Write) (H.told host.old) (H.told host.new)) }
    ensures same { SameButOutput (H.told host.old) (H.told host.new) }
    ensures bounded { OnErr result (IsBounded (H.told host.new)) }
    ensures empty { bytes.now ≡ [] → host.new ≡ host.old }
{
    let mut at = 0;
    while at < bytes.len() {
        at += host.write(&bytes[at..])?;
    }
    Ok(())
}
