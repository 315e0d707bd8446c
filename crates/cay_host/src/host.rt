//! The calls by which a run reads its files and writes its output.
ghost use Rattle.std.specs.Prelude.{◌≡◌, ◌<◌, None, Some, true, false, length, IfOk, OnOk, OnErr};
ghost use Rattle.cay_host.specs.declared.call.Call.TheVariants.{Attach, Read, Write};
ghost use Rattle.cay_host.specs.Told.{Told, IsBounded};
ghost use Rattle.cay_host.specs.Faults.{Rose};
ghost use Rattle.cay_host.specs.Attaching.{Attaches, AttachFails, SameButSides};
ghost use Rattle.cay_host.specs.Input.{Took, SameButRead};
ghost use Rattle.cay_host.specs.Output.{WroteSome, KeepsOutput, SameButOutput};

use crate::side::Side;

/// A call of the host failed.
#[derive(Clone, Copy, Debug, PartialEq, Eq, Drop)]
pub struct Failed;

/// Two files to read and one output to append to.
pub trait Host {
    /// What the host tells of itself.
    ghost told: { Self → Told };

    /// Attaches the file of that name to a side, which is then read from its first byte.
    fn attach(&mut self, side: Side, name: &str) -> Result<(), Failed>
        requires { (told self.old).attached side ≡ false }
        ensures ok { OnOk result (Attaches side name.now (told self.old) (told self.new)) }
        ensures quiet { OnOk result ((told self.new).attach_faults ≡ (told self.old).attach_faults) }
        ensures none_failed { OnOk result ((told self.new).failed ≡ None) }
        ensures failed { OnErr result (AttachFails name.now (told self.old) (told self.new)) }
        ensures last_failed { OnErr result ((told self.new).failed ≡ Some (Attach side)) }
        ensures same { SameButSides (told self.old) (told self.new) }
        ensures bounded { IsBounded (told self.new) };

    /// Reads the next bytes of a side to the front of the buffer: as many as the host likes, and
    /// none only at the end.
    fn read(&mut self, side: Side, buf: &mut [u8]) -> Result<usize, Failed>
        requires attached { (told self.old).attached side ≡ true }
        requires room { 0 < length buf.old }
        ensures took { let left = (told self.old).left side in
            IfOk result (λ n. Took n buf.new left ((told self.new).left side)) }
        ensures quiet { OnOk result ((told self.new).read_faults ≡ (told self.old).read_faults) }
        ensures none_failed { OnOk result ((told self.new).failed ≡ None) }
        ensures kept { OnErr result ((told self.new).left ≡ (told self.old).left) }
        ensures cause { OnErr result (Rose (told self.old).read_faults (told self.new).read_faults) }
        ensures last_failed { OnErr result ((told self.new).failed ≡ Some (Read side)) }
        ensures same { SameButRead side (told self.old) (told self.new) }
        ensures bounded { IsBounded (told self.new) };

    /// Appends the first bytes to the output: as many as the host likes, and at least one.
    fn write(&mut self, bytes: &[u8]) -> Result<usize, Failed>
        requires { 0 < length bytes.now }
        ensures wrote { IfOk result (λ n. WroteSome n bytes.now (told self.old) (told self.new)) }
        ensures quiet { OnOk result ((told self.new).write_faults ≡ (told self.old).write_faults) }
        ensures none_failed { OnOk result ((told self.new).failed ≡ None) }
        ensures kept { OnErr result (KeepsOutput (told self.old) (told self.new)) }
        ensures cause { OnErr result (Rose (told self.old).write_faults (told self.new).write_faults) }
        ensures last_failed { OnErr result ((told self.new).failed ≡ Some Write) }
        ensures same { SameButOutput (told self.old) (told self.new) }
        ensures bounded { IsBounded (told self.new) };
}
