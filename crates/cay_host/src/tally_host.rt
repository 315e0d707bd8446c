//! A host that counts the lines written to it, and keeps no bytes.
ghost use Rattle.std.specs.Prelude.{◌≡◌, ◌<◌, ◌≤◌, ◌-◌, ◌^◌, None, Some, false, true, length, IfOk, OnOk, OnErr, is_ok, is_err};
ghost use Rattle.cay_host.specs.Output.{count_lf};

use crate::call::Call;
use crate::host::{Failed, Host};
use crate::side::Side;
use memchr::memchr_iter;

/// A host with no file, whose output is counted: the LF bytes written to it. It takes no memory.
#[derive(Drop)]
pub struct TallyHost {
    lines: u64,
    attach_faults: u64,
    read_faults: u64,
    failed: Option<Call>,
    ghost bounded: { (attach_faults ≤ 2 ^ 64 - 1) × (read_faults ≤ 2 ^ 64 - 1) },
}

#[tactic(auto, unfolding(crate::specs::TallyHost::tally_told))]
impl TallyHost {
    ghost use Rattle.cay_host.specs.TallyHost.{tally_told, silent_told};

    /// A host to which no line was written. Takes no memory.
    pub fn new() -> TallyHost
        ensures { tally_told result ≡ silent_told }
    {
        TallyHost {
            lines: 0,
            attach_faults: 0,
            read_faults: 0,
            failed: None,
        }
    }

    /// The number of LF bytes written, or 2^64-1 where there are more. Takes no memory.
    pub fn lines(&self) -> u64
        ensures { (tally_told self.now).lines ≡ Some result }
    {
        self.lines
    }
}

#[tactic(auto, unfolding(crate::specs::TallyHost::tally_told))]
impl Host for TallyHost {
    ghost use Rattle.cay_host.specs.declared.call.Call.TheVariants.{Attach, Read};
    ghost use Rattle.cay_host.specs.Attaching.{Attaches, AttachFails, SameButSides};
    ghost use Rattle.cay_host.specs.Faults.{Rose, raised};
    ghost use Rattle.cay_host.specs.Input.{Took, SameButRead};
    ghost use Rattle.cay_host.specs.Output.{WroteSome, KeepsOutput, SameButOutput};
    ghost use Rattle.cay_host.specs.TallyHost.{tally_told};
    ghost use Rattle.cay_host.specs.Told.{IsBounded};

    ghost told = { tally_told };

    /// Fails always.
    fn attach(&mut self, side: Side, name: &str) -> Result<(), Failed>
        ensures failed { OnErr result (AttachFails name.now (tally_told self.old) (tally_told self.new)) }
        ensures last_failed { OnErr result ((tally_told self.new).failed ≡ Some (Attach side)) }
        ensures same { SameButSides (tally_told self.old) (tally_told self.new) }
        ensures bounded { IsBounded (tally_told self.new) }
        ensures fails { is_err result ≡ true }
        ensures raised { (tally_told self.new).attach_faults ≡ raised (tally_told self.old).attach_faults }
    {
        self.attach_faults = self.attach_faults.saturating_add(1);
        self.failed = Some(Call::Attach(side));
        Err(Failed)
    }

    /// Fails always.
    fn read(&mut self, side: Side, _buf: &mut [u8]) -> Result<usize, Failed>
        ensures kept { OnErr result ((tally_told self.new).left ≡ (tally_told self.old).left) }
        ensures cause { OnErr result (Rose (tally_told self.old).read_faults (tally_told self.new).read_faults) }
        ensures last_failed { OnErr result ((tally_told self.new).failed ≡ Some (Read side)) }
        ensures same { SameButRead side (tally_told self.old) (tally_told self.new) }
        ensures bounded { IsBounded (tally_told self.new) }
        ensures fails { is_err result ≡ true }
        ensures raised { (tally_told self.new).read_faults ≡ raised (tally_told self.old).read_faults }
    {
        self.read_faults = self.read_faults.saturating_add(1);
        self.failed = Some(Call::Read(side));
        Err(Failed)
    }

    /// Takes all the bytes.
    fn write(&mut self, bytes: &[u8]) -> Result<usize, Failed>
        requires { 0 < length bytes.now }
        ensures wrote { IfOk result (λ n. WroteSome n bytes.now (tally_told self.old) (tally_told self.new)) }
        ensures quiet { OnOk result ((tally_told self.new).write_faults ≡ (tally_told self.old).write_faults) }
        ensures none_failed { OnOk result ((tally_told self.new).failed ≡ None) }
        ensures same { SameButOutput (tally_told self.old) (tally_told self.new) }
        ensures bounded { IsBounded (tally_told self.new) }
        ensures whole { IfOk result (λ n. n ≡ length bytes.now) }
        ensures succeeds { is_ok result ≡ true }
    {
        let lines = line_feeds(bytes) as u64;
        self.lines = self.lines.saturating_add(lines);
        self.failed = None;
        Ok(bytes.len())
    }
}

// The number of LF bytes.
fn line_feeds(bytes: &[u8]) -> usize
    ensures { result ≡ count_lf bytes.now }
{
    let mut lines = 0;
    for _ in memchr_iter(b'\n', bytes) {
        lines += 1;
    }
    lines
}
