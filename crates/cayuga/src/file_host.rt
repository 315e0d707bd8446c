//! A host over real files and standard output.
ghost use Rattle.std.specs.Prelude.{◌≡◌, ◌≤◌, ◌-◌, ◌^◌, None, false, true, is_some};
ghost use Rattle.std.specs.Io.{ReadsAtMost};

use cay_host::{Call, Failed, Host, Side};
use std::fs::{self, File};
use std::io::{self, Read, Write};

/// Files of the system for both sides, and standard output. Each write hands its whole slice to the
/// system. It tells its counts, its sides and its last call, where it failed, and no content.
#[derive(Drop)]
pub struct FileHost {
    rt: HostRuntime,
    queries: Option<File>,
    events: Option<File>,
    attach_faults: u64,
    read_faults: u64,
    write_faults: u64,
    failed: Option<Call>,
    ghost bounded: { (attach_faults ≤ 2 ^ 64 - 1) × (read_faults ≤ 2 ^ 64 - 1) × (write_faults ≤ 2 ^ 64 - 1) },
}

impl FileHost {
    /// A host with no file opened, and no fault counted.
    pub fn new(rt: HostRuntime) -> FileHost
        ensures queries { result.queries ≡ None }
        ensures events { result.events ≡ None }
    {
        FileHost {
            rt,
            queries: None,
            events: None,
            attach_faults: 0,
            read_faults: 0,
            write_faults: 0,
            failed: None,
        }
    }
}

impl Host for FileHost {
    ghost use Rattle.cay_host.specs.Sides.{of_side};

    ghost told = { λ host. record {
      attach_faults = host.attach_faults;
      read_faults = host.read_faults;
      write_faults = host.write_faults;
      failed = host.failed;
      attached = of_side (is_some host.queries) (is_some host.events);
      files = None;
      left = λ _. None;
      written = None;
      lines = None;
    } };

    fn attach(&mut self, side: Side, name: &str) -> Result<(), Failed> {
        match fs::open(&self.rt, name) {
            Ok(file) => {
                self.failed = None;
                match side {
                    Side::Queries => self.queries = Some(file),
                    Side::Events => self.events = Some(file),
                }
                Ok(())
            }
            Err(_) => {
                self.attach_faults = self.attach_faults.saturating_add(1);
                self.failed = Some(Call::Attach(side));
                Err(Failed)
            }
        }
    }

    fn read(&mut self, side: Side, buf: &mut [u8]) -> Result<usize, Failed> {
        let outcome = match side {
            Side::Queries => read_from(&mut self.queries, buf),
            Side::Events => read_from(&mut self.events, buf),
        };
        match outcome {
            Ok(n) => {
                self.failed = None;
                Ok(n)
            }
            Err(_) => {
                self.read_faults = self.read_faults.saturating_add(1);
                self.failed = Some(Call::Read(side));
                Err(Failed)
            }
        }
    }

    // A write that takes no byte of some is an error too.
    fn write(&mut self, bytes: &[u8]) -> Result<usize, Failed> {
        match self.rt.stdout().write(bytes) {
            Ok(n) if n > 0 => {
                self.failed = None;
                Ok(n)
            }
            _ => {
                self.write_faults = self.write_faults.saturating_add(1);
                self.failed = Some(Call::Write);
                Err(Failed)
            }
        }
    }
}

// Reads the next bytes of an attached side.
fn read_from(file: &mut Option<File>, buf: &mut [u8]) -> io::Result<usize>
    requires { is_some file.old ≡ true }
    ensures attached { is_some file.new ≡ true }
    ensures bound { ReadsAtMost result buf.new }
{
    match file {
        Some(file) => file.read(buf),
        None => unreachable!(),
    }
}
