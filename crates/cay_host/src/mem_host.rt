//! A host in memory, which tells all its content.
ghost use Rattle.std.specs.Prelude.{◌≡◌, ◌<◌, ◌≤◌, ◌-◌, ◌^◌, ◌++◌, ◌∷◌, [], ◌&&◌, not, nat_lt, length, None, Some, false, true, IfOk, OnOk, OnErr, is_ok, is_err, vec_capacity};

use crate::call::Call;
use crate::files::{self, File, Place};
use crate::host::{Failed, Host};
use crate::side::Side;
use std::alloc::{AllocError, Global};

/// A host whose files, room, pieces and failing calls are set by its caller.
#[derive(Drop)]
pub struct MemHost {
    alloc: Global,
    files: Vec<File>,
    queries: Option<Place>,
    events: Option<Place>,
    written: Vec<u8>,
    room: usize,
    read_piece: usize,
    write_piece: usize,
    failing: Vec<u64>,
    calls: u64,
    attach_faults: u64,
    read_faults: u64,
    write_faults: u64,
    failed: Option<Call>,
    ghost pieces: { (0 < read_piece) × (0 < write_piece) },
    ghost reserved: { room ≤ vec_capacity written },
    ghost bounded: { (attach_faults ≤ 2 ^ 64 - 1) × (read_faults ≤ 2 ^ 64 - 1) × (write_faults ≤ 2 ^ 64 - 1) },
}

#[tactic(auto, unfolding(crate::specs::MemHost::mem_told, crate::specs::MemHost::mem_setting))]
impl MemHost {
    ghost use Rattle.cay_host.specs.Told.{IsFree};
    ghost use Rattle.cay_host.specs.Files.{put_file};
    ghost use Rattle.cay_host.specs.Faults.{raised};
    ghost use Rattle.cay_host.specs.MemHost.{mem_told, mem_setting, blank_told, blank_setting, is_listed};
    ghost use Rattle.std.specs.Option.{option_map};

    /// Takes the memory for `room` written bytes at once.
    pub fn make(alloc: Global, room: usize) -> Result<MemHost, AllocError>
        ensures told { IfOk result (λ host. mem_told host ≡ blank_told) }
        ensures setting { IfOk result (λ host. mem_setting host ≡ blank_setting room) }
    {
        Ok(MemHost {
            alloc,
            files: Vec::new(alloc),
            queries: None,
            events: None,
            written: Vec::with_capacity(alloc, room)?,
            room,
            read_piece: usize::MAX,
            write_piece: usize::MAX,
            failing: Vec::new(alloc),
            calls: 0,
            attach_faults: 0,
            read_faults: 0,
            write_faults: 0,
            failed: None,
        })
    }

    /// Adds or replaces a file.
    pub fn put(&mut self, name: &str, bytes: &[u8]) -> Result<(), AllocError>
        requires { IsFree (mem_told self.old) }
        ensures ok { let files = option_map (put_file name.now bytes.now) (mem_told self.old).files in
            OnOk result (mem_told self.new ≡ record (mem_told self.old) { files = files }) }
        ensures err { OnErr result (mem_told self.new ≡ mem_told self.old) }
        ensures setting { mem_setting self.new ≡ mem_setting self.old }
    {
        let file = File {
            name: name.as_bytes().to_vec(self.alloc)?,
            bytes: bytes.to_vec(self.alloc)?,
        };
        self.files.insert(0, file)?;
        Ok(())
    }

    /// Makes the call of that number fail. Calls are counted from 1.
    pub fn fail(&mut self, call: u64) -> Result<(), AllocError>
        ensures ok { let failing = (mem_setting self.old).failing ++ call ∷ [] in
            OnOk result (mem_setting self.new ≡ record (mem_setting self.old) { failing = failing }) }
        ensures err { OnErr result (mem_setting self.new ≡ mem_setting self.old) }
        ensures told { mem_told self.new ≡ mem_told self.old }
    {
        self.failing.push(call)?;
        Ok(())
    }

    /// Sets the greatest piece of a read and of a write, in bytes. Takes no memory.
    pub fn pieces(&mut self, read: usize, write: usize)
        requires read { 0 < read }
        requires write { 0 < write }
        ensures setting { mem_setting self.new ≡ record (mem_setting self.old) { read_piece = read; write_piece = write } }
        ensures told { mem_told self.new ≡ mem_told self.old }
    {
        self.read_piece = read;
        self.write_piece = write;
    }

    /// Takes no memory.
    pub fn written(&self) -> &[u8]
        ensures { (mem_told self.now).written ≡ Some result.now }
    {
        &self.written
    }

    // Counts a call, which hasn't failed yet, and says whether it is one that is to fail.
    fn count_call(&mut self) -> bool
        ensures listed { result ≡ is_listed (mem_setting self.old) }
        ensures counted { self.new ≡ record self.old { calls = raised self.old.calls; failed = None } }
    {
        self.calls = self.calls.saturating_add(1);
        self.failed = None;
        self.failing.contains(&self.calls)
    }
}

#[tactic(auto, unfolding(crate::specs::MemHost::mem_told, crate::specs::MemHost::mem_setting))]
impl Host for MemHost {
    ghost use Rattle.cay_host.specs.declared.call.Call.TheVariants.{Attach, Read, Write};
    ghost use Rattle.cay_host.specs.Attaching.{Attaches, AttachFails, SameButSides};
    ghost use Rattle.cay_host.specs.Faults.{Rose};
    ghost use Rattle.cay_host.specs.Files.{lacks};
    ghost use Rattle.cay_host.specs.Input.{Took, SameButRead};
    ghost use Rattle.cay_host.specs.MemHost.{mem_told, mem_setting, is_listed, after_call, raised_if, room_left, read_size, write_size};
    ghost use Rattle.cay_host.specs.Output.{WroteSome, KeepsOutput, SameButOutput};
    ghost use Rattle.cay_host.specs.Told.{IsBounded};
    ghost use Rattle.std.specs.Option.{option_map};

    ghost told = { mem_told };

    /// Succeeds exactly where the call isn't listed and the name is there.
    fn attach(&mut self, side: Side, name: &str) -> Result<(), Failed>
        requires { (mem_told self.old).attached side ≡ false }
        ensures ok { OnOk result (Attaches side name.now (mem_told self.old) (mem_told self.new)) }
        ensures quiet { OnOk result ((mem_told self.new).attach_faults ≡ (mem_told self.old).attach_faults) }
        ensures none_failed { OnOk result ((mem_told self.new).failed ≡ None) }
        ensures failed { OnErr result (AttachFails name.now (mem_told self.old) (mem_told self.new)) }
        ensures last_failed { OnErr result ((mem_told self.new).failed ≡ Some (Attach side)) }
        ensures same { SameButSides (mem_told self.old) (mem_told self.new) }
        ensures bounded { IsBounded (mem_told self.new) }
        ensures succeeds { let is_there = not (lacks name.now (mem_told self.old).files) in
            is_ok result ≡ (not (is_listed (mem_setting self.old)) && is_there) }
        ensures raised { let rises = is_err result && not (lacks name.now (mem_told self.old).files) in
            (mem_told self.new).attach_faults ≡ raised_if rises (mem_told self.old).attach_faults }
        ensures counted { mem_setting self.new ≡ after_call (mem_setting self.old) }
    {
        let is_listed = self.count_call();
        match files::find(&self.files, name.as_bytes()) {
            None => {
                self.failed = Some(Call::Attach(side));
                Err(Failed)
            }
            Some(file) => {
                if is_listed {
                    self.failed = Some(Call::Attach(side));
                    self.attach_faults = self.attach_faults.saturating_add(1);
                    return Err(Failed);
                }
                let place = Some(Place { file, at: 0 });
                match side {
                    Side::Queries => self.queries = place,
                    Side::Events => self.events = place,
                }
                Ok(())
            }
        }
    }

    /// Succeeds exactly where the call isn't listed.
    fn read(&mut self, side: Side, buf: &mut [u8]) -> Result<usize, Failed>
        requires attached { (mem_told self.old).attached side ≡ true }
        requires room { 0 < length buf.old }
        ensures took { let left = (mem_told self.old).left side in
            IfOk result (λ n. Took n buf.new left ((mem_told self.new).left side)) }
        ensures quiet { OnOk result ((mem_told self.new).read_faults ≡ (mem_told self.old).read_faults) }
        ensures none_failed { OnOk result ((mem_told self.new).failed ≡ None) }
        ensures kept { OnErr result ((mem_told self.new).left ≡ (mem_told self.old).left) }
        ensures cause { OnErr result (Rose (mem_told self.old).read_faults (mem_told self.new).read_faults) }
        ensures last_failed { OnErr result ((mem_told self.new).failed ≡ Some (Read side)) }
        ensures same { SameButRead side (mem_told self.old) (mem_told self.new) }
        ensures bounded { IsBounded (mem_told self.new) }
        ensures succeeds { is_ok result ≡ not (is_listed (mem_setting self.old)) }
        ensures size { let size = read_size (mem_setting self.old) (length buf.old) in
            IfOk result (λ n. Some n ≡ option_map size ((mem_told self.old).left side)) }
        ensures raised { (mem_told self.new).read_faults ≡ raised_if (is_err result) (mem_told self.old).read_faults }
        ensures counted { mem_setting self.new ≡ after_call (mem_setting self.old) }
    {
        if self.count_call() {
            self.read_faults = self.read_faults.saturating_add(1);
            self.failed = Some(Call::Read(side));
            return Err(Failed);
        }
        let piece = self.read_piece;
        match side {
            Side::Queries => match &mut self.queries {
                Some(place) => Ok(files::read_at(&self.files, place, piece, buf)),
                None => unreachable!(),
            },
            Side::Events => match &mut self.events {
                Some(place) => Ok(files::read_at(&self.files, place, piece, buf)),
                None => unreachable!(),
            },
        }
    }

    /// Succeeds exactly where the call isn't listed and there is room for a byte.
    fn write(&mut self, bytes: &[u8]) -> Result<usize, Failed>
        requires { 0 < length bytes.now }
        ensures wrote { IfOk result (λ n. WroteSome n bytes.now (mem_told self.old) (mem_told self.new)) }
        ensures quiet { OnOk result ((mem_told self.new).write_faults ≡ (mem_told self.old).write_faults) }
        ensures none_failed { OnOk result ((mem_told self.new).failed ≡ None) }
        ensures kept { OnErr result (KeepsOutput (mem_told self.old) (mem_told self.new)) }
        ensures cause { OnErr result (Rose (mem_told self.old).write_faults (mem_told self.new).write_faults) }
        ensures last_failed { OnErr result ((mem_told self.new).failed ≡ Some Write) }
        ensures same { SameButOutput (mem_told self.old) (mem_told self.new) }
        ensures bounded { IsBounded (mem_told self.new) }
        ensures succeeds { let has_room = nat_lt 0 (room_left (mem_setting self.old) (mem_told self.old)) in
            is_ok result ≡ (not (is_listed (mem_setting self.old)) && has_room) }
        ensures size { let size = write_size (mem_setting self.old) (mem_told self.old) (length bytes.now) in
            IfOk result (λ n. n ≡ size) }
        ensures raised { (mem_told self.new).write_faults ≡ raised_if (is_err result) (mem_told self.old).write_faults }
        ensures counted { mem_setting self.new ≡ after_call (mem_setting self.old) }
    {
        let is_listed = self.count_call();
        let room = self.room.saturating_sub(self.written.len());
        if is_listed || room == 0 {
            self.write_faults = self.write_faults.saturating_add(1);
            self.failed = Some(Call::Write);
            return Err(Failed);
        }
        let n = self.write_piece.min(room).min(bytes.len());
        match self.written.extend_from_slice(&bytes[..n]) {
            Ok(()) => Ok(n),
            Err(_) => unreachable!(),
        }
    }
}
