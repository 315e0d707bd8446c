//! What stands behind the names in result lines.
ghost use Rattle.std.specs.Prelude.{◌≡◌, ◌++◌, ◌⊎◌, [], IfOk, OnOk};
ghost use Rattle.csv.specs.Writing.{fields_written, writer_setup, writer_under};
ghost use Rattle.result_text.specs.Tails.{tail_text};
ghost use Rattle.result_text.specs.Written.{IsBetween, any_width, bytes_of};
ghost use Rattle.semantics.specs.Report.{quoted};

use crate::fields::{add_time, add_value, end, start, start_time};
use crate::quick::write_quickly;
use csv::{Writer, WriterBuilder};
use event_types::{Memory, Tuple};
use std::alloc::Global;
use std::marker::Model;

/// The tails of result lines, one behind another, as a `csv` writer writes them: the start, the detection and
/// the values of a tuple, and an LF.
#[derive(Drop)]
pub struct Tails {
    alloc: Global,
    bytes: Vec<u8>,
    // Where a tail is written quickly.
    room: [u8; ROOM],
    // What writes the other tails, and keeps them too.
    writer: Writer<Vec<u8>>,
}

impl Model for Tails {
    ghost use Rattle.std.specs.Prelude.{List, ℕ};
    ghost use Rattle.result_text.specs.Written.{IsBetween};

    ghost Value = { List ℕ };

    ghost view = { λ t. t.bytes.items };

    ghost invariant = { λ t. IsBetween t.writer };
}

// So many bytes of tails are kept until they are taken away.
const FULL: usize = 65536;

// So many bytes has the room in which a tail is written quickly.
const ROOM: usize = 1024;

impl Tails {
    /// No tails. Takes no memory.
    pub fn new(alloc: Global) -> Tails
        ensures { result ≡ [] }
    {
        Tails {
            alloc,
            bytes: Vec::new(alloc),
            room: [0; ROOM],
            writer: writer_over(Vec::new(alloc)),
        }
    }

    /// The bytes of the tails.
    pub fn as_slice(&self) -> &[u8]
        ensures { result.now ≡ self.now }
    {
        self.bytes.as_slice()
    }

    /// Puts the tail of a tuple's line behind the others. Out of line, since the writing of each field stands in line here.
    #[inline(never)]
    pub(crate) fn put(&mut self, tuple: &Tuple) -> Result<(), Memory>
        ensures { OnOk result (self.new ≡ self.old ++ tail_text tuple.now) }
    {
        match write_quickly(&mut self.room, tuple) {
            Some(start) => {
                self.bytes
                    .extend_from_slice(&self.room.as_slice()[start..])?;
                Ok(())
            }
            None => self.put_slowly(tuple),
        }
    }

    // Puts the tail of a tuple's line behind the others, as the writer writes it. Out of line, since few tails go this way.
    #[inline(never)]
    fn put_slowly(&mut self, tuple: &Tuple) -> Result<(), Memory>
        ensures { OnOk result (self.new ≡ self.old ++ tail_text tuple.now) }
    {
        let begin = self.writer.get_ref().len();
        match write_tail(self.alloc, &mut self.writer, tuple) {
            Ok(()) => {
                self.bytes
                    .extend_from_slice(&self.writer.get_ref().as_slice()[begin..])?;
                Ok(())
            }
            Err(_) => {
                renew(&mut self.writer, self.alloc);
                Err(Memory)
            }
        }
    }

    /// Takes the tails away once they are many, and keeps their room. Takes no memory.
    pub fn clear_if_full(&mut self)
        ensures { (self.new ≡ self.old) ⊎ (self.new ≡ []) }
    {
        if FULL <= self.as_slice().len() {
            self.clear();
        }
    }

    // Takes the tails away, and keeps their room.
    fn clear(&mut self)
        ensures { self.new ≡ [] }
    {
        self.bytes.clear();
        if !self.writer.get_ref().is_empty() {
            renew(&mut self.writer, self.alloc);
        }
    }
}

/// A text as a field. Out of line, since a writer holds a long buffer.
#[inline(never)]
pub(crate) fn quote(alloc: Global, text: &[u8]) -> Result<Vec<u8>, Memory>
    ensures { IfOk result (λ field. field.items ≡ quoted text.now) }
{
    let mut writer = writer_over(Vec::new(alloc));
    start(&mut writer, text)?;
    match writer.into_inner() {
        Ok(field) => Ok(field),
        Err(_) => Err(Memory),
    }
}

// Puts a writer that has written nothing in the place of another. Out of line, since a writer holds a long buffer.
#[inline(never)]
fn renew(writer: &mut Writer<Vec<u8>>, alloc: Global)
    ensures { IsBetween writer.new }
{
    *writer = writer_over(Vec::new(alloc));
}

// A writer of lines of any width behind the bytes.
fn writer_over(bytes: Vec<u8>) -> Writer<Vec<u8>>
    ensures between { IsBetween result }
    ensures bytes { writer_under result ≡ bytes }
{
    WriterBuilder::new().flexible(true).from_writer(bytes)
}

// Writes the tail of a tuple's line, and lets no byte wait.
fn write_tail(alloc: Global, writer: &mut Writer<Vec<u8>>, tuple: &Tuple) -> Result<(), Memory>
    requires { IsBetween writer.old }
    ensures bytes { OnOk result ((writer_under writer.new).items ≡ (writer_under writer.old).items ++ tail_text tuple.now) }
    ensures between { OnOk result (IsBetween writer.new) }
{
    write_fields(alloc, writer, tuple)?;
    match writer.flush() {
        Ok(()) => Ok(()),
        Err(_) => Err(Memory),
    }
}

// Writes the tail of a tuple's line.
fn write_fields(alloc: Global, writer: &mut Writer<Vec<u8>>, tuple: &Tuple) -> Result<(), Memory>
    requires setup { writer_setup writer.old ≡ any_width }
    requires between { fields_written writer.old ≡ 0 }
    ensures bytes { OnOk result (bytes_of writer.new ≡ bytes_of writer.old ++ tail_text tuple.now) }
    ensures setup { OnOk result (writer_setup writer.new ≡ any_width) }
    ensures between { OnOk result (fields_written writer.new ≡ 0) }
{
    start_time(writer, tuple.from())?;
    add_time(writer, tuple.at())?;
    for value in tuple.vals().as_slice() {
        add_value(alloc, writer, value)?;
    }
    end(writer)
}
