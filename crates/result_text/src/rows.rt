//! The lines of a query's results.
ghost use Rattle.std.specs.Prelude.{◌≡◌, ◌<◌, ◌++◌, [], ℕ, List, length, slice_get, IfOk, OnErr, OnOk, Some};
ghost use Rattle.event_types.specs.Tuple.{TupleView};
ghost use Rattle.result_text.specs.Front.{front_of};
ghost use Rattle.result_text.specs.Tails.{AreIn, tail_text};
ghost use Rattle.semantics.specs.Report.{line};

use crate::front::Front;
use crate::lately::{Lately, tail_of};
use crate::tails::Tails;
use event_types::{Memory, Text, Tuple};
use std::alloc::Global;
use std::marker::Model;
use std::{slice, str};

/// Result lines, one behind another.
#[derive(Drop)]
pub struct Rows {
    bytes: Vec<u8>,
}

impl Model for Rows {
    ghost use Rattle.std.specs.Prelude.{List, ℕ};

    ghost Value = { List ℕ };

    ghost view = { λ r. r.bytes.items };
}

impl Rows {
    /// No lines. Takes no memory.
    pub fn new(alloc: Global) -> Rows
        ensures { result ≡ [] }
    {
        Rows {
            bytes: Vec::new(alloc),
        }
    }

    /// The bytes of the lines.
    pub fn as_slice(&self) -> &[u8]
        ensures { result.now ≡ self.now }
    {
        self.bytes.as_slice()
    }

    /// Puts the line of the result at a place behind the lines that are there, under the name that `front` is made of.
    /// What stands behind the name is written once for results at one place, where each comes next or next but one.
    /// Want of memory drops all lines.
    #[inline(always)]
    pub fn append(
        &mut self,
        front: &Front,
        tuples: &[Tuple],
        place: usize,
        tails: &mut Tails,
        lately: &mut Lately,
    ) -> Result<(), Memory>
        requires in_range { place < length tuples.now }
        requires lately { AreIn tails.old tuples.now lately.old }
        ensures appended { OnOk result ((name : List ℕ) (tuple : TupleView) → front.now ≡ front_of name → slice_get tuples.now place ≡ Some tuple → self.new ≡ self.old ++ line name tuple) }
        ensures lately { OnOk result (AreIn tails.new tuples.now lately.new) }
        ensures emptied { OnErr result (self.new ≡ []) }
    {
        match self.put(front.as_slice(), tuples, place, tails, lately) {
            Ok(()) => Ok(()),
            Err(_) => {
                self.clear();
                Err(Memory)
            }
        }
    }

    // Puts the line of the result at a place behind a front.
    #[inline(always)]
    fn put(
        &mut self,
        front: &[u8],
        tuples: &[Tuple],
        place: usize,
        tails: &mut Tails,
        lately: &mut Lately,
    ) -> Result<(), Memory>
        requires in_range { place < length tuples.now }
        requires lately { AreIn tails.old tuples.now lately.old }
        ensures appended { OnOk result ((tuple : TupleView) → slice_get tuples.now place ≡ Some tuple → self.new ≡ self.old ++ (front.now ++ tail_text tuple)) }
        ensures lately { OnOk result (AreIn tails.new tuples.now lately.new) }
    {
        let (begin, end) = tail_of(tuples, place, tails, lately)?;
        self.bytes.extend_from_slice(front)?;
        self.bytes.extend_from_slice(&tails.as_slice()[begin..end])?;
        Ok(())
    }

    /// Takes the lines away, and keeps their room. Takes no memory.
    pub fn clear(&mut self)
        ensures { self.new ≡ [] }
    {
        self.bytes.clear();
    }
}

/// The line of one result of the query `name`, with its LF: `Q,10,10,IBM,101,5`.
pub fn row(alloc: Global, name: &str, tuple: &Tuple) -> Result<Text, Memory>
    ensures { IfOk result (λ text. text ≡ line name.now tuple.now) }
{
    let front = Front::of(alloc, name)?;
    let mut rows = Rows::new(alloc);
    let mut tails = Tails::new(alloc);
    let mut lately = Lately::none();
    rows.append(&front, slice::from_ref(tuple), 0, &mut tails, &mut lately)?;
    match str::from_utf8(rows.as_slice()) {
        Ok(text) => Text::make(alloc, text),
        Err(_) => Err(Memory),
    }
}
