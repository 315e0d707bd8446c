//! The places of the tuples whose tails were written last.
ghost use Rattle.std.specs.Prelude.{ℕ, ◌<◌, List, length, IfOk, IfSome, OnOk};
ghost use Rattle.event_types.specs.Tuple.{TupleView};
ghost use Rattle.result_text.specs.Tails.{AreIn, IsTailOf, StandsIn};

use crate::tails::Tails;
use event_types::{Memory, Tuple};

/// The places of the last two tuples whose tails were written, and where these stand among the tails. All places are
/// those of one list.
#[derive(Drop)]
pub struct Lately {
    last: Option<Shown>,
    before: Option<Shown>,
}

/// The place of a tuple, and where its tail begins and ends.
#[derive(Clone, Copy)]
pub struct Shown {
    place: usize,
    begin: usize,
    end: usize,
}

impl Lately {
    /// No places. Takes no memory.
    pub fn none() -> Lately
        ensures { (tails : List ℕ) (tuples : List TupleView) → AreIn tails tuples result }
    {
        Lately {
            last: None,
            before: None,
        }
    }

    // Where the tail of the tuple at a place begins and ends, if it is one of the two.
    fn find(&self, place: usize) -> Option<(usize, usize)>
        ensures { IfSome result (λ tail. (tails : List ℕ) (tuples : List TupleView) → AreIn tails tuples self.now → IsTailOf tails tail.0 tail.1 tuples place) }
    {
        match find_in(&self.last, place) {
            Some(tail) => Some(tail),
            None => find_in(&self.before, place),
        }
    }

    // Keeps the place of a tuple whose tail was written, instead of the older one.
    fn note(&mut self, place: usize, begin: usize, end: usize)
        ensures { (tails : List ℕ) (tuples : List TupleView) → AreIn tails tuples self.old → IsTailOf tails begin end tuples place → AreIn tails tuples self.new }
    {
        self.before = self.last;
        self.last = Some(Shown { place, begin, end });
    }
}

/// Where the tail of the tuple at a place begins and ends, which is written unless it is there.
pub(crate) fn tail_of(
    tuples: &[Tuple],
    place: usize,
    tails: &mut Tails,
    lately: &mut Lately,
) -> Result<(usize, usize), Memory>
    requires in_range { place < length tuples.now }
    requires lately { AreIn tails.old tuples.now lately.old }
    ensures tail { IfOk result (λ tail. IsTailOf tails.new tail.0 tail.1 tuples.now place) }
    ensures lately { OnOk result (AreIn tails.new tuples.now lately.new) }
{
    if let Some(tail) = lately.find(place) {
        return Ok(tail);
    }
    let begin = tails.as_slice().len();
    tails.put(&tuples[place])?;
    let end = tails.as_slice().len();
    lately.note(place, begin, end);
    Ok((begin, end))
}

// Where the tail of the tuple at a place begins and ends, if it is this one.
fn find_in(shown: &Option<Shown>, place: usize) -> Option<(usize, usize)>
    ensures { IfSome result (λ tail. (tails : List ℕ) (tuples : List TupleView) → IfSome shown.now (StandsIn tails tuples) → IsTailOf tails tail.0 tail.1 tuples place) }
{
    match shown {
        Some(shown) if shown.place == place => Some((shown.begin, shown.end)),
        _ => None,
    }
}
