//! The tuples of a right side, as they are looked through for the nexts of a binding.
ghost use Rattle.std.specs.Prelude.{◌≡◌, ◌<◌, ◌≤◌, ◌++◌, ◌∷◌, [], IfOk, IsTrue, OnOk, length, slice_get, Some, take};
ghost use Rattle.std.specs.List.{All};
ghost use Rattle.derivations.specs.Rising.{AreSoundTuples, Rises};

use crate::deriv::Derived;
use event_types::{List, Memory};
use std::alloc::Global;
use std::marker::Model;

/// Tuples of a right side in their order.
#[derive(Drop)]
pub(crate) struct Side<'a> {
    tuples: List<&'a Derived>,
    // Whether their detections are known never to fall.
    rises: bool,
}

impl<'a> Model for Side<'a> {
    ghost use Rattle.std.specs.Prelude.{IsTrue, List, map};
    ghost use Rattle.derivations.specs.Codes.{deriveds_code};
    ghost use Rattle.derivations.specs.DerivedTuples.{DerivedTuple};
    ghost use Rattle.derivations.specs.Rising.{AreSoundTuples, Rises};

    ghost Value = { List DerivedTuple };

    ghost coded = { deriveds_code };

    ghost view = { λ s. map (λ x. x.now) s.tuples };

    ghost invariant = { λ s. AreSoundTuples (map (λ x. x.now) s.tuples) × (IsTrue s.rises → Rises (map (λ x. x.now) s.tuples)) };
}

// The tuples as a right side.
pub(crate) fn side_of<'a>(alloc: Global, found: &'a [Derived]) -> Result<Side<'a>, Memory>
    ensures { IfOk result (λ side. side ≡ found.now) }
{
    let mut side = Side::new(alloc);
    for one in found {
        side.add(one)?;
    }
    Ok(side)
}

impl<'a> Side<'a> {
    // No tuples. Takes no memory.
    pub(crate) fn new(alloc: Global) -> Side<'a>
        ensures { result ≡ [] }
    {
        Side {
            tuples: List::new(alloc),
            rises: true,
        }
    }

    // Puts a tuple at the end.
    pub(crate) fn add(&mut self, one: &'a Derived) -> Result<(), Memory>
        ensures { OnOk result (self.new ≡ self.old ++ one.now ∷ []) }
    {
        let is_sound = one.tuple.from() <= one.tuple.at();
        prove!(is_sound);
        self.rises = self.rises_with(one);
        self.tuples.add(one)
    }

    // The number of tuples.
    pub(crate) fn len(&self) -> usize
        ensures { result ≡ length self.now }
    {
        self.tuples.len()
    }

    // The tuple at a place, counted from 0.
    pub(crate) fn get(&self, place: usize) -> &'a Derived
        requires { place < length self.now }
        ensures value { slice_get self.now place ≡ Some result.now }
        ensures sound { AreSoundTuples self.now }
    {
        self.tuples.get(place)
    }

    // Whether the tuples are known never to fall in detection.
    pub(crate) fn rises(&self) -> bool
        ensures { IsTrue result → Rises self.now }
    {
        self.rises
    }

    // A place before which all tuples start by a time: the first that is detected after it, where their detections never fall.
    pub(crate) fn start_after(&self, time: u64) -> usize
        ensures within { result ≤ length self.now }
        ensures before { All (λ x. x.tuple.from ≤ time) (take result self.now) }
    {
        if self.rises { self.halve(time) } else { 0 }
    }

    // Whether the detections are known never to fall, with one tuple more too.
    fn rises_with(&self, one: &Derived) -> bool
        ensures { IsTrue result → Rises self.now × Rises (self.now ++ one.now ∷ []) }
    {
        self.rises && self.is_not_before(one)
    }

    // Whether a tuple isn't detected before the last one.
    fn is_not_before(&self, one: &Derived) -> bool
        ensures { IsTrue result → Rises self.now → Rises (self.now ++ one.now ∷ []) }
    {
        let count = self.len();
        if count == 0 {
            return true;
        }
        self.get(count - 1).tuple.at() <= one.tuple.at()
    }

    // The first place of a tuple that is detected after a time.
    fn halve(&self, time: u64) -> usize
        requires { Rises self.now }
        ensures within { result ≤ length self.now }
        ensures before { All (λ x. x.tuple.from ≤ time) (take result self.now) }
    {
        let mut low = 0;
        let mut high = self.len();
        while low < high {
            let middle = low + (high - low) / 2;
            if self.get(middle).tuple.at() <= time {
                low = middle + 1;
            } else {
                high = middle;
            }
        }
        low
    }
}
