//! Lines that come to a network one after another, and ends that leave it.
ghost use Rattle.std.specs.Prelude.{◌≡◌, ◌≢◌, ◌<◌, ◌≤◌, ℕ, List, Option, All, AllPairs, Contains, IfOk, IsTrue, OnErr, OnOk, false, length, take};
ghost use Rattle.automaton.specs.declared.line.Line.{Line};
ghost use Rattle.automaton.specs.States.{Net, is_used};
ghost use Rattle.prefix_merge.specs.Coming.{NotesLeft};
ghost use Rattle.prefix_merge.specs.Merging.{HasEnd};
ghost use Rattle.prefix_merge.specs.Turns.{InsertsAll, InsertsFirst, RemovesAll};

use crate::left::Left;
use crate::merged::Merged;
use automaton::Lines;
use event_types::{List, Memory, Numbers};

impl Merged {
    /// Adds lines one after another, each with the end number at its place, and all with one birth. Gives the numbers
    /// of the states that came. Want of memory leaves the network as it was.
    pub fn insert_all(
        &mut self,
        lines: &Lines,
        ends: &Numbers,
        birth: Option<u64>,
    ) -> Result<Numbers, Memory>
        requires as_many { length ends.now ≡ length lines.now }
        requires apart { AllPairs (λ end other. end ≢ other) ends.now }
        requires fresh { All (λ end. ¬ HasEnd self.old end) ends.now }
        ensures inserted { OnOk result (InsertsAll lines.now ends.now birth self.old self.new) }
        ensures came { IfOk result (λ came. (number : ℕ) → IsTrue (is_used self.new number) → is_used self.old number ≡ false → Contains came number) }
        ensures below { IfOk result (λ came. All (λ number. number < length self.new) came) }
        ensures kept { OnErr result (self.new ≡ self.old) }
    {
        let mut came = List::new(self.alloc);
        for place in 0..lines.len() {
            self.known();
            if let Err(fault) = self.insert(lines.get(place), *ends.get(place), birth, &mut came) {
                self.remove_first(ends, place, &mut Left::new(self.alloc));
                return Err(fault);
            }
            self.known();
        }
        Ok(came)
    }

    /// Takes the first so many of these ends away, the last of them first, and the states that no other end uses, and
    /// notes these. So lines that came in turn leave the network as it was. Takes no memory where the list of the
    /// states that leave has room.
    pub fn remove_first(&mut self, ends: &Numbers, count: usize, left: &mut Left)
        requires within { count ≤ length ends.now }
        requires apart { AllPairs (λ end other. end ≢ other) ends.now }
        requires there { All (HasEnd self.old) (take count ends.now) }
        ensures removed { RemovesAll (take count ends.now) self.old self.new }
        ensures left { NotesLeft self.old self.new left.old left.new }
        ensures undone { (lines : List Line) (birth : Option ℕ) (old : Net) → InsertsFirst lines ends.now birth count old self.old → self.new ≡ old }
    {
        let mut more = count;
        while 0 < more {
            more -= 1;
            self.remove(*ends.get(more), left);
            self.known();
        }
    }
}
