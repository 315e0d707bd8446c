//! Networks that lines come to and leave.
ghost use Rattle.std.specs.Prelude.{◌≡◌, ◌<◌, ◌↔◌, ℕ, [], IfOk, IfSome, OnErr, OnOk, Some, length};
ghost use Rattle.automaton.specs.NetworkLines.{HasEndings, HasLines};
ghost use Rattle.automaton.specs.Plain.{numbered};
ghost use Rattle.automaton.specs.States.{root_at};
ghost use Rattle.prefix_merge.specs.Coming.{ListsCome, NotesLeft};
ghost use Rattle.prefix_merge.specs.Growth.{end_of};
ghost use Rattle.prefix_merge.specs.Insertion.{Inserts};
ghost use Rattle.prefix_merge.specs.Merging.{HasEnd, IsMerged, IsSettled};
ghost use Rattle.prefix_merge.specs.Removal.{Removes};
ghost use Rattle.stream_readers.specs.Readers.{AreReadersOf};

use crate::growth::{grow, hops_from, numbered_end, plant, reach};
use crate::indexed::Indexed;
use crate::left::Left;
use crate::pruning::{Roots, prune, shorten};
use automaton::{End, Line, Network};
use event_types::{List, Memory, Numbers};
use long_lists::LongList;
use std::alloc::Global;
use std::collections::HashMap;
use std::marker::Model;
use stream_readers::Readers;

/// A network in which no two states have one prefix and each state is used by an end.
///
/// `SELECT a FROM A NEXT {c} B` and `SELECT b FROM A NEXT {c} B` have two ends at one waiting state.
#[derive(Drop)]
pub struct Merged {
    pub(crate) alloc: Global,
    network: Indexed,
    roots: Roots,
}

impl Model for Merged {
    ghost use Rattle.std.specs.Prelude.{List, Option};
    ghost use Rattle.automaton.specs.declared.network.State.{State};

    ghost Value = { List (Option State) };

    ghost use Rattle.std.specs.Coded.{coded_list, coded_option};
    ghost use Rattle.automaton.specs.contracts.network.State as state;

    ghost coded = { coded_list (coded_option state.the_row.coded) };

    ghost use Rattle.prefix_merge.specs.Growth.{Keeps};

    ghost view = { λ m. m.network };

    ghost invariant = { λ m. Keeps m.roots m.network };
}

impl Merged {
    /// No states and no ends. Takes no memory.
    pub fn new(alloc: Global) -> Merged
        ensures { result ≡ [] }
    {
        Merged {
            alloc,
            network: Indexed::new(alloc),
            roots: HashMap::new(alloc),
        }
    }

    /// The merged network of lines. The number of a line's end is the line's place, counted from 0, and it has
    /// no birth.
    pub fn of(alloc: Global, lines: &LongList<Line>) -> Result<Merged, Memory>
        ensures endings { IfOk result (λ merged. HasEndings merged (numbered 0 lines.now)) }
        ensures ends { IfOk result (λ merged. (end : ℕ) → HasEnd merged end ↔ (end < length lines.now)) }
        ensures lines { IfOk result (λ merged. HasLines merged lines.now) }
        ensures merged { IfOk result IsMerged }
    {
        let mut merged = Merged::new(alloc);
        let mut came = List::new(alloc);
        for place in 0..lines.len() {
            merged.insert(lines.get(place), place, None, &mut came)?;
        }
        Ok(merged)
    }

    /// The network. Takes no memory.
    pub fn network(&self) -> &Network
        ensures value { result.now ≡ self.now }
        ensures merged { IsMerged self.now }
        ensures settled { IsSettled self.now }
    {
        self.network.network()
    }

    /// What reads each stream of the network, unless memory was wanting when it changed. Takes no memory.
    pub fn readers(&self) -> Option<&Readers>
        ensures { IfSome result (λ readers. AreReadersOf self.now readers.now) }
    {
        self.network.readers()
    }

    /// Makes what reads each stream, where it isn't there.
    pub fn refile(&mut self, alloc: Global) -> Result<(), Memory>
        ensures { self.new ≡ self.old }
    {
        self.network.refile(alloc)
    }

    // What holds of each merged network.
    pub(crate) fn known(&self)
        ensures { IsSettled self.now }
    {
        self.network();
    }

    /// Adds the states of a line's prefixes that aren't there, and its end with this number and this birth. Lists the
    /// numbers of these states.
    pub fn insert(
        &mut self,
        line: &Line,
        end: usize,
        birth: Option<u64>,
        came: &mut Numbers,
    ) -> Result<(), Memory>
        requires { ¬ HasEnd self.old end }
        ensures inserted { OnOk result (Inserts line.now end birth self.old self.new) }
        ensures came { OnOk result (ListsCome self.old self.new came.old came.new) }
        ensures kept { OnErr result (self.new ≡ self.old) }
    {
        let last = numbered_end(self.alloc, line, end, birth)?;
        match self.roots.get(&line.root).copied() {
            Some(root) => self.add_from(root, line, last, came),
            None => self.add_whole(line, last, came),
        }
    }

    /// Takes the end with this number away, and the states that no other end uses, and notes these. Takes no memory
    /// where the list of these has room.
    pub fn remove(&mut self, end: usize, left: &mut Left)
        requires { HasEnd self.old end }
        ensures removed { Removes end self.old self.new }
        ensures left { NotesLeft self.old self.new left.old left.new }
    {
        let spot = self.network.holder(end);
        self.network.remove_end(end, spot);
        prune(&mut self.network, &mut self.roots, spot.state, left);
        shorten(&mut self.network);
    }

    // Adds a line whose root state is there, with this end.
    fn add_from(
        &mut self,
        root: usize,
        line: &Line,
        end: End,
        came: &mut Numbers,
    ) -> Result<(), Memory>
        requires end { ¬ HasEnd self.old end.number }
        requires is { end ≡ end_of line.now end.number end.birth }
        requires root { root_at self.old root ≡ Some line.now.root }
        ensures inserted { OnOk result (Inserts line.now end.number end.birth self.old self.new) }
        ensures came { OnOk result (ListsCome self.old self.new came.old came.new) }
        ensures kept { OnErr result (self.new ≡ self.old) }
    {
        let reached = reach(&self.network, root, line);
        let hops = hops_from(line, reached.place);
        grow(&mut self.network, reached.state, hops, end, came)?;
        Ok(())
    }

    // Adds a line whose root state isn't there, with this end.
    fn add_whole(&mut self, line: &Line, end: End, came: &mut Numbers) -> Result<(), Memory>
        requires end { ¬ HasEnd self.old end.number }
        requires is { end ≡ end_of line.now end.number end.birth }
        requires root { (number : ℕ) → ¬ (root_at self.old number ≡ Some line.now.root) }
        ensures inserted { OnOk result (Inserts line.now end.number end.birth self.old self.new) }
        ensures came { OnOk result (ListsCome self.old self.new came.old came.new) }
        ensures kept { OnErr result (self.new ≡ self.old) }
    {
        let number = self.network.lowest_free();
        self.roots.insert(line.root, number)?;
        match plant(&mut self.network, number, line, end, came) {
            Ok(()) => Ok(()),
            Err(fault) => {
                self.roots.remove(&line.root);
                Err(fault)
            }
        }
    }
}
