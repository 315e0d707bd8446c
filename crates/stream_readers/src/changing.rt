//! Readers that change with their network, by a state or an end.
ghost use Rattle.std.specs.Prelude.{◌≡◌, ◌<◌, [], IsTrue, OnOk, false, length};
ghost use Rattle.automaton.specs.Changes.{AddsEnd, AddsHop, RemovesEnd, RemovesState};
ghost use Rattle.automaton.specs.States.{Net, edges_at, ends_at, is_used};
ghost use Rattle.stream_readers.specs.Readers.{AreReadersOf};

use crate::filing::{drop_edge, drop_end, drop_waiting, file_edge, file_end, file_waiting};
use crate::readers::Readers;
use automaton::{End, Hop, Network};
use event_types::Memory;

impl Readers {
    /// The waiting state of a hop is to come to the network. After want of memory the readers are of no more use.
    pub fn add_hop(
        &mut self,
        network: &Network,
        number: usize,
        before: usize,
        hop: &Hop,
    ) -> Result<(), Memory>
        requires readers { AreReadersOf network.now self.old }
        requires free { is_used network.now number ≡ false }
        requires before { IsTrue (is_used network.now before) }
        ensures { OnOk result ((new : Net) → AddsHop number before hop.now network.now new → AreReadersOf new self.new) }
    {
        file_edge(self.alloc, &mut self.streams, network, number, before, hop)?;
        file_waiting(self.alloc, &mut self.streams, network, number, hop)
    }

    /// An end is to come to a state of the network. After want of memory the readers are of no more use.
    pub fn add_end(&mut self, network: &Network, state: usize, end: &End) -> Result<(), Memory>
        requires readers { AreReadersOf network.now self.old }
        requires used { IsTrue (is_used network.now state) }
        ensures { OnOk result ((new : Net) → AddsEnd state end.now network.now new → AreReadersOf new self.new) }
    {
        file_end(self.alloc, &mut self.streams, network, state, end)
    }

    /// The end at a place of a state of the network is to leave, and the last one there to take its place. Memory is
    /// asked for, to note where room came to be, and where it is wanting that room is not used again.
    pub fn remove_end(&mut self, network: &Network, state: usize, place: usize)
        requires readers { AreReadersOf network.now self.old }
        requires used { IsTrue (is_used network.now state) }
        requires there { place < length (ends_at network.now state) }
        ensures { (new : Net) → RemovesEnd state place network.now new → AreReadersOf new self.new }
    {
        drop_end(&mut self.streams, network, state, place);
    }

    /// A state without edges and ends is to leave the network. Memory is asked for, to note where room came to be, and
    /// where it is wanting that room is not used again.
    pub fn remove_state(&mut self, network: &Network, number: usize)
        requires readers { AreReadersOf network.now self.old }
        requires used { IsTrue (is_used network.now number) }
        requires last { edges_at network.now number ≡ [] }
        requires endless { ends_at network.now number ≡ [] }
        ensures { (new : Net) → RemovesState number network.now new → AreReadersOf new self.new }
    {
        drop_edge(&mut self.streams, network, number);
        drop_waiting(&mut self.streams, network, number);
    }
}
