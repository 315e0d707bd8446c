//! What is filed as a state or an end comes to a network or leaves it.
ghost use Rattle.std.specs.Prelude.{◌≡◌, ◌<◌, ℕ, [], IsTrue, OnOk, false, length};
ghost use Rattle.automaton.specs.Changes.{AddsEnd, AddsHop, RemovesEnd, RemovesState};
ghost use Rattle.automaton.specs.States.{Net, edges_at, ends_at, is_used};
ghost use Rattle.stream_readers.specs.Changing.{HaveTargets, HaveWaits, KeepTargets, KeepWaits};
ghost use Rattle.stream_readers.specs.Readers.{AreReadersOf};

use crate::leading::lead_key;
use crate::leaving::{Gone, GoneEnd};
use crate::streams::{Streams, drop_target, drop_wait, file_target, file_wait};
use crate::target::{Target, end_by};
use automaton::{End, Hop, Network};
use event_types::Memory;
use std::alloc::Global;

/// The edge into a state that is to come is filed, where the state before it is a root.
pub(crate) fn file_edge(
    alloc: Global,
    readers: &mut Streams,
    network: &Network,
    number: usize,
    before: usize,
    hop: &Hop,
) -> Result<(), Memory>
    requires readers { AreReadersOf network.now readers.old }
    requires free { is_used network.now number ≡ false }
    requires before { IsTrue (is_used network.now before) }
    ensures targets { OnOk result ((new : Net) → AddsHop number before hop.now network.now new → HaveTargets new readers.new) }
    ensures waits { OnOk result (KeepWaits readers.old readers.new) }
{
    network.places();
    match network.root(before) {
        Some(stream) => file_target(alloc, readers, stream, Target::Edge(number), &hop.step),
        None => Ok(()),
    }
}

/// A state that is to come is filed, where it has no key to find it.
pub(crate) fn file_waiting(
    alloc: Global,
    readers: &mut Streams,
    network: &Network,
    number: usize,
    hop: &Hop,
) -> Result<(), Memory>
    requires waits { HaveWaits network.now readers.old }
    requires free { is_used network.now number ≡ false }
    ensures waits { OnOk result ((before : ℕ) (new : Net) → IsTrue (is_used network.now before) → AddsHop number before hop.now network.now new → HaveWaits new readers.new) }
    ensures targets { OnOk result (KeepTargets readers.old readers.new) }
{
    network.places();
    let wait = &hop.wait;
    if lead_key(&wait.choose).is_some() {
        return Ok(());
    }
    file_wait(alloc, readers, wait.stream, number, &wait.choose)
}

/// An end that is to come is filed, where its state is a root.
pub(crate) fn file_end(
    alloc: Global,
    readers: &mut Streams,
    network: &Network,
    state: usize,
    end: &End,
) -> Result<(), Memory>
    requires readers { AreReadersOf network.now readers.old }
    requires used { IsTrue (is_used network.now state) }
    ensures { OnOk result ((new : Net) → AddsEnd state end.now network.now new → AreReadersOf new readers.new) }
{
    network.places();
    let Some(stream) = network.root(state) else {
        return Ok(());
    };
    let place = network.ends(state).len();
    let target = end_by(state, place, &end.step);
    file_target(alloc, readers, stream, target, &end.step)
}

/// An end that is to leave is filed no more, and the last one of its state is filed at its place.
pub(crate) fn drop_end(readers: &mut Streams, network: &Network, state: usize, place: usize)
    requires readers { AreReadersOf network.now readers.old }
    requires used { IsTrue (is_used network.now state) }
    requires there { place < length (ends_at network.now state) }
    ensures { (new : Net) → RemovesEnd state place network.now new → AreReadersOf new readers.new }
{
    network.places();
    if let Some(stream) = network.root(state) {
        let last = network.ends(state).len() - 1;
        let gone = GoneEnd { state, place, last };
        drop_target(readers, stream, Gone::End(gone));
    }
}

/// The edge into a state that is to leave is filed no more.
pub(crate) fn drop_edge(readers: &mut Streams, network: &Network, number: usize)
    requires readers { AreReadersOf network.now readers.old }
    requires used { IsTrue (is_used network.now number) }
    requires last { edges_at network.now number ≡ [] }
    requires endless { ends_at network.now number ≡ [] }
    ensures targets { (new : Net) → RemovesState number network.now new → HaveTargets new readers.new }
    ensures waits { KeepWaits readers.old readers.new }
{
    network.places();
    let from = network.before(number);
    let Some(before) = from else {
        return;
    };
    if let Some(stream) = network.root(before) {
        drop_target(readers, stream, Gone::Edge(number));
    }
}

/// A state that is to leave is filed no more. Takes no memory.
pub(crate) fn drop_waiting(readers: &mut Streams, network: &Network, number: usize)
    requires waits { HaveWaits network.now readers.old }
    requires used { IsTrue (is_used network.now number) }
    ensures waits { (new : Net) → RemovesState number network.now new → HaveWaits new readers.new }
    ensures targets { KeepTargets readers.old readers.new }
{
    let Some(wait) = network.wait(number) else {
        return;
    };
    if lead_key(&wait.choose).is_some() {
        return;
    }
    drop_wait(readers, wait.stream, number);
}
