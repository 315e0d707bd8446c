//! The readers of a network's streams, made state by state.
ghost use Rattle.std.specs.Prelude.{◌+◌, ◌<◌, IsTrue, OnOk, length};
ghost use Rattle.automaton.specs.Networks.{IsNetwork};
ghost use Rattle.automaton.specs.States.{is_used};
ghost use Rattle.stream_readers.specs.Making.{AreReadersBelow};

use crate::leading::lead_key;
use crate::streams::{Streams, file_root, file_wait};
use automaton::Network;
use event_types::Memory;
use std::alloc::Global;

/// Adds the next state to what reads its stream. After want of memory the readers are of no more use.
pub(crate) fn add_state(
    alloc: Global,
    readers: &mut Streams,
    network: &Network,
    number: usize,
) -> Result<(), Memory>
    requires number { number < length network.now }
    requires network { IsNetwork network.now }
    requires below { AreReadersBelow network.now number number readers.old }
    ensures { OnOk result (AreReadersBelow network.now (number + 1) (number + 1) readers.new) }
{
    if !network.used(number) {
        return Ok(());
    }
    add_root(alloc, readers, network, number)?;
    add_wait(alloc, readers, network, number)
}

// Adds the targets of a state, if it is a root.
fn add_root(
    alloc: Global,
    readers: &mut Streams,
    network: &Network,
    number: usize,
) -> Result<(), Memory>
    requires used { IsTrue (is_used network.now number) }
    requires network { IsNetwork network.now }
    requires below { AreReadersBelow network.now number number readers.old }
    ensures { OnOk result (AreReadersBelow network.now (number + 1) number readers.new) }
{
    match network.root(number) {
        Some(stream) => file_root(alloc, readers, stream, network, number),
        None => Ok(()),
    }
}

// Adds a state, if it waits on a stream without a key to find it.
fn add_wait(
    alloc: Global,
    readers: &mut Streams,
    network: &Network,
    number: usize,
) -> Result<(), Memory>
    requires used { IsTrue (is_used network.now number) }
    requires below { AreReadersBelow network.now (number + 1) number readers.old }
    ensures { OnOk result (AreReadersBelow network.now (number + 1) (number + 1) readers.new) }
{
    let Some(wait) = network.wait(number) else {
        return Ok(());
    };
    if lead_key(&wait.choose).is_some() {
        return Ok(());
    }
    file_wait(alloc, readers, wait.stream, number, &wait.choose)
}
