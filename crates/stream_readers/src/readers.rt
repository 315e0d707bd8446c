//! What reads each stream, and what a tuple finds of it.
ghost use Rattle.std.specs.Prelude.{◌≡◌, [], IfOk, OnOk};
ghost use Rattle.automaton.specs.Networks.{IsNetwork};
ghost use Rattle.automaton.specs.States.{Net};
ghost use Rattle.stream_readers.specs.Finding.{FindsPlain, FindsWays};
ghost use Rattle.stream_readers.specs.Readers.{AreReadersOf};

use crate::making::add_state;
use crate::streams::Streams;
use crate::target::Targets;
use automaton::Network;
use event_types::{List, Memory, Numbers, StreamId, Tuple};
use std::alloc::Global;
use std::marker::Model;

/// What a tuple finds, in lists that are used anew from tuple to tuple: targets of the roots of its stream,
/// and numbers of states that wait on it.
#[derive(Drop)]
pub struct Found {
    pub targets: Targets,
    pub waits: Numbers,
    places: Numbers,
}

impl Found {
    /// Takes no memory.
    pub fn new(alloc: Global) -> Found {
        Found {
            targets: List::new(alloc),
            waits: List::new(alloc),
            places: List::new(alloc),
        }
    }
}

/// What reads each stream of a network: the ways out of the roots of the stream, and the states that wait on
/// it without a key to find them, each filed by what it asks of a tuple alone.
#[derive(Drop)]
pub struct Readers {
    pub(crate) alloc: Global,
    pub(crate) streams: Streams,
}

impl Model for Readers {
    ghost use Rattle.std.specs.Prelude.{List};
    ghost use Rattle.stream_readers.specs.declared.reader.Reader.{Reader};

    ghost Value = { List Reader };

    ghost view = { λ s. s.streams };
}

impl Readers {
    /// Nothing reads any stream. Takes no memory.
    pub fn new(alloc: Global) -> Readers
        ensures value { result ≡ [] }
        ensures none { AreReadersOf [] result }
    {
        Readers {
            alloc,
            streams: List::new(alloc),
        }
    }

    /// The readers of the streams of a network.
    pub fn make(alloc: Global, network: &Network) -> Result<Readers, Memory>
        ensures { IfOk result (AreReadersOf network.now) }
    {
        let mut streams = List::new(alloc);
        for number in 0..network.places() {
            add_state(alloc, &mut streams, network, number)?;
        }
        Ok(Readers { alloc, streams })
    }

    /// The ways out of the roots of the stream on which the tuple may get on.
    pub fn find_targets(
        &self,
        stream: StreamId,
        tuple: &Tuple,
        found: &mut Found,
    ) -> Result<(), Memory>
        ensures { OnOk result ((net : Net) → IsNetwork net → AreReadersOf net self.now → FindsWays net stream tuple.now found.new.targets) }
    {
        if stream < self.streams.len() {
            let targets = &self.streams.get(stream).targets;
            targets.find(tuple, &mut found.places, &mut found.targets)
        } else {
            found.targets.clear();
            Ok(())
        }
    }

    /// The states that wait on the stream without a key to find them, and may match the tuple.
    pub fn find_waits(
        &self,
        stream: StreamId,
        tuple: &Tuple,
        found: &mut Found,
    ) -> Result<(), Memory>
        ensures waits { OnOk result ((net : Net) → AreReadersOf net self.now → FindsPlain net stream tuple.now found.new.waits) }
        ensures targets { found.new.targets ≡ found.old.targets }
    {
        if stream < self.streams.len() {
            let waits = &self.streams.get(stream).waits;
            waits.matching(tuple, &mut found.waits)
        } else {
            found.waits.clear();
            Ok(())
        }
    }
}
