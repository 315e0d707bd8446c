//! The kinds of hidden streams.
ghost use Rattle.std.specs.Prelude.{◌≡◌, List, OnErr, OnOk};
ghost use Rattle.event_types.specs.declared.kind.Kind.{Kind};
ghost use Rattle.automaton.specs.LineKinds.{LineGives};
ghost use Rattle.splitter.specs.Growing.{GrowInTurn, grown};

use automaton::{Line, Lines};
use event_types::{KindLists, Memory};
use std::alloc::Global;

// Adds the kinds of the hidden streams that the lines publish.
pub(crate) fn add_kinds(alloc: Global, lines: &Lines, kinds: &mut KindLists) -> Result<(), Memory>
    requires { (all : List (List Kind)) × GrowInTurn kinds.old lines.now all }
    ensures ok { OnOk result (GrowInTurn kinds.old lines.now kinds.new) }
    ensures kept { OnErr result (kinds.new ≡ kinds.old) }
{
    let streams = kinds.len();
    for line in lines.as_slice() {
        if let Err(_) = add_kind(alloc, line, kinds) {
            kinds.truncate(streams);
            return Err(Memory);
        }
    }
    Ok(())
}

// Adds the kinds that the line gives, where its stream is the next.
fn add_kind(alloc: Global, line: &Line, kinds: &mut KindLists) -> Result<(), Memory>
    requires { (out : List Kind) × LineGives kinds.old line.now out }
    ensures ok { OnOk result ((out : List Kind) × LineGives kinds.old line.now out × (kinds.new ≡ grown line.now out kinds.old)) }
    ensures kept { OnErr result (kinds.new ≡ kinds.old) }
{
    if line.out == kinds.len() {
        let out = line.gives(alloc, kinds)?;
        kinds.add(out)?;
    }
    Ok(())
}
