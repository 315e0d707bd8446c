//! What is still to be read of a run.
ghost use Rattle.std.specs.Prelude.{◌≡◌, ◌∷◌};
ghost use Rattle.inst_chain.specs.Items.{items};

use crate::boxes::Place;
use crate::node::Node;
use crate::run::{Link, Run};
use crate::seen::{Seen, first, see};
use std::alloc::Global;
use std::marker::Model;
use std::ptr::NonNull;

/// The beads that are still to be read, of which there is one at least.
#[derive(Drop)]
pub(crate) struct Sight<'a, T> {
    at: Place,
    seen: Seen<'a, Node<Link, T>, Global>,
}

impl<'a, T> Model for Sight<'a, T> {
    ghost use Rattle.std.specs.Prelude.{List};
    ghost use Rattle.inst_chain.specs.Linked.{values};
    ghost use Rattle.inst_chain.specs.Sights.{AreAhead};

    ghost Value = { List T };

    ghost view = { λ s. values s.seen.boxes };

    ghost invariant = { λ s. AreAhead s.at.at s.seen.boxes };
}

/// All beads of a run.
pub(crate) fn survey<T>(run: &Run<T>) -> Sight<'_, T>
    ensures { result ≡ run.now }
{
    Sight {
        at: Place { at: run.first.at },
        seen: see(&run.held),
    }
}

/// The first value, and what comes after it.
pub(crate) fn read<'a, T>(sight: Sight<'a, T>) -> (&'a T, Option<Sight<'a, T>>)
    ensures { sight.entry ≡ result.0.now ∷ items result.1 }
{
    let Sight { at, seen } = sight;
    let (node, seen) = first(seen, at);
    match NonNull::new(node.next) {
        None => (&node.value, None),
        Some(next) => {
            let at = Place { at: next.as_ptr() };
            (&node.value, Some(Sight { at, seen }))
        }
    }
}
