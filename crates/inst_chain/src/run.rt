//! Runs of beads.
ghost use Rattle.std.specs.Prelude.{◌≡◌, ◌++◌, ◌∷◌, []};
ghost use Rattle.inst_chain.specs.Items.{items};
ghost use Rattle.inst_chain.specs.Linked.{IsAlone};

use crate::boxes::{Held, Place, Spot, end, lodge, show_start, unlodge};
use crate::node::{Node, lead_back, lead_on};
use std::alloc::Global;
use std::marker::Model;
use std::ptr::{NonNull, null_mut};

/// Where the next bead's box lies, or the one before, and null where there is none.
pub(crate) type Link = *mut u8;

/// Beads that are linked, of which there is one at least: where the first one lies, and where the last.
pub(crate) struct Run<T> {
    pub(crate) first: Spot<Global>,
    last: Place,
    pub(crate) held: Held<Node<Link, T>, Global>,
}

impl<T> Model for Run<T> {
    ghost use Rattle.std.specs.Prelude.{List};
    ghost use denote.RawPtr.{null_ptr};
    ghost use Rattle.inst_chain.specs.Boxes.{IsStart};
    ghost use Rattle.inst_chain.specs.Linked.{AreLinked, values};

    ghost Value = { List T };

    ghost view = { λ r. values r.held.boxes };

    ghost invariant = { λ r. IsStart r.first.at × AreLinked null_ptr r.first.at r.held.boxes r.last.at null_ptr };
}

/// The run of one bead.
pub(crate) fn one<T: Drop>(node: Box<Node<Link, T>>) -> Run<T>
    requires { IsAlone node.value }
    ensures { result ≡ node.value.value ∷ [] }
{
    let (first, held) = lodge(node);
    let last = Place { at: first.at };
    let held = show_start(held, last);
    Run { first, last, held }
}

/// The beads of both, the last one in front and the first one at the back as neighbours.
pub(crate) fn join<T: Drop>(front: Run<T>, back: Run<T>) -> Run<T>
    ensures { result ≡ front ++ back }
{
    let Run {
        first,
        last: left,
        held,
    } = front;
    let Run {
        first: right,
        last,
        held: more,
    } = back;
    let more = lead_back(more, Place { at: right.at }, left.at);
    let held = lead_on(held, left, right.at, more);
    Run { first, last, held }
}

/// The first bead, and the run of the others.
pub(crate) fn pop<T>(run: Run<T>) -> (Box<Node<Link, T>>, Option<Run<T>>)
    ensures alone { IsAlone result.0.value }
    ensures items { run ≡ result.0.value.value ∷ items result.1 }
{
    let Run { first, last, held } = run;
    let (mut node, held) = unlodge(first, held);
    match NonNull::new(node.next) {
        None => {
            end(held);
            (node, None)
        }
        Some(next) => {
            let at = next.as_ptr();
            node.next = null_mut();
            let held = lead_back(held, Place { at }, null_mut());
            let rest = Run {
                first: Spot {
                    at,
                    alloc: first.alloc,
                },
                last,
                held,
            };
            (node, Some(rest))
        }
    }
}
