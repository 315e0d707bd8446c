//! What lies in the boxes of a chain.
ghost use Rattle.inst_chain.specs.Boxes.{HasFirst, IsLast};
ghost use Rattle.inst_chain.specs.Nodes.{LeadsOn, LeadsBack};

use crate::boxes::{Held, Place};
use std::alloc::Allocator;
use std::marker::PhantomData;

/// A value, with where the next box lies, and where the one before.
#[derive(Drop)]
pub(crate) struct Node<L, V> {
    pub(crate) next: L,
    pub(crate) prev: L,
    pub(crate) value: V,
}

/// Lets the last box lead on to the first of others, whose owner then owns them too.
pub(crate) fn lead_on<L: Copy, V, A: Allocator>(
    held: Held<Node<L, V>, A>,
    last: Place,
    next: L,
    more: Held<Node<L, V>, A>,
) -> Held<Node<L, V>, A>
    requires { IsLast held.boxes last.at }
    ensures { LeadsOn held.boxes last.at next more.boxes result.boxes }
{
    let Held { mark: _ } = held;
    let Held { mark: _ } = more;
    let Place { at } = last;
    let at = at as *mut Node<L, V>;
    unsafe { (*at).next = next };
    Held { mark: PhantomData }
}

/// Lets the first box lead back to another one.
pub(crate) fn lead_back<L: Copy, V, A: Allocator>(
    held: Held<Node<L, V>, A>,
    first: Place,
    prev: L,
) -> Held<Node<L, V>, A>
    requires { HasFirst held.boxes first.at }
    ensures { LeadsBack held.boxes first.at prev result.boxes }
{
    let Held { mark: _ } = held;
    let Place { at } = first;
    let at = at as *mut Node<L, V>;
    unsafe { (*at).prev = prev };
    Held { mark: PhantomData }
}
