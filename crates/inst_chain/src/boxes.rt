//! Boxes by their pointers, and who owns them.
//!
//! Each function with a pointer stands here, in `node` or in `seen`.
ghost use Rattle.std.specs.Prelude.{◌≡◌, ◌∷◌, [], List};
ghost use Rattle.inst_chain.specs.Boxes.{Lodged, IsFirst, HasFirst, IsStart};
ghost use Rattle.inst_chain.specs.Owning.{boxes_own, boxes_lent};

use std::alloc::{Allocator, Global};
use std::marker::{Model, PhantomData};

/// Where a box lies, and the handle that frees it. It owns nothing but the handle.
#[derive(Clone, Copy)]
pub(crate) struct Spot<A> {
    pub(crate) at: *mut u8,
    pub(crate) alloc: A,
}

/// Where a box lies. It owns nothing.
#[derive(Clone, Copy)]
pub(crate) struct Place {
    pub(crate) at: *mut u8,
}

/// The owner of boxes that lie where others say. It takes no space.
pub(crate) struct Held<N, A: Allocator> {
    pub(crate) mark: PhantomData<*mut (N, A)>,
    ghost boxes: { List (Lodged N A) },
}

impl<N, A: Allocator> Model for Held<N, A> {
    ghost also_owns = { λ h. boxes_own N.row A.row A.dealloc_token h.boxes };

    ghost also_shares = { λ h _ κ. boxes_lent N.row h.boxes κ };
}

/// Takes a box by its pointer.
pub(crate) fn lodge<N: Drop, A: Allocator>(whole: Box<N, A>) -> (Spot<A>, Held<N, A>)
    ensures { result.1.boxes ≡ (result.0.at, result.0.alloc, whole.value) ∷ [] }
{
    let (at, alloc) = Box::into_raw_with_allocator(whole);
    let at = at as *mut u8;
    (Spot { at, alloc }, Held { mark: PhantomData })
}

/// Gives the first box back.
pub(crate) fn unlodge<N, A: Allocator>(spot: Spot<A>, held: Held<N, A>) -> (Box<N, A>, Held<N, A>)
    requires { IsFirst held.boxes spot.at spot.alloc }
    ensures { held.boxes ≡ (spot.at, spot.alloc, result.0.value) ∷ result.1.boxes }
{
    let Spot { at, alloc } = spot;
    let at = at as *mut N;
    let Held { mark: _ } = held;
    (
        unsafe { Box::from_raw(alloc, at) },
        Held { mark: PhantomData },
    )
}

/// Shows that the first box starts a block of the heap, and does nothing else.
pub(crate) fn show_start<N>(held: Held<N, Global>, first: Place) -> Held<N, Global>
    requires { HasFirst held.boxes first.at }
    ensures start { IsStart first.at }
    ensures boxes { result.boxes ≡ held.boxes }
{
    let Held { mark: _ } = held;
    Held { mark: PhantomData }
}

/// Ends an owner of no box.
pub(crate) fn end<N, A: Allocator>(held: Held<N, A>)
    requires { held.boxes ≡ [] }
{
    let Held { mark: _ } = held;
}
