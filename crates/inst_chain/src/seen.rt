//! Reading boxes.
ghost use Rattle.std.specs.Prelude.{◌≡◌, List};
ghost use Rattle.inst_chain.specs.Boxes.{Lodged, HasFirst, Shows};
ghost use Rattle.inst_chain.specs.Owning.{boxes_lent};

use crate::boxes::{Held, Place};
use std::alloc::Allocator;
use std::marker::{Model, PhantomData};

/// The right to read boxes, for as long as a borrow of their owner lasts.
#[derive(Drop)]
pub(crate) struct Seen<'a, N, A: Allocator> {
    mark: PhantomData<&'a (N, A)>,
    ghost boxes: { List (Lodged N A) },
}

impl<'a, N, A: Allocator> Model for Seen<'a, N, A> {
    ghost also_owns = { λ s. boxes_lent N.row s.boxes 'a };
}

/// The boxes of an owner.
pub(crate) fn see<'a, N, A: Allocator>(held: &'a Held<N, A>) -> Seen<'a, N, A>
    ensures { result.boxes ≡ held.now.boxes }
{
    Seen { mark: PhantomData }
}

/// Reads the first box.
pub(crate) fn first<'a, N, A: Allocator>(
    seen: Seen<'a, N, A>,
    place: Place,
) -> (&'a N, Seen<'a, N, A>)
    requires { HasFirst seen.boxes place.at }
    ensures { Shows seen.entry.boxes place.at result.0.now result.1.boxes }
{
    let Seen { mark: _ } = seen;
    let at = place.at as *const N;
    (unsafe { &*at }, Seen { mark: PhantomData })
}
