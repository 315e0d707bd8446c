//! Targets of which one leaves.
ghost use Rattle.std.specs.Prelude.{◌≡◌};
ghost use Rattle.stream_readers.specs.Leaving.{moved as moved_of, moved_end as moved_end_of};

use crate::target::{EndPlace, Target};

/// An end that leaves, by its state and its place there, and the place of the last end there, which takes its place.
#[derive(Clone, Copy, Drop)]
pub(crate) struct GoneEnd {
    pub(crate) state: usize,
    pub(crate) place: usize,
    pub(crate) last: usize,
}

/// What leaves: the forward edge into the state with a number, or an end.
#[derive(Clone, Copy, Drop)]
pub(crate) enum Gone {
    Edge(usize),
    End(GoneEnd),
}

/// What a target is once one has left, if it isn't that one: the last end of the state from which one left has its
/// place.
pub(crate) fn moved(gone: Gone, target: Target) -> Option<Target>
    ensures { result ≡ moved_of gone target }
{
    match (gone, target) {
        (Gone::Edge(left), Target::Edge(state)) => {
            if state == left { None } else { Some(target) }
        }
        (Gone::End(left), Target::End(end)) => moved_end(left, end),
        _ => Some(target),
    }
}

// What an end is once one has left, if it isn't that one.
fn moved_end(left: GoneEnd, end: EndPlace) -> Option<Target>
    ensures { result ≡ moved_end_of left end }
{
    if end.state != left.state {
        return Some(Target::End(end));
    }
    if end.place == left.place {
        return None;
    }
    let place = if end.place == left.last {
        left.place
    } else {
        end.place
    };
    Some(Target::End(EndPlace {
        state: end.state,
        place,
        passes: end.passes,
    }))
}
