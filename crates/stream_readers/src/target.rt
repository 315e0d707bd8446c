//! Where a tuple of a root's stream may go.
ghost use Rattle.std.specs.Prelude.{◌≡◌};
ghost use Rattle.stream_readers.specs.Targets.{end_by as end_by_of, only_fixed as only_fixed_of};

use automaton::{Stage, Step};
use event_types::List;

/// The place of an end: the number of its state, and its place among the ends there, counted from 0; and whether a tuple
/// for which the fixed parts at the head of the step all hold passes the whole step as it is.
#[derive(Clone, Copy, Drop)]
pub struct EndPlace {
    pub state: usize,
    pub place: usize,
    pub passes: bool,
}

/// A way out of a root: by a forward edge into the state with a number, or out by an end.
#[derive(Clone, Copy, Drop)]
pub enum Target {
    Edge(usize),
    End(EndPlace),
}

/// Targets of a tuple.
pub type Targets = List<Target>;

/// The end at a place of a state, with this step, as a target.
pub(crate) fn end_by(state: usize, place: usize, step: &Step) -> Target
    ensures { result ≡ end_by_of state place step.now }
{
    let passes = only_fixed(step);
    Target::End(EndPlace {
        state,
        place,
        passes,
    })
}

// Whether a step asks nothing but fixed parts, and changes nothing.
fn only_fixed(step: &Step) -> bool
    ensures { result ≡ only_fixed_of step.now }
{
    match step.as_slice() {
        [] => true,
        [Stage::Keep(condition)] => condition.is_fixed(),
        _ => false,
    }
}
