//! By what the targets of a stream are known.
ghost use Rattle.std.specs.Prelude.{◌≡◌};
ghost use Rattle.stream_readers.specs.Naming.{gone_name as gone_name_of, last_name as last_name_of, name_of as name_of_target};

use crate::leaving::Gone;
use crate::target::Target;

/// The name of a target: of an edge the number of the state that it leads to, of an end that of its state and its place
/// there.
#[derive(Clone, Copy, PartialEq, Eq, Hash, Drop)]
pub(crate) struct Name {
    pub(crate) state: usize,
    pub(crate) end: Option<usize>,
}

/// The name of a target.
pub(crate) fn name_of(target: Target) -> Name
    ensures { result ≡ name_of_target target }
{
    match target {
        Target::Edge(state) => Name { state, end: None },
        Target::End(end) => Name {
            state: end.state,
            end: Some(end.place),
        },
    }
}

/// The name of the target that leaves.
pub(crate) fn gone_name(gone: Gone) -> Name
    ensures { result ≡ gone_name_of gone }
{
    match gone {
        Gone::Edge(state) => Name { state, end: None },
        Gone::End(left) => Name {
            state: left.state,
            end: Some(left.place),
        },
    }
}

/// The name of the last end of the state from which one leaves; of an edge that leaves its own.
pub(crate) fn last_name(gone: Gone) -> Name
    ensures { result ≡ last_name_of gone }
{
    match gone {
        Gone::Edge(state) => Name { state, end: None },
        Gone::End(left) => Name {
            state: left.state,
            end: Some(left.last),
        },
    }
}
