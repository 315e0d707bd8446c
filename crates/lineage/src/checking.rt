//! Whether a derivation derives a tuple.
ghost use Rattle.std.specs.Prelude.{◌<◌, ◌↔◌, IfOk, IsTrue, length};
ghost use Rattle.std.specs.List.{All};
ghost use Rattle.semantics.specs.Programs.{IsUnborn};
ghost use Rattle.semantics.specs.TypedPrograms.{HaveTheirKinds};
ghost use Rattle.cel_types.specs.SourceLaws.{kinds_in};
ghost use Rattle.catalogue.specs.Catalogued.{program_in, query_in};
ghost use Rattle.derivations.specs.Derives.{Derives};
ghost use Rattle.derivations.specs.HeardLines.{events_of};
ghost use Rattle.derivations.specs.Views.{derivation_of};

use crate::tables::work_out;
use catalogue::Catalogue;
use derivations::{Deriv, History, is_listed};
use event_types::{Memory, Tuple};
use std::alloc::Global;
use steps::{Ledger, Steps};

/// Whether the derivation derives the tuple of the query with this number, over the whole history.
pub fn check<L: Ledger>(
    alloc: Global,
    catalogue: &Catalogue,
    history: &History,
    query: usize,
    tuple: &Tuple,
    deriv: &Deriv,
    steps: &mut Steps<L>,
) -> Result<bool, Memory>
    requires unborn { All IsUnborn (program_in catalogue.now).queries }
    requires kinds { HaveTheirKinds (kinds_in catalogue.now.streams) (events_of history.now) }
    requires query { query < length catalogue.now.order }
    ensures { IfOk result (λ is. IsTrue is ↔ Derives (program_in catalogue.now) (events_of history.now) (query_in catalogue.now query).expr (derivation_of deriv.now) tuple.now) }
{
    let streams = work_out(alloc, catalogue, history.as_slice(), steps)?;
    let found = streams.get(catalogue.stream_of(query));
    Ok(is_listed(found.as_slice(), tuple, deriv))
}
