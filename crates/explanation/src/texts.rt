//! The text of the results.
ghost use Rattle.std.specs.Prelude.{◌≡◌, ◌++◌, IfOk, OnOk, string_bytes};
ghost use Rattle.std.specs.List.{All, flat_map};
ghost use Rattle.semantics.specs.Programs.{IsUnborn};
ghost use Rattle.semantics.specs.TypedPrograms.{HaveTheirKinds};
ghost use Rattle.cel_types.specs.SourceLaws.{kinds_in};
ghost use Rattle.catalogue.specs.Catalogued.{program_in};
ghost use Rattle.derivations.specs.HeardLines.{events_of};
ghost use Rattle.explanation.specs.Explained.{IsExplanation, explained_text};
ghost use Rattle.explanation.specs.Telling.{CanBeTold};

use crate::results::{Explained, in_order};
use catalogue::Catalogue;
use derivations::{History, deriv_text};
use event_types::Memory;
use lineage::derive;
use result_text::row;
use std::alloc::Global;
use steps::{Ledger, Steps};

/// The text of all results over a history: by detection and then by queries, each result line and, behind two spaces on a
/// line of its own, the numbers of the event lines that made it.
pub fn explain<L: Ledger>(
    alloc: Global,
    catalogue: &Catalogue,
    history: &History,
    steps: &mut Steps<L>,
) -> Result<String, Memory>
    requires unborn { All IsUnborn (program_in catalogue.now).queries }
    requires kinds { HaveTheirKinds (kinds_in catalogue.now.streams) (events_of history.now) }
    ensures { IfOk result (λ text. IsExplanation (program_in catalogue.now) history.now (string_bytes text)) }
{
    let table = derive(alloc, catalogue, history, steps)?;
    let results = in_order(alloc, table)?;
    tell(alloc, catalogue, history, results.as_slice())
}

// The text of results.
fn tell(
    alloc: Global,
    catalogue: &Catalogue,
    history: &History,
    results: &[Explained],
) -> Result<String, Memory>
    requires { All (CanBeTold (program_in catalogue.now) history.now) results.now }
    ensures { IfOk result (λ text. string_bytes text ≡ flat_map (explained_text (program_in catalogue.now) history.now) results.now) }
{
    let mut text = String::new(alloc);
    for told in results {
        append_result(alloc, &mut text, catalogue, history, told)?;
    }
    Ok(text)
}

// Puts a result behind a text.
fn append_result(
    alloc: Global,
    text: &mut String,
    catalogue: &Catalogue,
    history: &History,
    told: &Explained,
) -> Result<(), Memory>
    requires { CanBeTold (program_in catalogue.now) history.now told.now }
    ensures { OnOk result (string_bytes text.new ≡ string_bytes text.old ++ explained_text (program_in catalogue.now) history.now told.now) }
{
    let name = catalogue.streams().name(catalogue.stream_of(told.query));
    let line = row(alloc, name, &told.derived.tuple)?;
    let by = deriv_text(alloc, &told.derived.deriv, history)?;
    text.push_str(line.as_str())?;
    text.push_str("  ")?;
    text.push_str(by.as_str())?;
    text.push_str("\n")?;
    Ok(())
}
