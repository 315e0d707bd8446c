//! The canonical text of sources.
ghost use Rattle.std.specs.Prelude.{◌≡◌, ◌++◌, OnOk, map};
ghost use Rattle.cel_grammar.specs.Views.{agg_of, pred_of, source_of};
ghost use Rattle.cel_print.specs.Parts.{condition_text, iteration_text, source_text};

use crate::appending::{append, close_unless, open_unless};
use crate::items::{append_aggs, append_items};
use crate::places::{PredPlace, SourcePlace, takes_link};
use crate::predicates::append_pred;
use cel_grammar::{Agg, RawPred, Source};
use event_types::Memory;

/// Puts a source behind a text, in parentheses where it may not stand at this place as it is.
pub(crate) fn append_source(
    text: &mut Vec<u8>,
    place: SourcePlace,
    source: &Source,
) -> Result<(), Memory>
    ensures { OnOk result (text.new.items ≡ text.old.items ++ source_text place (source_of source.now)) }
{
    match source {
        Source::Name(name) => append(text, name.as_str().as_bytes()),
        Source::Filter(condition, inner) => {
            append(text, b"FILTER {")?;
            append_pred(text, PredPlace::Pred, condition)?;
            append(text, b"} ")?;
            append_source(text, SourcePlace::Term, inner)
        }
        Source::Select(items, inner) => {
            append(text, b"(SELECT")?;
            append_items(text, items.as_slice())?;
            append(text, b" FROM ")?;
            append_source(text, SourcePlace::Source, inner)?;
            append(text, b")")
        }
        Source::Union(left, right) => {
            open_unless(text, takes_link(place))?;
            append_source(text, SourcePlace::Source, left)?;
            append(text, b" UNION ")?;
            append_source(text, SourcePlace::Term, right)?;
            close_unless(text, takes_link(place))
        }
        Source::Next(condition, left, right) => {
            open_unless(text, takes_link(place))?;
            append_source(text, SourcePlace::Source, left)?;
            append(text, b" NEXT ")?;
            append_condition(text, condition)?;
            append_source(text, SourcePlace::Term, right)?;
            close_unless(text, takes_link(place))
        }
        Source::Fold(choose, on, aggs, left, right) => {
            open_unless(text, takes_link(place))?;
            append_source(text, SourcePlace::Source, left)?;
            append(text, b" FOLD ")?;
            append_iteration(text, choose, on, aggs.as_slice())?;
            append_source(text, SourcePlace::Term, right)?;
            close_unless(text, takes_link(place))
        }
    }
}

// Puts the condition of a NEXT behind it, but for TRUE.
fn append_condition(text: &mut Vec<u8>, condition: &RawPred) -> Result<(), Memory>
    ensures { OnOk result (text.new.items ≡ text.old.items ++ condition_text (pred_of condition.now)) }
{
    match condition {
        RawPred::True => Ok(()),
        _ => {
            append(text, b"{")?;
            append_pred(text, PredPlace::Pred, condition)?;
            append(text, b"} ")
        }
    }
}

// Puts the conditions and the aggregates of a FOLD behind it.
fn append_iteration(
    text: &mut Vec<u8>,
    choose: &RawPred,
    on: &RawPred,
    aggs: &[Agg],
) -> Result<(), Memory>
    ensures { OnOk result (text.new.items ≡ text.old.items ++ iteration_text (pred_of choose.now) (pred_of on.now) (map agg_of aggs.now)) }
{
    append(text, b"{")?;
    append_pred(text, PredPlace::Pred, choose)?;
    append(text, b", ")?;
    append_pred(text, PredPlace::Pred, on)?;
    append_aggs(text, aggs)?;
    append(text, b"} ")
}
