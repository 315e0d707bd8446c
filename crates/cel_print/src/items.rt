//! The canonical text of items and aggregates.
ghost use Rattle.std.specs.Prelude.{◌≡◌, ◌++◌, OnOk, codes, map};
ghost use Rattle.std.specs.List.{flat_map};
ghost use Rattle.cel_grammar.specs.Views.{agg_of, item_of, scalar_of};
ghost use Rattle.cel_print.specs.Parts.{agg_text, item_text, items_text, named_text};
ghost use Rattle.cel_print.specs.SourceWords.{is_own_name};

use crate::appending::append;
use crate::places::ScalarPlace;
use crate::scalars::append_scalar;
use cel_grammar::{Agg, Item, Mark, Raw};
use event_types::{Memory, Text};

/// Puts the items of a SELECT behind it.
pub(crate) fn append_items(text: &mut Vec<u8>, items: &[Item]) -> Result<(), Memory>
    ensures { OnOk result (text.new.items ≡ text.old.items ++ items_text (map item_of items.now)) }
{
    match items {
        [] => Ok(()),
        [first, rest @ ..] => {
            append(text, b" ")?;
            append_item(text, first)?;
            append_further(text, rest)
        }
    }
}

// Puts further items behind the first one.
fn append_further(text: &mut Vec<u8>, items: &[Item]) -> Result<(), Memory>
    ensures { OnOk result (text.new.items ≡ text.old.items ++ flat_map (λ item. codes ", " ++ item_text (item_of item)) items.now) }
{
    for item in items {
        append(text, b", ")?;
        append_item(text, item)?;
    }
    Ok(())
}

// Puts an item behind a text.
fn append_item(text: &mut Vec<u8>, item: &Item) -> Result<(), Memory>
    ensures { OnOk result (text.new.items ≡ text.old.items ++ item_text (item_of item.now)) }
{
    match item {
        Item::Star => append(text, b"*"),
        Item::Named(value, name) => {
            if is_own_name(value, name) {
                append(text, name.as_str().as_bytes())
            } else {
                append_named(text, value, name)
            }
        }
    }
}

// Whether a scalar is an attribute without a mark that has this name.
fn is_own_name(value: &Raw, name: &Text) -> bool
    ensures { result ≡ is_own_name (scalar_of value.now) name.now }
{
    match value {
        Raw::Attr(Mark::Bare, attribute) => attribute == name,
        _ => false,
    }
}

// Puts a scalar under a name behind a text.
fn append_named(text: &mut Vec<u8>, value: &Raw, name: &Text) -> Result<(), Memory>
    ensures { OnOk result (text.new.items ≡ text.old.items ++ named_text (scalar_of value.now) name.now) }
{
    append_scalar(text, ScalarPlace::Scalar, value)?;
    append(text, b" AS ")?;
    append(text, name.as_str().as_bytes())
}

/// Puts aggregates behind a text, each behind a comma.
pub(crate) fn append_aggs(text: &mut Vec<u8>, aggs: &[Agg]) -> Result<(), Memory>
    ensures { OnOk result (text.new.items ≡ text.old.items ++ flat_map agg_text (map agg_of aggs.now)) }
{
    for agg in aggs {
        append(text, b", ")?;
        append_named(text, &agg.value, &agg.name)?;
    }
    Ok(())
}
