//! The names that a source reads.
ghost use Rattle.std.specs.Prelude.{◌≡◌, ◌++◌, ◌∷◌, [], IfOk, OnOk};
ghost use Rattle.cel_grammar.specs.Views.{source_of};
ghost use Rattle.cel_types.specs.Statements.{read_names};

use cel_grammar::Source;
use event_types::{Copied, List, Memory, Names, Text};
use std::alloc::Global;

/// The names that the source reads, from left to right as written; one that is read twice stands there twice.
pub fn names_read(alloc: Global, source: &Source) -> Result<Names, Memory>
    ensures { IfOk result (λ names. names ≡ read_names (source_of source.now)) }
{
    let mut names: Names = List::new(alloc);
    add_names(alloc, source, &mut names)?;
    Ok(names)
}

// Adds the names that the source reads.
fn add_names(alloc: Global, source: &Source, names: &mut Names) -> Result<(), Memory>
    ensures { OnOk result (names.new ≡ names.old ++ read_names (source_of source.now)) }
{
    match source {
        Source::Name(name) => add_name(alloc, name, names),
        Source::Filter(_, inner) => add_names(alloc, inner, names),
        Source::Select(_, inner) => add_names(alloc, inner, names),
        Source::Union(left, right) => {
            add_names(alloc, left, names)?;
            add_names(alloc, right, names)
        }
        Source::Next(_, left, right) => {
            add_names(alloc, left, names)?;
            add_names(alloc, right, names)
        }
        Source::Fold(_, _, _, left, right) => {
            add_names(alloc, left, names)?;
            add_names(alloc, right, names)
        }
    }
}

// Adds one name.
fn add_name(alloc: Global, name: &Text, names: &mut Names) -> Result<(), Memory>
    ensures { OnOk result (names.new ≡ names.old ++ name.now ∷ []) }
{
    match names.push(name.copied(alloc)?) {
        Ok(()) => Ok(()),
        Err(_) => Err(Memory),
    }
}
