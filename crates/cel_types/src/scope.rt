//! Where a scalar stands, and which attributes it can have there.
ghost use Rattle.std.specs.Prelude.{◌≡◌, ◌++◌, IfOk};
ghost use Rattle.std.specs.Option.{option_map};
ghost use Rattle.semantics.specs.Scalars.{Binding, Event};
ghost use Rattle.cel_types.specs.Scopes.{attribute, named, written};
ghost use Rattle.cel_types.specs.Views.{scope_of, typed_of};

use cel_grammar::Mark;
use event_types::{Kind, Memory, Text};
use scalar_expr::Scalar;
use std::alloc::Global;
use stream_schema::Schema;

/// The schemas that a scalar is over.
#[derive(Clone, Copy)]
pub enum Scope<'a> {
    /// In FILTER and SELECT: attributes of the tuple, without a mark.
    Alone(&'a Schema),
    /// In NEXT: `$1` and the left schema, `$2` and the right one.
    Sequence(&'a Schema, &'a Schema),
    /// In FOLD: `$` and the binding's schema, `$2` and the event's.
    Iteration(&'a Schema, &'a Schema),
}

impl Scope<'_> {
    /// The attribute that a mark and a name mean, with its kind. Takes no memory.
    pub fn find(&self, mark: Mark, name: &str) -> Option<(Scalar, Kind)>
        ensures { option_map typed_of result ≡ attribute (scope_of self.now) mark name.now }
    {
        match (self, mark) {
            (Scope::Alone(schema), Mark::Bare) => of_event(schema, name),
            (Scope::Sequence(left, _), Mark::First) => of_binding(left, name),
            (Scope::Sequence(_, right), Mark::Second) => of_event(right, name),
            (Scope::Iteration(binding, _), Mark::So) => of_binding(binding, name),
            (Scope::Iteration(_, event), Mark::Second) => of_event(event, name),
            _ => None,
        }
    }
}

/// An attribute as it is written, with its mark.
pub fn spelled(alloc: Global, mark: Mark, name: &str) -> Result<Text, Memory>
    ensures { IfOk result (λ text. text ≡ written mark name.now) }
{
    match mark {
        Mark::Bare => Text::make(alloc, name),
        Mark::First => marked(alloc, "$1.", name),
        Mark::Second => marked(alloc, "$2.", name),
        Mark::So => marked(alloc, "$.", name),
    }
}

// The attribute of this name, of the event.
fn of_event(schema: &Schema, name: &str) -> Option<(Scalar, Kind)>
    ensures { option_map typed_of result ≡ named Event schema.now name.now }
{
    let place = schema.find(name)?;
    Some((Scalar::Event(place), schema.kind(place)))
}

// The attribute of this name, of the binding.
fn of_binding(schema: &Schema, name: &str) -> Option<(Scalar, Kind)>
    ensures { option_map typed_of result ≡ named Binding schema.now name.now }
{
    let place = schema.find(name)?;
    Some((Scalar::Binding(place), schema.kind(place)))
}

// A mark, and the name behind it.
fn marked(alloc: Global, mark: &str, name: &str) -> Result<Text, Memory>
    ensures { IfOk result (λ text. text ≡ mark.now ++ name.now) }
{
    let text = format!(in alloc; "{mark}{name}")?;
    Text::make(alloc, text.as_str())
}
