//! The attributes that the items of a SELECT make.
ghost use Rattle.std.specs.Prelude.{◌≡◌, ◌≢◌, [], ◌∷◌, ◌++◌, length, map, MatchOption, IfOk, IfErr, OnOk, List, ℕ};
ghost use Rattle.cel_grammar.specs.Trees.{All, Named};
ghost use Rattle.cel_grammar.specs.Views.{item_of, scalar_of};
ghost use Rattle.cel_types.specs.Items.{FailToMake, Make, all_events, names_there};
ghost use Rattle.cel_types.specs.Making.{AreNew, Extends};
ghost use Rattle.scalar_expr.specs.Views.{sc_of};

use crate::attributes::{Attributes, add, has_name};
use crate::fault::TypeFault;
use crate::scalars::scalar;
use crate::scope::Scope;
use cel_grammar::{Item, Raw};
use event_types::{Kind, List, Memory, Text};
use scalar_expr::{Scalar, Scalars};
use std::alloc::Global;
use stream_schema::Schema;

/// What items make: attributes, and a term for each.
#[derive(Drop)]
pub struct Made {
    pub attributes: Attributes,
    pub terms: Scalars,
}

/// What the items make over tuples of the schema.
#[tactic(auto, using(crate::proofs::MakeRules::item_rules))]
pub fn make(alloc: Global, schema: &Schema, items: &[Item]) -> Result<Made, TypeFault>
    ensures ok { IfOk result (λ made. Make schema.now [] (map item_of items.now) made.attributes (map sc_of made.terms)) }
    ensures err { IfErr result (λ fault. fault ≢ TypeFault.Memory → FailToMake schema.now [] (map item_of items.now) fault) }
{
    let mut made = Made {
        attributes: List::new(alloc),
        terms: List::new(alloc),
    };
    for item in items {
        add_item(alloc, schema, &mut made, item)?;
    }
    Ok(made)
}

// Adds what the item makes.
fn add_item(alloc: Global, schema: &Schema, made: &mut Made, item: &Item) -> Result<(), TypeFault>
    ensures ok { OnOk result (Extends schema.now (item_of item.now ∷ []) made.old made.new) }
    ensures err { IfErr result (λ fault. fault ≢ TypeFault.Memory → FailToMake schema.now made.old.attributes (item_of item.now ∷ []) fault) }
{
    match item {
        Item::Star => add_all(alloc, schema, made),
        Item::Named(raw, name) => add_named(alloc, schema, made, raw, name.as_str()),
    }
}

// Adds the scalar under its name.
#[tactic(auto, using(crate::proofs::MakeRules::named_rules))]
fn add_named(
    alloc: Global,
    schema: &Schema,
    made: &mut Made,
    raw: &Raw,
    name: &str,
) -> Result<(), TypeFault>
    ensures ok { OnOk result (Extends schema.now (Named (scalar_of raw.now) name.now ∷ []) made.old made.new) }
    ensures err { IfErr result (λ fault. fault ≢ TypeFault.Memory → FailToMake schema.now made.old.attributes (Named (scalar_of raw.now) name.now ∷ []) fault) }
{
    let (term, kind) = scalar(alloc, &Scope::Alone(schema), raw)?;
    if has_name(made.attributes.as_slice(), name) {
        return Err(duplicate(alloc, name));
    }
    add_one(alloc, made, name, kind, term)?;
    Ok(())
}

// Adds all attributes of the schema.
#[tactic(auto, using(crate::proofs::MakeRules::star_rules))]
fn add_all(alloc: Global, schema: &Schema, made: &mut Made) -> Result<(), TypeFault>
    ensures ok { OnOk result (Extends schema.now (All ∷ []) made.old made.new) }
    ensures err { IfErr result (λ fault. fault ≢ TypeFault.Memory → FailToMake schema.now made.old.attributes (All ∷ []) fault) }
{
    if let Some(name) = first_there(made, schema) {
        return Err(duplicate(alloc, name));
    }
    for place in 0..schema.size() {
        add_one(
            alloc,
            made,
            schema.name(place),
            schema.kind(place),
            Scalar::Event(place),
        )?;
    }
    Ok(())
}

// The first name of the schema that is made already.
fn first_there<'a>(made: &Made, schema: &'a Schema) -> Option<&'a str>
    ensures { MatchOption result (names_there made.now.attributes schema.now ≡ []) (λ name. (names : List (List ℕ)) × (names_there made.now.attributes schema.now ≡ name.now ∷ names)) }
{
    for place in 0..schema.size() {
        let name = schema.name(place);
        if has_name(made.attributes.as_slice(), name) {
            return Some(name);
        }
    }
    None
}

// Adds an attribute and its term.
fn add_one(
    alloc: Global,
    made: &mut Made,
    name: &str,
    kind: Kind,
    term: Scalar,
) -> Result<(), Memory>
    ensures attributes { OnOk result (made.new.attributes ≡ made.old.attributes ++ record { name = name.now; kind = kind } ∷ []) }
    ensures terms { OnOk result (made.new.terms ≡ made.old.terms ++ term ∷ []) }
{
    add(alloc, &mut made.attributes, name, kind)?;
    made.terms.add(term)
}

/// The fault that an attribute stands twice.
pub fn duplicate(alloc: Global, name: &str) -> TypeFault
    ensures { result ≢ TypeFault.Memory → result ≡ TypeFault.DuplicateAttr name.now }
{
    match Text::make(alloc, name) {
        Ok(name) => TypeFault::DuplicateAttr { name },
        Err(_) => TypeFault::Memory,
    }
}
