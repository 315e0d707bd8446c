//! Attributes that no schema has yet, since they may be too many.
ghost use Rattle.std.specs.Prelude.{◌≡◌, ◌≢◌, ◌<◌, ◌≤◌, [], ◌∷◌, ◌++◌, length, None, IfOk, IfErr, OnOk};
ghost use Rattle.cel_types.specs.Making.{AreNew};
ghost use Rattle.stream_schema.specs.Joining.{is_taken};
ghost use Rattle.stream_schema.specs.Schema.{place_of};

use crate::fault::TypeFault;
use event_types::{Kind, List, Memory};
use std::alloc::Global;
use stream_schema::{Attribute, Schema, first_place};

/// Attributes, in order.
pub type Attributes = List<Attribute>;

/// Puts an attribute at the end.
pub fn add(alloc: Global, attributes: &mut Attributes, name: &str, kind: Kind) -> Result<(), Memory>
    ensures { OnOk result (attributes.new ≡ attributes.old ++ record { name = name.now; kind = kind } ∷ []) }
{
    if attributes
        .push(Attribute::make(alloc, name, kind)?)
        .is_err()
    {
        return Err(Memory);
    }
    Ok(())
}

/// Whether an attribute has the name. Takes no memory.
pub fn has_name(attributes: &[Attribute], name: &str) -> bool
    ensures { result ≡ is_taken attributes.now name.now }
{
    first_place(attributes, name).is_some()
}

/// The schema of these attributes, unless they are too many.
pub fn schema_of(alloc: Global, attributes: &[Attribute]) -> Result<Schema, TypeFault>
    requires { AreNew [] attributes.now }
    ensures ok { IfOk result (λ schema. schema ≡ attributes.now) }
    ensures narrow { IfOk result (λ schema. length attributes.now ≤ 256) }
    ensures too_wide { IfErr result (λ fault. fault ≢ TypeFault.Memory → (256 < length attributes.now) × (fault ≡ TypeFault.TooWide (length attributes.now))) }
{
    let count = attributes.len();
    if count > Schema::MOST {
        return Err(TypeFault::TooWide { count });
    }
    let mut schema = Schema::new(alloc);
    for attribute in attributes {
        put(&mut schema, attribute.name(), attribute.kind())?;
    }
    Ok(schema)
}

// Puts an attribute of a new name into a schema that isn't full.
fn put(schema: &mut Schema, name: &str, kind: Kind) -> Result<(), Memory>
    requires new { place_of name.now schema.old ≡ None }
    requires room { length schema.old < 256 }
    ensures { OnOk result (schema.new ≡ schema.old ++ record { name = name.now; kind = kind } ∷ []) }
{
    match schema.add(name, kind) {
        Ok(()) => Ok(()),
        Err(_) => Err(Memory),
    }
}
