//! The schema of NEXT.
ghost use Rattle.std.specs.Prelude.{◌≡◌, ◌+◌, ◌<◌, ◌↔◌, length, string_bytes, IfOk, IfErr, OnOk};
ghost use Rattle.stream_schema.specs.Faults.{Tells};
ghost use Rattle.stream_schema.specs.Joining.{IsLeastSuffix, joined_schema, suffix_of, suffixed, with_free};
ghost use Rattle.stream_schema.specs.Schema.{names_of};

use crate::fault::SchemaFault;
use crate::schema::Schema;
use event_types::{Copied, Kind, Memory};
use std::alloc::Global;

/// The schema of `left NEXT right`: the left attributes, then the right ones. A right attribute whose name
/// is already there gets the suffix `_n` with the least `n` of at least 2 that makes it free:
/// `(a)` with `(a, a_2)` gives `(a, a_2, a_2_2)`.
pub fn join(alloc: Global, left: &Schema, right: &Schema) -> Result<Schema, SchemaFault>
    ensures ok { IfOk result (λ schema. schema ≡ joined_schema left.now right.now) }
    ensures too_wide { (result ≡ Err (SchemaFault.TooWide (length left.now + length right.now))) ↔ (256 < length left.now + length right.now) }
    ensures err { IfErr result (Tells (length left.now + length right.now)) }
{
    let count = left.size() + right.size();
    if count > Schema::MOST {
        return Err(SchemaFault::TooWide { count });
    }
    let mut schema = left.copied(alloc)?;
    for place in 0..right.size() {
        add_freely(alloc, &mut schema, right.name(place), right.kind(place))?;
    }
    Ok(schema)
}

// Puts an attribute at the end, under a name that is free.
fn add_freely(alloc: Global, schema: &mut Schema, name: &str, kind: Kind) -> Result<(), SchemaFault>
    requires { length schema.old < 256 }
    ensures ok { OnOk result (schema.new ≡ with_free schema.old (record { name = name.now; kind = kind })) }
    ensures err { IfErr result (λ fault. fault ≡ SchemaFault.Memory) }
{
    if schema.find(name).is_none() {
        return schema.add(name, kind);
    }
    let longer = lengthened(alloc, schema, name)?;
    schema.add(longer.as_str(), kind)
}

// The name with its suffix, which no attribute has.
#[tactic(auto, using(crate::proofs::SuffixLemmas::suffix_least))]
fn lengthened(alloc: Global, schema: &Schema, name: &str) -> Result<String, Memory>
    ensures value { IfOk result (λ longer. string_bytes longer ≡ suffixed name.now (suffix_of schema.now name.now)) }
    ensures suffix { IsLeastSuffix schema.now name.now (suffix_of schema.now name.now) }
{
    let last = schema.size() + 2;
    for number in 2..last {
        let longer = with_suffix(alloc, name, number)?;
        if schema.find(longer.as_str()).is_none() {
            return Ok(longer);
        }
    }
    with_suffix(alloc, name, last)
}

// The name with a number behind it.
fn with_suffix(alloc: Global, name: &str, number: usize) -> Result<String, Memory>
    ensures { IfOk result (λ longer. string_bytes longer ≡ suffixed name.now number) }
{
    let longer = format!(in alloc; "{name}_{number}")?;
    Ok(longer)
}
