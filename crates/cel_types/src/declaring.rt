//! The schemas of declarations.
ghost use Rattle.std.specs.Prelude.{◌≡◌, ◌≢◌, ◌≤◌, IfOk, IfErr, OnOk, length, map};
ghost use Rattle.std.specs.List.{list_any};
ghost use Rattle.std.specs.Str.{bytes_eq};
ghost use Rattle.cel_grammar.specs.Views.{column_of, statement_of};
ghost use Rattle.cel_types.specs.Declarations.{AreDistinct, FailsToDeclare, IsDeclared, attrs_of};
ghost use Rattle.cel_types.specs.Statements.{Declares, FailsAsDeclaration, IsDeclaration};

use crate::fault::TypeFault;
use cel_grammar::{Attr, Statement};
use event_types::Copied;
use std::alloc::Global;
use stream_schema::Schema;

/// The schema of a STREAM statement: its attributes, in order.
pub fn declare(alloc: Global, statement: &Statement) -> Result<Schema, TypeFault>
    requires { IsDeclaration (statement_of statement.now) }
    ensures ok { IfOk result (λ schema. Declares (statement_of statement.now) schema) }
    ensures err { IfErr result (λ fault. fault ≢ TypeFault.Memory → FailsAsDeclaration (statement_of statement.now) fault) }
{
    match statement {
        Statement::Stream { attrs, .. } => declared(alloc, attrs.as_slice()),
        Statement::Query { .. } => unreachable!(),
    }
}

// The schema of these attributes.
fn declared(alloc: Global, attrs: &[Attr]) -> Result<Schema, TypeFault>
    ensures ok { IfOk result (λ schema. IsDeclared (map column_of attrs.now) schema) }
    ensures err { IfErr result (λ fault. fault ≢ TypeFault.Memory → FailsToDeclare (map column_of attrs.now) fault) }
{
    test_names(alloc, attrs)?;
    if attrs.len() > Schema::MOST {
        return Err(TypeFault::TooWide { count: attrs.len() });
    }
    with_all(alloc, attrs)
}

// Tests that no two attributes have one name.
fn test_names(alloc: Global, attrs: &[Attr]) -> Result<(), TypeFault>
    ensures ok { OnOk result (AreDistinct (attrs_of (map column_of attrs.now))) }
    ensures err { IfErr result (λ fault. fault ≢ TypeFault.Memory → FailsToDeclare (map column_of attrs.now) fault) }
{
    for (place, attr) in attrs.iter().enumerate() {
        if is_among(&attrs[..place], attr.name.as_str()) {
            return Err(TypeFault::DuplicateAttr {
                name: attr.name.copied(alloc)?,
            });
        }
    }
    Ok(())
}

// Whether one of the attributes has the name.
fn is_among(attrs: &[Attr], name: &str) -> bool
    ensures { result ≡ list_any (λ attr. bytes_eq name.now attr.name) attrs.now }
{
    attrs.iter().any(|attr| name == attr.name.as_str())
}

// The schema of attributes that may stand in one.
fn with_all(alloc: Global, attrs: &[Attr]) -> Result<Schema, TypeFault>
    requires distinct { AreDistinct (attrs_of (map column_of attrs.now)) }
    requires narrow { length attrs.now ≤ 256 }
    ensures ok { IfOk result (λ schema. schema ≡ attrs_of (map column_of attrs.now)) }
    ensures err { IfErr result (λ fault. fault ≡ TypeFault.Memory) }
{
    let mut schema = Schema::new(alloc);
    for attr in attrs {
        if schema.add(attr.name.as_str(), attr.kind).is_err() {
            return Err(TypeFault::Memory);
        }
    }
    Ok(schema)
}
