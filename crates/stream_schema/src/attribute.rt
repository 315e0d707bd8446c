//! Attributes.
ghost use Rattle.std.specs.Prelude.{◌≡◌, IfOk};
ghost use Rattle.stream_schema.specs.Schema.{place_of};

use event_types::{Copied, Kind, Memory, Text};
use std::alloc::Global;
use std::marker::Model;

/// An attribute: its name and its kind.
#[derive(Drop)]
pub struct Attribute {
    name: Text,
    kind: Kind,
}

impl Model for Attribute {
    ghost use Rattle.stream_schema.specs.Schema.{Attr};

    ghost Value = { Attr };

    ghost view = { λ a. record { name = a.name; kind = a.kind } };
}

impl Attribute {
    /// The attribute of this name and this kind.
    pub fn make(alloc: Global, name: &str, kind: Kind) -> Result<Attribute, Memory>
        ensures { IfOk result (λ attribute. attribute ≡ record { name = name.now; kind = kind }) }
    {
        let name = Text::make(alloc, name)?;
        Ok(Attribute { name, kind })
    }

    /// Its name. Takes no memory.
    pub fn name(&self) -> &str
        ensures { result.now ≡ self.now.name }
    {
        self.name.as_str()
    }

    /// The kind of its values.
    pub fn kind(&self) -> Kind
        ensures { result ≡ self.now.kind }
    {
        self.kind
    }
}

impl Copied for Attribute {
    fn copied(&self, alloc: Global) -> Result<Self, Memory> {
        Ok(Attribute {
            name: self.name.copied(alloc)?,
            kind: self.kind,
        })
    }
}

/// The place of the first attribute of this name, counted from 0. Takes no memory.
pub fn first_place(attributes: &[Attribute], name: &str) -> Option<usize>
    ensures { result ≡ place_of name.now attributes.now }
{
    attributes
        .iter()
        .position(|attribute| name == attribute.name.as_str())
}
