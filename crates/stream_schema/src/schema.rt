//! Schemas.
ghost use Rattle.std.specs.Prelude.{◌≡◌, ◌<◌, ◌↔◌, [], ◌∷◌, ◌++◌, length, slice_get, Some, None, IfOk, IfErr, OnOk, OnErr, IfSome, Contains};
ghost use Rattle.stream_schema.specs.Faults.{Tells};
ghost use Rattle.stream_schema.specs.Schema.{IsSchema, kinds_of, names_of, place_of};

use crate::attribute::{Attribute, first_place};
use crate::fault::SchemaFault;
use event_types::{Copied, Kind, Kinds, List, Memory};
use std::alloc::Global;
use std::marker::Model;

/// The columns of a stream, in order: attributes with distinct names, at most 256.
#[derive(Drop)]
pub struct Schema {
    alloc: Global,
    attributes: List<Attribute>,
}

impl Model for Schema {
    ghost use Rattle.std.specs.Prelude.{List};
    ghost use Rattle.stream_schema.specs.Schema.{Attr, IsSchema};

    ghost Value = { List Attr };

    ghost view = { λ s. s.attributes };

    ghost invariant = { λ s. IsSchema s.attributes };
}

impl Schema {
    /// The greatest number of attributes.
    pub const MOST: usize = 256;

    /// A schema without attributes. Takes no memory.
    pub fn new(alloc: Global) -> Schema
        ensures { result ≡ [] }
    {
        Schema {
            alloc,
            attributes: List::new(alloc),
        }
    }

    /// The number of attributes.
    pub fn size(&self) -> usize
        ensures value { result ≡ length self.now }
        ensures is_schema { IsSchema self.now }
    {
        self.attributes.len()
    }

    /// The name of the attribute at a place, counted from 0. Takes no memory.
    pub fn name(&self, place: usize) -> &str
        requires { place < length self.now }
        ensures { slice_get (names_of self.now) place ≡ Some result.now }
    {
        self.attributes.get(place).name()
    }

    /// The kind of the attribute at a place, counted from 0.
    pub fn kind(&self, place: usize) -> Kind
        requires { place < length self.now }
        ensures { slice_get (kinds_of self.now) place ≡ Some result }
    {
        self.attributes.get(place).kind()
    }

    /// The kinds of the attributes, in order.
    pub fn kinds(&self, alloc: Global) -> Result<Kinds, Memory>
        ensures { IfOk result (λ kinds. kinds ≡ kinds_of self.now) }
    {
        let mut kinds = List::new(alloc);
        for attribute in self.attributes.as_slice() {
            kinds.add(attribute.kind())?;
        }
        Ok(kinds)
    }

    /// The place of the attribute of this name, from 0. Takes no memory.
    pub fn find(&self, name: &str) -> Option<usize>
        ensures value { result ≡ place_of name.now self.now }
        ensures found { IfSome result (λ place. slice_get (names_of self.now) place ≡ Some name.now) }
        ensures within { IfSome result (λ place. place < length self.now) }
        ensures absent { (result ≡ None) ↔ ¬ Contains (names_of self.now) name.now }
    {
        first_place(self.attributes.as_slice(), name)
    }

    /// Puts an attribute at the end.
    pub fn add(&mut self, name: &str, kind: Kind) -> Result<(), SchemaFault>
        requires { place_of name.now self.old ≡ None }
        ensures ok { OnOk result (self.new ≡ self.old ++ record { name = name.now; kind = kind } ∷ []) }
        ensures too_wide { (result ≡ Err (SchemaFault.TooWide 257)) ↔ (length self.old ≡ 256) }
        ensures err { IfErr result (Tells 257) }
        ensures kept { OnErr result (self.new ≡ self.old) }
    {
        if self.size() == Schema::MOST {
            return Err(SchemaFault::TooWide {
                count: Schema::MOST + 1,
            });
        }
        let attribute = Attribute::make(self.alloc, name, kind)?;
        self.attributes.add(attribute)?;
        Ok(())
    }
}

impl Copied for Schema {
    fn copied(&self, alloc: Global) -> Result<Self, Memory> {
        Ok(Schema {
            alloc,
            attributes: self.attributes.copied(alloc)?,
        })
    }
}
