//! The fronts of result lines.
ghost use Rattle.std.specs.Prelude.{◌≡◌, IfOk};
ghost use Rattle.std.specs.List.{list_any};
ghost use Rattle.result_text.specs.Front.{front_of};
ghost use Rattle.semantics.specs.Report.{is_special, quoted};

use crate::tails::quote;
use event_types::{List, Memory};
use smallvec::SmallVec;
use std::alloc::Global;
use std::marker::Model;

/// The front of a query's result lines: its name, quoted where it has to be, and a comma. A front of up to 24 bytes
/// stands in place; a longer one stands on the heap.
#[derive(Drop)]
pub struct Front {
    bytes: SmallVec<u8, 24>,
}

impl Model for Front {
    ghost use Rattle.std.specs.Prelude.{List, ℕ};

    ghost Value = { List ℕ };

    ghost view = { λ f. f.bytes.items };
}

/// The fronts of queries, in the order of their numbers.
pub type Fronts = List<Front>;

impl Front {
    /// The front of the result lines of the query `name`.
    pub fn of(alloc: Global, name: &str) -> Result<Front, Memory>
        ensures { IfOk result (λ front. front ≡ front_of name.now) }
    {
        let mut bytes = field_of(alloc, name.as_bytes())?;
        bytes.push(b',')?;
        Ok(Front { bytes })
    }

    /// The bytes of the front.
    #[inline(always)]
    pub(crate) fn as_slice(&self) -> &[u8]
        ensures { result.now ≡ self.now }
    {
        self.bytes.as_slice()
    }
}

// A text as a field, which is copied where no byte of it calls for quotes.
fn field_of(alloc: Global, text: &[u8]) -> Result<SmallVec<u8, 24>, Memory>
    ensures { IfOk result (λ field. field.items ≡ quoted text.now) }
{
    if needs_quotes(text) {
        let field = quote(alloc, text)?;
        return Ok(SmallVec::from_slice(alloc, field.as_slice())?);
    }
    Ok(SmallVec::from_slice(alloc, text)?)
}

// Whether a text as a field needs quotes.
fn needs_quotes(text: &[u8]) -> bool
    ensures { result ≡ list_any is_special text.now }
{
    text.iter().any(|byte| is_special(*byte))
}

/// Whether a byte of a text calls for quotes.
#[inline(always)]
pub(crate) fn is_special(byte: u8) -> bool
    ensures { result ≡ is_special byte }
{
    byte == b',' || byte == b'"' || byte == b'\r' || byte == b'\n'
}
