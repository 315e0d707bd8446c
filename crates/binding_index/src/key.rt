//! The key of a condition.
ghost use Rattle.std.specs.Prelude.{◌≡◌};
ghost use Rattle.std.specs.Option.{option_map};
ghost use Rattle.binding_index.specs.KeyParts.{first_key as first_key_of, key_in, key_of_part};
ghost use Rattle.scalar_expr.specs.Classes.{class_of_part};

use scalar_expr::{Conj, Part};

/// The key of a condition: the attribute of the event at one place equals that of the binding at the
/// other. Places are counted from 0.
#[derive(Clone, Copy)]
pub struct KeyPart {
    pub event: usize,
    pub binding: usize,
}

/// The first key part of a condition. Takes no memory.
pub fn first_key(condition: &Conj) -> Option<KeyPart>
    ensures { option_map key_of_part result ≡ first_key_of condition.now }
{
    let mut place = 0;
    while place < condition.size() {
        let key = key_of(condition.part(place));
        if key.is_some() {
            return key;
        }
        place += 1;
    }
    None
}

// The key of a part, where it is a key part.
fn key_of(part: Part<'_>) -> Option<KeyPart>
    ensures { option_map key_of_part result ≡ key_in (class_of_part part.entry) }
{
    match part {
        Part::Key { event, binding } => Some(KeyPart { event, binding }),
        _ => None,
    }
}
