//! By which key a waiting state is found.
ghost use Rattle.std.specs.Prelude.{◌≡◌};
ghost use Rattle.std.specs.List.{list_any};
ghost use Rattle.std.specs.Option.{option_map};
ghost use Rattle.scalar_expr.specs.Classes.{class_of, class_of_part};
ghost use Rattle.binding_index.specs.KeyParts.{key_of_part};
ghost use Rattle.stream_readers.specs.Leading.{asks_literal as asks_literal_of, lead_key as lead_key_of};

use binding_index::{KeyPart, first_key};
use event_types::Cmp;
use scalar_expr::{Conj, Part};

/// The key by which a state that waits by this condition is found: `{$2.Name = $1.Name AND $2.Price > 9}` has
/// one. A condition that asks an attribute to equal a literal has none, since that finds fewer states: so
/// `{$2.Kind = 'Open' AND $2.Day = $1.Day}`. Takes no memory.
pub fn lead_key(choose: &Conj) -> Option<KeyPart>
    ensures { option_map key_of_part result ≡ lead_key_of choose.now }
{
    if has_literal(choose) {
        None
    } else {
        first_key(choose)
    }
}

// Whether an attribute has to equal a literal.
fn has_literal(choose: &Conj) -> bool
    ensures { result ≡ list_any (λ part. asks_literal_of (class_of part)) choose.now }
{
    for place in 0..choose.size() {
        if asks_literal(choose.part(place)) {
            return true;
        }
    }
    false
}

// Whether a part asks that an attribute equals a literal.
fn asks_literal(part: Part<'_>) -> bool
    ensures { result ≡ asks_literal_of (class_of_part part.entry) }
{
    match part {
        Part::Fixed { cmp: Cmp::Eq, .. } => true,
        _ => false,
    }
}
