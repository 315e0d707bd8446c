//! Where the schemas of a UNION differ.
ghost use Rattle.std.specs.Prelude.{◌≡◌, ◌<◌, ◌≤◌, length, slice_get, Some, IsTrue, ◌⊎◌};
ghost use Rattle.cel_types.specs.Unions.{TellsDifference, difference_from, is_kind, is_same};
ghost use Rattle.stream_schema.specs.Schema.{Attr};

use event_types::Kind;
use stream_schema::Schema;

/// The first place, counted from 1, at which a name or a kind differs or one schema has ended. Takes no
/// memory.
pub fn difference(left: &Schema, right: &Schema) -> Option<usize>
    ensures { result ≡ difference_from 1 left.now right.now }
{
    for place in 0..left.size() {
        if differs_at(left, right, place) {
            return Some(place + 1);
        }
    }
    if left.size() < right.size() {
        return Some(left.size() + 1);
    }
    None
}

// Whether the schemas differ at a place of the left one, or the right one has ended there.
fn differs_at(left: &Schema, right: &Schema, place: usize) -> bool
    requires left { place < length left.now }
    requires right { place ≤ length right.now }
    ensures value { TellsDifference left.now right.now place result }
    ensures within { IsTrue result ⊎ (place < length right.now) }
{
    if place == right.size() {
        return true;
    }
    !is_same_at(left, right, place)
}

// Whether both schemas have one name and one kind at the place.
fn is_same_at(left: &Schema, right: &Schema, place: usize) -> bool
    requires left { place < length left.now }
    requires right { place < length right.now }
    ensures { (a b : Attr) → slice_get left.now place ≡ Some a → slice_get right.now place ≡ Some b → result ≡ is_same a b }
{
    left.name(place) == right.name(place) && is_one_kind(left.kind(place), right.kind(place))
}

// Whether both kinds are one.
fn is_one_kind(left: Kind, right: Kind) -> bool
    ensures { result ≡ is_kind left right }
{
    match (left, right) {
        (Kind::Int, Kind::Int) | (Kind::Text, Kind::Text) => true,
        (Kind::Dec(places), Kind::Dec(others)) => places == others,
        _ => false,
    }
}
