//! Entries by key.
ghost use Rattle.std.specs.Prelude.{◌≡◌, IfNone, IfSome, None};
ghost use Rattle.std.specs.List.{IsDistinct};
ghost use Rattle.std.specs.Map.{keys_of, lookup};
ghost use Rattle.binding_index.specs.Among.{is_key};
ghost use Rattle.binding_index.specs.Entries.{IsKeptAt};

use event_types::Value;
use indexmap::IndexMap;

/// The place of the entry of a key. Takes no memory.
pub(crate) fn place_of<V>(kept: &IndexMap<Value, V>, key: &Value) -> Option<usize>
    ensures found { IfSome result (IsKeptAt kept.now.entries key.now) }
    ensures absent { IfNone result (lookup (is_key key.now) kept.now.entries ≡ None) }
    ensures distinct { IsDistinct is_key (keys_of kept.now.entries) }
{
    // `len` is called for its clause that no key comes twice
    let _len = kept.len();
    let (place, _, _) = kept.get_full(key)?;
    Some(place)
}
