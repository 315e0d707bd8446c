//! Values that are put at the end of others.
ghost use Rattle.std.specs.Prelude.{◌≡◌, ◌++◌, ◌∷◌, [], OnOk};

use event_types::{Copied, Memory, Vals, Value};
use std::alloc::Global;

// Puts an equal value at the end.
#[inline(always)]
pub(crate) fn add_copy(alloc: Global, vals: &mut Vals, value: &Value) -> Result<(), Memory>
    ensures { OnOk result (vals.new ≡ vals.old ++ value.now ∷ []) }
{
    match value {
        Value::Int(number) => vals.add(Value::Int(*number)),
        Value::Text(text) => vals.add(Value::Text(text.copied(alloc)?)),
        _ => add_apart(alloc, vals, value),
    }
}

// The same of any value.
#[inline(never)]
fn add_apart(alloc: Global, vals: &mut Vals, value: &Value) -> Result<(), Memory>
    ensures { OnOk result (vals.new ≡ vals.old ++ value.now ∷ []) }
{
    vals.add(value.copied(alloc)?)
}
