//! Sets of values, as maps whose keys they are.
ghost use Rattle.std.specs.Prelude.{◌≡◌, OnOk, OnErr};
ghost use Rattle.crdt_core.specs.Outcomes.{OnlyWant};
ghost use Rattle.object_schema.specs.Sets.{keys_of};
ghost use Rattle.object_schema.specs.Triggers.{with_value};

use crdt_core::{Bool, Map, Memory, Value};

/// Puts a value into a set.
pub fn add<K: Value>(set: &mut Map<K, Bool>, value: K) -> Result<(), Memory>
    ensures ok { OnOk result (keys_of set.new ≡ with_value K.cmp value (keys_of set.old)) }
    ensures want { OnlyWant result }
{
    set.join_at(value, &Bool(true))?;
    Ok(())
}
