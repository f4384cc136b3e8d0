//! The rows that a change of a version row calls for.
ghost use Rattle.std.specs.Prelude.{◌≡◌, map, IfOk};
ghost use Rattle.crdt_core.specs.Outcomes.{OnlyWant};
ghost use Rattle.object_schema.specs.Names.{name_cmp};
ghost use Rattle.object_schema.specs.Sets.{keys_of};
ghost use Rattle.object_schema.specs.Triggers.{in_order, released, deleted_reference};

use crate::hashes::BlockName;
use crate::sets::add;
use crdt_core::{Bool, Deletable, Map, Max, Memory};
use crdt_rows::{AnyRow, BlockRef, Part, RefRow, VersionRow};
use std::alloc::Global;

// The different hashes of the blocks.
fn hashes_of(
    alloc: Global,
    blocks: &[(Part, Max<BlockRef>)],
) -> Result<Map<BlockName, Bool>, Memory>
    ensures are { IfOk result
        (λ set. keys_of set ≡ in_order name_cmp (map (λ e. record { 0 = e.1.0.hash }) blocks.now)) }
    ensures want { OnlyWant result }
{
    let mut set = Map::new(alloc);
    for entry in blocks {
        add(&mut set, BlockName(entry.1.0.hash))?;
    }
    Ok(set)
}

fn deleted_references(
    alloc: Global,
    id: u64,
    hashes: &[(BlockName, Bool)],
) -> Result<Vec<AnyRow>, Memory>
    ensures are { IfOk result
        (λ rows. rows.items ≡ map (λ e. deleted_reference id e.0.0) hashes.now) }
    ensures want { OnlyWant result }
{
    let mut rows = Vec::new(alloc);
    for entry in hashes {
        let hash = entry.0.0;
        let deleted = Bool(true);
        rows.push(AnyRow::Ref(RefRow { hash, id, deleted }))?;
    }
    Ok(rows)
}

/// A deleted reference row for each different block of a version row that becomes deleted.
pub fn version_triggers(
    alloc: Global,
    old: &VersionRow,
    new: &VersionRow,
) -> Result<Vec<AnyRow>, Memory>
    ensures are { IfOk result
        (λ rows. rows.items ≡ map (deleted_reference old.now.id) (released old.now new.now)) }
    ensures want { OnlyWant result }
{
    match &new.blocks {
        Deletable::Present(_) => Ok(Vec::new(alloc)),
        Deletable::Deleted => match &old.blocks {
            Deletable::Present(blocks) => {
                let hashes = hashes_of(alloc, blocks.as_slice())?;
                let rows = deleted_references(alloc, old.id, hashes.as_slice())?;
                Ok(rows)
            }
            Deletable::Deleted => Ok(Vec::new(alloc)),
        },
    }
}
