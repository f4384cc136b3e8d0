//! The newest version of each key, row by row.
ghost use Rattle.std.specs.Prelude.{◌≡◌, ◌<◌, length, IfOk};
ghost use Rattle.crdt_core.specs.Outcomes.{OnlyWant};
ghost use Rattle.world_history.specs.Table.{version_in, IsFromBefore, AreNewest};
ghost use Rattle.world_history.specs.Checks.{newer_of};

use crate::index::Index;
use crate::rows::{Row, Table, follows_key};
use crdt_core::Memory;
use crdt_rows::Version;
use history_model::{Answer, Record};
use std::alloc::Global;

// The version with which the record at this place acknowledges a write, if it does.
fn version_in(index: &Index<'_>, place: usize) -> Option<Version>
    ensures { result ≡ version_in index.now.records.now place }
{
    match index.records.get(place) {
        Some(
            Record::Finished {
                answer: Answer::Version(version),
                ..
            },
        ) => Some(*version),
        _ => None,
    }
}

// The newer of two versions, of which each may be missing.
fn newer(a: Option<Version>, b: Option<Version>) -> Option<Version>
    ensures { result ≡ newer_of a b }
{
    match (a, b) {
        (Some(a), Some(b)) => Some(if a < b { b } else { a }),
        (None, b) => b,
        (a, None) => a,
    }
}

// The newest version up to the row before the row at k, where that is of the same key.
fn from_before(rows: &[Row], k: usize, newest: Option<Version>) -> Option<Version>
    requires { k < length rows.now }
    ensures { IsFromBefore rows.now k newest result }
{
    if follows_key(rows, k, &rows[k].bucket, &rows[k].key) {
        newest
    } else {
        None
    }
}

/// Of each row the newest version of its key up to that row.
pub fn newest_upto(alloc: Global, table: &Table<'_>) -> Result<Vec<Option<Version>>, Memory>
    ensures told { IfOk result (λ all. AreNewest table.now.index.records.now table.now.rows.items all.items) }
    ensures want { OnlyWant result }
{
    let rows = table.rows.as_slice();
    let mut all = Vec::new(alloc);
    let mut newest = None;
    for k in 0..rows.len() {
        newest = newer(
            from_before(rows, k, newest),
            version_in(&table.index, rows[k].place),
        );
        match all.push(newest) {
            Ok(()) => {}
            Err(_) => return Err(Memory::Want),
        }
    }
    Ok(all)
}
