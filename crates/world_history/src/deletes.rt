//! The deletes of a history, by their keys and in the order in which they began.
ghost use Rattle.std.specs.Prelude.{◌≡◌, ◌<◌, length, IfOk};
ghost use Rattle.crdt_core.specs.Outcomes.{OnlyWant};
ghost use Rattle.world_history.specs.Table.{delete_at, AreDeletes};
ghost use Rattle.world_history.specs.Checks.{deletes_at};

use crate::finish::acknowledged;
use crate::index::Index;
use crate::rows::Row;
use crdt_core::{Bytes, Memory};
use crdt_rows::Version;
use history_model::Record;
use std::alloc::Global;

// The row of the delete that began at this place, if one did.
fn delete_row(alloc: Global, index: &Index<'_>, place: usize) -> Result<Option<Row>, Memory>
    requires { place < length index.now.records.now }
    ensures told { IfOk result (λ row. row ≡ delete_at index.now.records.now place) }
    ensures want { OnlyWant result }
{
    match &index.records[place] {
        Record::Began {
            kind,
            bucket,
            key,
            ..
        } if kind.is_delete() => Ok(Some(Row {
            bucket: Bytes::from_slice(alloc, bucket.as_slice())?,
            key: Bytes::from_slice(alloc, key.as_slice())?,
            place,
        })),
        _ => Ok(None),
    }
}

/// The rows of all deletes, in order.
pub fn all_deletes(alloc: Global, index: &Index<'_>) -> Result<Vec<Row>, Memory>
    ensures told { IfOk result (λ rows. AreDeletes index.now.records.now rows.items) }
    ensures want { OnlyWant result }
{
    let mut rows = Vec::new(alloc);
    for place in 0..index.records.len() {
        if let Some(row) = delete_row(alloc, index, place)? {
            match rows.push(row) {
                Ok(()) => {}
                Err(_) => return Err(Memory::Want),
            }
        }
    }
    rows.sort_unstable();
    Ok(rows)
}

/// Whether a delete of the key began at this place which wasn't acknowledged with a version below w.
pub fn deletes_at(index: &Index<'_>, bucket: &Bytes, key: &Bytes, w: Version, place: usize) -> bool
    requires { place < length index.now.records.now }
    ensures { result ≡ deletes_at index.now.records.now bucket.now key.now w place }
{
    match &index.records[place] {
        Record::Began {
            request,
            kind,
            bucket: place_bucket,
            key: place_key,
            ..
        } if kind.is_delete() && place_key == key && place_bucket == bucket => {
            match acknowledged(index, place, *request) {
                Some((_, version)) => !(version < w),
                None => true,
            }
        }
        _ => false,
    }
}
