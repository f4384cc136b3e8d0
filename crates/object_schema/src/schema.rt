//! The schema of the object store's rows.
ghost use Rattle.std.specs.Prelude.{◌≡◌, option_map};
ghost use Rattle.object_schema.specs.Laws.{schema_laws};
ghost use Rattle.object_schema.specs.Schema.{only_marker, words};

use crate::object_triggers::object_triggers;
use crate::place;
use crate::version_triggers::version_triggers;
use blake2_hash::Hash32;
use crdt_core::{Bytes, Deletable, Max, Memory};
use crdt_rows::{AnyRow, Body, State, Version};
use row_codec::{decode, encode, length};
use std::alloc::Global;
use table_schema::{RowFault, Schema};

/// The rows of the object store's three tables.
#[derive(Clone, Copy, Debug, PartialEq, Eq)]
pub struct S3Schema;

// The version, where it is the only one and a delete marker.
fn only_marker(entries: &[(Version, Max<State>)]) -> Option<(u64, u64)>
    ensures { result ≡ only_marker entries.now }
{
    match entries {
        [entry] => match &entry.1.0 {
            State::Complete(Body::Marker) => Some((entry.0.ts, entry.0.id)),
            _ => None,
        },
        _ => None,
    }
}

impl Schema for S3Schema {
    type Row = AnyRow;

    ghost words = { words };

    ghost laws = { schema_laws };

    fn table(row: &AnyRow) -> u8 {
        place::is_placed(row);
        row.table()
    }

    fn position(row: &AnyRow) -> Hash32 {
        place::is_placed(row);
        place::position(row)
    }

    fn key(alloc: Global, row: &AnyRow) -> Result<Bytes, Memory> {
        place::is_placed(row);
        place::key(alloc, row)
    }

    fn tombstone(row: &AnyRow) -> bool {
        match row {
            AnyRow::Object(row) => only_marker(row.get().versions.as_slice()).is_some(),
            AnyRow::Version(row) => matches!(row.get().blocks, Deletable::Deleted),
            AnyRow::Ref(row) => row.deleted.0,
        }
    }

    fn live_block(row: &AnyRow) -> Option<Hash32> {
        match row {
            AnyRow::Object(_) | AnyRow::Version(_) => None,
            AnyRow::Ref(row) => { if row.deleted.0 { None } else { Some(row.hash) } }
        }
    }

    fn marker(row: &AnyRow) -> Option<(u64, u64)> {
        match row {
            AnyRow::Object(row) => only_marker(row.get().versions.as_slice()),
            AnyRow::Version(_) | AnyRow::Ref(_) => None,
        }
    }

    fn triggers(alloc: Global, old: &AnyRow, new: &AnyRow) -> Result<Vec<AnyRow>, Memory> {
        match old {
            AnyRow::Object(old) => match new {
                AnyRow::Object(new) => object_triggers(alloc, old.get(), new.get()),
                _ => Ok(Vec::new(alloc)),
            },
            AnyRow::Version(old) => match new {
                AnyRow::Version(new) => version_triggers(alloc, old.get(), new.get()),
                _ => Ok(Vec::new(alloc)),
            },
            AnyRow::Ref(_) => Ok(Vec::new(alloc)),
        }
    }

    fn row_bytes(alloc: Global, row: &AnyRow) -> Result<Bytes, Memory> {
        encode(alloc, row)
    }

    fn row_length(row: &AnyRow) -> Result<usize, Memory> {
        length(row)
    }

    fn row_from(alloc: Global, bytes: &[u8]) -> Result<AnyRow, RowFault> {
        decode(alloc, bytes)
    }
}
