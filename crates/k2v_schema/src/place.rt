//! Where a row is kept, and its key there.
ghost use Rattle.std.specs.Prelude.{◌≡◌, ◌++◌, IsTrue, IfOk};
ghost use Rattle.crdt_core.specs.Outcomes.{OnlyWant};
ghost use Rattle.row_codec.specs.Reads.{are_bytes};
ghost use Rattle.k2v_schema.specs.Schema.{is_proper, position_of, key_of};

use blake2_hash::{Blake2b, Hash32};
use crdt_core::{Bytes, Memory};
use k2v_rows::K2vRow;
use row_codec::Field;
use std::alloc::Global;

// Bytes in hand are bytes.
fn bytes_in_range(bytes: &[u8])
    ensures { IsTrue (are_bytes bytes.now) }
{
    let _bytes = bytes;
}

/// A row in hand has a place.
pub fn is_placed(row: &K2vRow)
    ensures { IsTrue (is_proper row.now) }
{
    bytes_in_range(&row.bucket.0);
    bytes_in_range(row.pk.as_slice());
}

/// The digest of bucket and partition key.
pub fn position(row: &K2vRow) -> Hash32
    ensures { result.0 ≡ position_of row.now }
{
    let mut hasher = Blake2b::new();
    hasher.update(&row.bucket.0);
    hasher.update(row.pk.as_slice());
    hasher.finish()
}

/// The bucket, the partition key behind its length, and the sort key.
pub fn key(alloc: Global, row: &K2vRow) -> Result<Bytes, Memory>
    ensures is { IfOk result (λ key. key ≡ key_of row.now) }
    ensures want { OnlyWant result }
{
    let mut key = Bytes::from_slice(alloc, &row.bucket.0)?;
    row.pk.put(&mut key)?;
    key.extend_from_slice(row.sk.as_slice())?;
    Ok(key)
}
