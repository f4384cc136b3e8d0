//! Where a row is kept, and its key there.
ghost use Rattle.std.specs.Prelude.{◌≡◌, ◌++◌, IsTrue, IfOk};
ghost use Rattle.crdt_core.specs.Outcomes.{OnlyWant};
ghost use Rattle.row_codec.specs.Range.{is_hash, is_eight};
ghost use Rattle.row_codec.specs.Reads.{are_bytes};
ghost use Rattle.row_codec.specs.Spelling.{eight};
ghost use Rattle.object_schema.specs.Schema.{is_proper, position_of, key_of};

use blake2_hash::{Hash32, blake2b_256};
use crdt_core::{Bytes, Memory};
use crdt_rows::AnyRow;
use std::alloc::Global;

// Bytes in hand are bytes.
fn bytes_in_range(bytes: &[u8])
    ensures { IsTrue (are_bytes bytes.now) }
{
    let _bytes = bytes;
}

// A digest in hand is a digest.
fn hash_in_range(hash: &Hash32)
    ensures { IsTrue (is_hash hash.now) }
{
    bytes_in_range(&hash.0)
}

// An identifier in hand has 8 bytes.
fn id_in_range(id: &u64)
    ensures { IsTrue (is_eight id.now) }
{
    let _id = *id;
}

/// A row in hand has a place.
pub fn is_placed(row: &AnyRow)
    ensures { IsTrue (is_proper row.now) }
{
    match row {
        AnyRow::Object(row) => hash_in_range(&row.get().bucket),
        AnyRow::Version(row) => id_in_range(&row.get().id),
        AnyRow::Ref(row) => {
            hash_in_range(&row.hash);
            id_in_range(&row.id);
        }
    }
}

// An identifier as 8 bytes, the highest first.
fn id_bytes(id: u64) -> [u8; 8]
    ensures { result ≡ eight id }
{
    id.to_be_bytes()
}

/// The bucket of an object, the digest of a version's identifier, the hash of a block.
pub fn position(row: &AnyRow) -> Hash32
    ensures { result.0 ≡ position_of row.now }
{
    match row {
        AnyRow::Object(row) => row.get().bucket,
        AnyRow::Version(row) => blake2b_256(&id_bytes(row.get().id)),
        AnyRow::Ref(row) => row.hash,
    }
}

fn joined(alloc: Global, front: &[u8], back: &[u8]) -> Result<Bytes, Memory>
    ensures is { IfOk result (λ bytes. bytes ≡ front.now ++ back.now) }
    ensures want { OnlyWant result }
{
    let mut bytes = Bytes::from_slice(alloc, front)?;
    bytes.extend_from_slice(back)?;
    Ok(bytes)
}

/// Bucket and key of an object, a version's identifier, a block's hash and a version's identifier.
pub fn key(alloc: Global, row: &AnyRow) -> Result<Bytes, Memory>
    ensures is { IfOk result (λ key. key ≡ key_of row.now) }
    ensures want { OnlyWant result }
{
    match row {
        AnyRow::Object(row) => {
            let row = row.get();
            joined(alloc, &row.bucket.0, row.key.as_slice())
        }
        AnyRow::Version(row) => Bytes::from_slice(alloc, &id_bytes(row.get().id)),
        AnyRow::Ref(row) => joined(alloc, &row.hash.0, &id_bytes(row.id)),
    }
}
