//! The phases that requests wait for.
ghost use Rattle.std.specs.Prelude.{◌≡◌, ◌++◌, ◌∷◌, [], IfOk, Some, None};
ghost use Rattle.crdt_core.specs.Outcomes.{OnlyWant};
ghost use Rattle.row_codec.specs.Spelling.{eight};
ghost use Rattle.wire_messages.specs.declared.phase.Phase.TheVariants as phase;
ghost use Rattle.flow_model.specs.Flow.{asks_for, asks_past};
ghost use Rattle.flow_model.specs.Next.{opens, stores};

use blake2_hash::{Hash32, blake2b_256};
use block_bytes::Block;
use crdt_core::{Bytes, List, Memory};
use crdt_rows::{AnyRow, Version};
use flow_model::Name;
use std::alloc::Global;
use wire_messages::Phase;

// The key of an object's row: the digest of the bucket's name, and the object's key.
fn row_key(alloc: Global, bucket: &Hash32, key: &Bytes) -> Result<Bytes, Memory>
    ensures is { IfOk result (λ bytes. bytes ≡ bucket.now.0 ++ key.now) }
    ensures want { OnlyWant result }
{
    let mut bytes = Bytes::from_slice(alloc, &bucket.0)?;
    bytes.extend_from_slice(key.as_slice())?;
    Ok(bytes)
}

/// Asks for an object's row.
pub fn asks_for(alloc: Global, name: &Name) -> Result<Phase<AnyRow>, Memory>
    ensures is { IfOk result (λ phase. phase ≡ asks_for name.now) }
    ensures want { OnlyWant result }
{
    let position = *name.bucket.hash();
    let key = row_key(alloc, &position, &name.key)?;
    let table = 1;
    Ok(Phase::Read {
        table,
        position,
        key,
    })
}

/// Asks for the rows of a bucket whose keys begin with the prefix and are past this key.
pub fn asks_past(
    alloc: Global,
    bucket: &Block,
    prefix: &Bytes,
    after: Bytes,
) -> Result<Phase<AnyRow>, Memory>
    ensures is { IfOk result (λ phase. phase ≡ asks_past bucket.now prefix.now after) }
    ensures want { OnlyWant result }
{
    let position = *bucket.hash();
    let prefix = Bytes::from_slice(alloc, prefix.as_slice())?;
    Ok(Phase::Range {
        position,
        prefix,
        after,
    })
}

// An identifier as 8 bytes, the highest first.
fn id_bytes(id: u64) -> [u8; 8]
    ensures { result ≡ eight id }
{
    id.to_be_bytes()
}

/// Asks for a version's row.
pub fn opens(alloc: Global, version: Version) -> Result<Phase<AnyRow>, Memory>
    ensures is { IfOk result (λ phase. phase ≡ opens version) }
    ensures want { OnlyWant result }
{
    let id = id_bytes(version.id);
    let position = blake2b_256(&id);
    let key = Bytes::from_slice(alloc, &id)?;
    let table = 2;
    Ok(Phase::Read {
        table,
        position,
        key,
    })
}

/// Stores one row alone.
pub fn stores(alloc: Global, row: AnyRow) -> Result<Phase<AnyRow>, Memory>
    ensures is { IfOk result (λ phase. phase ≡ stores row) }
    ensures want { OnlyWant result }
{
    let mut rows = List::new(alloc);
    rows.push((row, None))?;
    Ok(Phase::Store { rows })
}
