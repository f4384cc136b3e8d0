//! Rows in few words, which the tests share.
use blake2_hash::Hash32;
use crdt_core::{Bool, Bytes, Crdt, Deletable, List, Map, Max, Memory};
use crdt_rows::{
    AnyRow, BlockRef, Body, Meta, ObjectRow, Part, RefRow, State, Version, VersionRow,
};
use std::alloc::Global;

pub const BUCKET: Hash32 = Hash32([0x22; 32]);

/// A row.
#[derive(Clone, Copy)]
pub enum Made {
    /// The row of an object with one version: its key, timestamp, identifier and state.
    Object(&'static [u8], u64, u64, Shape),
    /// The row of a version with these blocks: its identifier, and the offset of each and the byte that its name repeats.
    Blocks(u64, &'static [(u64, u8)]),
    /// The row of a version that is deleted.
    Deleted(u64),
    /// A version's reference to the block whose name repeats a byte, and whether it is deleted.
    Reference(u8, u64, bool),
}

/// The state of a version.
#[derive(Clone, Copy)]
pub enum Shape {
    Uploading,
    Aborted,
    Marker,
    /// The bytes `def`.
    Inline,
    /// A block of 4,096 bytes.
    Kept,
}

// An etag, and one header.
fn meta(alloc: Global, size: u64) -> Result<Meta, Memory> {
    let mut headers = List::new(alloc);
    let name = Bytes::from_slice(alloc, b"a")?;
    headers.push((name, Bytes::from_slice(alloc, b"bc")?))?;
    Ok(Meta {
        size,
        etag: [0x33; 16],
        headers,
    })
}

fn state(alloc: Global, shape: Shape) -> Result<State, Memory> {
    match shape {
        Shape::Uploading => Ok(State::Uploading),
        Shape::Aborted => Ok(State::Aborted),
        Shape::Marker => Ok(State::Complete(Body::Marker)),
        Shape::Inline => {
            let meta = meta(alloc, 3)?;
            Ok(State::Complete(Body::Inline(meta, Bytes::from_slice(alloc, b"def")?)))
        }
        Shape::Kept => Ok(State::Complete(Body::Blocks(meta(alloc, 4096)?, Hash32([0x55; 32])))),
    }
}

fn object(alloc: Global, key: &[u8], version: Version, shape: Shape) -> Result<ObjectRow, Memory> {
    let state = state(alloc, shape)?;
    if !state.is_sized() {
        return Err(Memory::Full);
    }
    ObjectRow::single(
        alloc,
        BUCKET,
        Bytes::from_slice(alloc, key)?,
        version,
        state,
    )
}

fn blocks(alloc: Global, entries: &[(u64, u8)]) -> Result<Map<Part, Max<BlockRef>>, Memory> {
    let mut blocks = Map::new(alloc);
    for (offset, byte) in entries {
        let (part, offset) = (1, *offset);
        let (hash, size) = (Hash32([*byte; 32]), 4096);
        blocks.join_at(Part { part, offset }, &Max(BlockRef { hash, size }))?;
    }
    Ok(blocks)
}

pub fn row(alloc: Global, made: Made) -> Result<AnyRow, Memory> {
    match made {
        Made::Object(key, ts, id, shape) => {
            AnyRow::object(alloc, object(alloc, key, Version { ts, id }, shape)?)
        }
        Made::Blocks(id, entries) => {
            let blocks = Deletable::Present(blocks(alloc, entries)?);
            AnyRow::version(alloc, VersionRow { id, blocks })
        }
        Made::Deleted(id) => {
            let blocks = Deletable::Deleted;
            AnyRow::version(alloc, VersionRow { id, blocks })
        }
        Made::Reference(byte, id, deleted) => Ok(AnyRow::Ref(RefRow {
            hash: Hash32([byte; 32]),
            id,
            deleted: Bool(deleted),
        })),
    }
}

/// The rows, one merged after the other into the first.
pub fn merged(alloc: Global, first: Made, others: &[Made]) -> Result<AnyRow, Memory> {
    let mut all = row(alloc, first)?;
    for made in others {
        all.merge(&row(alloc, *made)?)?;
    }
    Ok(all)
}
