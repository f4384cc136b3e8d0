//! The rows that requests store.
ghost use Rattle.std.specs.Prelude.{◌≡◌, ◌*◌, ◌<◌, ◌^◌, ◌∷◌, [], ℕ, true, IsTrue, IfOk, Some, None, length};
ghost use Rattle.crdt_core.specs.Outcomes.{OnlyWant};
ghost use Rattle.crdt_core.specs.Map.{map_single};
ghost use Rattle.crdt_core.specs.declared.deletable.Deletable.TheVariants.{Present};
ghost use Rattle.crdt_rows.specs.State.{is_sized};
ghost use Rattle.crdt_rows.specs.declared.any_row.AnyRow.TheVariants as any;
ghost use Rattle.flow_model.specs.declared.flow.Wish.TheVariants as wish;
ghost use Rattle.flow_model.specs.declared.flow.Content.{Content as ContentOf};
ghost use Rattle.flow_model.specs.Blocks.{piece_hash};
ghost use Rattle.flow_model.specs.Rows as model;

use crate::blocks::{are_long, is_long};
use blake2_hash::Hash32;
use block_bytes::Block;
use crdt_core::{Bool, Bytes, Deletable, List, Map, Max, Memory, Value};
use crdt_rows::{
    AnyRow, BlockRef, Body, Meta, ObjectRow, Part, RefRow, State, Version, VersionRow,
};
use flow_model::{Content, Name};
use md5::{Digest, Md5};
use object_bytes::{ObjectBytes, Pieces};
use std::alloc::Global;

// What is stored of bytes beside them.
fn meta_of(body: &ObjectBytes, headers: List<(Bytes, Bytes)>) -> Meta
    ensures { result ≡ model.meta_of (record { body = body.now; headers = headers }) }
{
    Meta {
        size: body.len() as u64,
        etag: Md5::digest(body.as_slice()),
        headers,
    }
}

// The row that says of one version of an object in which state it is.
fn object_row(alloc: Global, name: Name, version: Version, state: State) -> Result<AnyRow, Memory>
    requires { IsTrue (is_sized state) }
    ensures is { IfOk result (λ row. (sized : is_sized state ≡ true) →
        row ≡ model.object_row name version state sized) }
    ensures want { OnlyWant result }
{
    let Name { bucket, key } = name;
    let row = ObjectRow::single(alloc, *bucket.hash(), key, version, state)?;
    AnyRow::object(alloc, row)
}

/// The upload of this version has begun.
pub fn uploading(alloc: Global, name: Name, version: Version) -> Result<AnyRow, Memory>
    ensures is { IfOk result (λ row. row ≡ model.uploading name version) }
    ensures want { OnlyWant result }
{
    object_row(alloc, name, version, State::Uploading)
}

/// The upload of this version was given up.
pub fn aborted(alloc: Global, name: Name, version: Version) -> Result<AnyRow, Memory>
    ensures is { IfOk result (λ row. row ≡ model.aborted name version) }
    ensures want { OnlyWant result }
{
    object_row(alloc, name, version, State::Aborted)
}

/// The object is deleted since this version.
pub fn marker(alloc: Global, name: Name, version: Version) -> Result<AnyRow, Memory>
    ensures is { IfOk result (λ row. row ≡ model.marker name version) }
    ensures want { OnlyWant result }
{
    object_row(alloc, name, version, State::Complete(Body::Marker))
}

// The version is complete, with these bytes in its row.
fn inline(
    alloc: Global,
    name: Name,
    version: Version,
    meta: Meta,
    body: Bytes,
) -> Result<AnyRow, Memory>
    requires { meta.size ≡ length body }
    ensures is { IfOk result (λ row. (c : ContentOf) → meta ≡ model.meta_of c → body ≡ c.body →
        row ≡ model.inline name version c) }
    ensures want { OnlyWant result }
{
    let state = State::Complete(Body::Inline(meta, body));
    let row = object_row(alloc, name, version, state)?;
    Ok(row)
}

// The version is complete, and its bytes are kept in blocks.
fn in_blocks(
    alloc: Global,
    name: Name,
    version: Version,
    meta: Meta,
    first: Hash32,
) -> Result<AnyRow, Memory>
    ensures is { IfOk result (λ row. (block : ℕ) (c : ContentOf) → meta ≡ model.meta_of c →
        first ≡ piece_hash block c.body 0 → row ≡ model.in_blocks name version block c) }
    ensures want { OnlyWant result }
{
    let state = State::Complete(Body::Blocks(meta, first));
    let row = object_row(alloc, name, version, state)?;
    Ok(row)
}

/// The row that says that the version is complete with these bytes, and what is stored beside them.
pub fn complete(
    alloc: Global,
    name: Name,
    version: Version,
    block: u32,
    content: Content,
) -> Result<(AnyRow, Meta), Memory>
    ensures row { IfOk result
        (λ made. made.0 ≡ model.complete name version block (wish.Content content)) }
    ensures meta { IfOk result (λ made. made.1 ≡ model.meta_of content) }
    ensures want { OnlyWant result }
{
    let Content { body, headers } = content;
    let meta = meta_of(&body, headers);
    let told = meta.copy()?;
    if is_long(body.as_slice()) {
        let first = body.first_hash(block);
        let row = in_blocks(alloc, name, version, meta, first)?;
        return Ok((row, told));
    }
    let row = inline(alloc, name, version, meta, body.into_bytes())?;
    Ok((row, told))
}

/// The same of bytes that came piece by piece.
pub fn complete_pieces(
    alloc: Global,
    name: Name,
    version: Version,
    block: u32,
    received: Pieces,
    headers: List<(Bytes, Bytes)>,
) -> Result<(AnyRow, Meta), Memory>
    ensures row { IfOk result
        (λ made. made.0 ≡ model.complete name version block
        (wish.Content (record { body = received; headers = headers }))) }
    ensures meta { IfOk result
        (λ made. made.1 ≡ model.meta_of (record { body = received; headers = headers })) }
    ensures want { OnlyWant result }
{
    let meta = Meta {
        size: received.len() as u64,
        etag: received.md5(),
        headers,
    };
    let told = meta.copy()?;
    if are_long(&received) {
        let first = received.first_hash(block)?;
        let row = in_blocks(alloc, name, version, meta, first)?;
        return Ok((row, told));
    }
    let row = inline(alloc, name, version, meta, received.into_bytes()?)?;
    Ok((row, told))
}

// The version's row with this block alone.
fn version_row(alloc: Global, id: u64, part: Part, block: BlockRef) -> Result<AnyRow, Memory>
    ensures is { IfOk result (λ row. row ≡ any.Version
        (record { id = id; blocks = Present (map_single part (record { 0 = block })) })) }
    ensures want { OnlyWant result }
{
    let mut blocks = Map::new(alloc);
    blocks.join_at(part, &Max(block))?;
    let blocks = Deletable::Present(blocks);
    AnyRow::version(alloc, VersionRow { id, blocks })
}

// The two rows of a block, with its bytes beside the reference.
fn both_rows(
    alloc: Global,
    version: AnyRow,
    reference: AnyRow,
    block: Block,
) -> Result<List<(AnyRow, Option<Block>)>, Memory>
    ensures are { IfOk result (λ rows. rows ≡ (version, None) ∷ (reference, Some block) ∷ []) }
    ensures want { OnlyWant result }
{
    let mut rows = List::new(alloc);
    rows.push((version, None))?;
    rows.push((reference, Some(block)))?;
    Ok(rows)
}

/// What is stored of a version's block, which begins at this offset.
pub fn rows_at(
    alloc: Global,
    id: u64,
    offset: u64,
    piece: Block,
) -> Result<List<(AnyRow, Option<Block>)>, Memory>
    requires { length piece < 2 ^ 32 }
    ensures are { IfOk result (λ rows. rows ≡ model.rows_at id offset piece) }
    ensures want { OnlyWant result }
{
    let size = piece.len() as u32;
    let hash = *piece.hash();
    let version = version_row(alloc, id, Part { part: 1, offset }, BlockRef { hash, size })?;
    let deleted = Bool(false);
    let reference = AnyRow::Ref(RefRow { hash, id, deleted });
    let rows = both_rows(alloc, version, reference, piece)?;
    Ok(rows)
}

/// What is stored of a version's block `i`, which begins at this offset: the version's row with it alone, and the
/// live reference with the block.
pub fn block_rows(
    alloc: Global,
    id: u64,
    block: u32,
    body: &mut ObjectBytes,
    offset: u64,
) -> Result<List<(AnyRow, Option<Block>)>, Memory>
    requires { offset < length body.old }
    ensures are { IfOk result (λ rows. (i : ℕ) → offset ≡ i * block →
        rows ≡ model.block_rows id block body.old i) }
    ensures same { body.new ≡ body.old }
    ensures want { OnlyWant result }
{
    let piece = body.cut(alloc, block, offset as usize)?;
    let size = piece.len() as u32;
    let hash = *piece.hash();
    let version = version_row(alloc, id, Part { part: 1, offset }, BlockRef { hash, size })?;
    let deleted = Bool(false);
    let reference = AnyRow::Ref(RefRow { hash, id, deleted });
    let rows = both_rows(alloc, version, reference, piece)?;
    Ok(rows)
}
