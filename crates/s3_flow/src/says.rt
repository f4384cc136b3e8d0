//! What rows say.
ghost use Rattle.std.specs.Prelude.{◌≡◌, ◌+◌, ◌++◌, [], ◌∷◌, OnOk, IfOk};
ghost use Rattle.crdt_core.specs.Outcomes.{OnlyWant};
ghost use Rattle.flow_model.specs.Says.{greatest_ts as greatest_in, said_of, said_by, is_shown, shown_rows, are_whole, blocks_in, named_by};
ghost use Rattle.s3_flow.specs.Said.{said, named};

use blake2_hash::Hash32;
use crdt_core::{Bytes, Deletable, List, Max, Memory};
use crdt_rows::{AnyRow, BlockRef, Body, Meta, ObjectRow, Part, Version};
use shared_value::Shared;
use std::alloc::Global;

/// What a row says of its object.
#[derive(Drop)]
pub enum Said<'a> {
    /// It has no complete version.
    Nothing,
    /// The newest complete version is a delete marker.
    Marked(Version),
    /// The newest complete version, and its bytes.
    Inline(Version, &'a Meta, &'a Bytes),
    /// The newest complete version, whose bytes are kept in blocks, and the first block's hash.
    InBlocks(Version, &'a Meta, &'a Hash32),
}

/// What a version's row says of its blocks.
#[derive(Drop)]
pub enum Named {
    /// There is no row, or its blocks are not whole yet.
    Unnamed,
    /// Its blocks in order.
    Whole(List<BlockRef>),
    /// The version was deleted.
    Deleted,
}

/// The greatest timestamp of a row; no row counts as 0.
pub fn greatest_ts(row: &Option<AnyRow>) -> u64
    ensures { result ≡ greatest_in row.now }
{
    match row {
        Some(AnyRow::Object(row)) => row.get().greatest_ts(),
        _ => 0,
    }
}

// What an object row says of its object.
fn said_by(row: &ObjectRow) -> Said
    ensures { said result ≡ said_by row.now }
{
    match row.newest() {
        Some((version, Body::Marker)) => Said::Marked(version),
        Some((version, Body::Inline(meta, body))) => Said::Inline(version, meta, body),
        Some((version, Body::Blocks(meta, first))) => Said::InBlocks(version, meta, first),
        None => Said::Nothing,
    }
}

/// What a row says of its object; only an object row says anything.
pub fn said_of(row: &Option<AnyRow>) -> Said
    ensures { said result ≡ said_of row.now }
{
    match row {
        Some(AnyRow::Object(row)) => said_by(row.get()),
        _ => Said::Nothing,
    }
}

// A list shows the row's key.
fn is_shown(row: &ObjectRow) -> bool
    ensures { result ≡ is_shown row.now }
{
    matches!(
        said_by(row),
        Said::Inline(_, _, _) | Said::InBlocks(_, _, _)
    )
}

// Puts a row at the end of the list, where a list shows it.
fn push_shown(rows: &mut List<Shared<ObjectRow>>, row: AnyRow) -> Result<(), Memory>
    ensures ok { OnOk result (rows.new ≡ rows.old ++ shown_rows (row ∷ [])) }
    ensures want { OnlyWant result }
{
    if let AnyRow::Object(row) = row {
        if is_shown(row.get()) {
            rows.push(row)?;
        }
    }
    Ok(())
}

/// Puts the rows of a window that a list shows at the end of the list.
pub fn take_shown(rows: &mut List<Shared<ObjectRow>>, others: List<AnyRow>) -> Result<(), Memory>
    ensures ok { OnOk result (rows.new ≡ rows.old ++ shown_rows others) }
    ensures want { OnlyWant result }
{
    for row in others.into_vec() {
        push_shown(rows, row)?;
    }
    Ok(())
}

// Blocks stand one after the other from offset 0 on, and end at this size.
fn are_whole(entries: &[(Part, Max<BlockRef>)], size: u64) -> bool
    ensures { result ≡ are_whole 0 entries.now size }
{
    let mut left = size;
    for entry in entries {
        let bytes = u64::from(entry.1.0.size);
        if entry.0.offset != size - left || bytes > left {
            return false;
        }
        left -= bytes;
    }
    left == 0
}

// The blocks in order of their places.
fn blocks_in(alloc: Global, entries: &[(Part, Max<BlockRef>)]) -> Result<List<BlockRef>, Memory>
    ensures are { IfOk result (λ blocks. blocks ≡ blocks_in entries.now) }
    ensures want { OnlyWant result }
{
    let mut blocks = List::new(alloc);
    for entry in entries {
        blocks.push(entry.1.0)?;
    }
    Ok(blocks)
}

/// What a row says of the blocks of a version of so many bytes.
pub fn named_by(alloc: Global, row: &Option<AnyRow>, size: u64) -> Result<Named, Memory>
    ensures is { IfOk result (λ found. named found ≡ named_by row.now size) }
    ensures want { OnlyWant result }
{
    let Some(AnyRow::Version(row)) = row else {
        return Ok(Named::Unnamed);
    };
    match &row.get().blocks {
        Deletable::Deleted => Ok(Named::Deleted),
        Deletable::Present(blocks) => {
            if are_whole(blocks.as_slice(), size) {
                return Ok(Named::Whole(blocks_in(alloc, blocks.as_slice())?));
            }
            Ok(Named::Unnamed)
        }
    }
}
