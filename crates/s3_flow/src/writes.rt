//! What writes do when their phases have ended.
ghost use Rattle.std.specs.Prelude.{◌≡◌, ◌≤◌, ◌<◌, ◌^◌, [], IfOk, IfErr};
ghost use Rattle.crdt_core.specs.Outcomes.{OnlyWant};
ghost use Rattle.flow_model.specs.declared.flow.Wish.TheVariants as wish;
ghost use Rattle.crdt_core.specs.declared.memory.Memory.TheVariants.{Full};
ghost use Rattle.flow_model.specs.declared.flow.Stage.TheVariants as stage;
ghost use Rattle.flow_model.specs.Rows as row;
ghost use Rattle.flow_model.specs.Next.{more, stores, drawn, completes, writes, uploads};

use crate::blocks::{is_long, offset_of};
use crate::phases::stores;
use crate::request::Request;
use crate::rows::{block_rows, complete, marker, uploading};
use crate::says::greatest_ts;
use crdt_core::{Memory, Value};
use crdt_rows::{AnyRow, Version};
use flow_model::{Coming, Content, FlowStep, Name, Stage, Wish};
use object_bytes::Pieces;
use std::alloc::Global;
use wire_messages::Phase;

/// The version that a write draws when it has read this of its object: later than each that the row has, and no
/// earlier than its coordinator's clock.
pub fn drawn(id: u64, value: &Option<AnyRow>, now: u64) -> Result<Version, Memory>
    ensures is { IfOk result (λ version. version ≡ drawn id value.now now) }
    ensures fits { IfOk result (λ version. (drawn id value.now now).ts < 2 ^ 64) }
    ensures full { IfErr result (λ e. (e ≡ Full) × (2 ^ 64 ≤ (drawn id value.now now).ts)) }
{
    let Some(past) = greatest_ts(value).checked_add(1) else {
        return Err(Memory::Full);
    };
    let ts = now.max(past);
    Ok(Version { ts, id })
}

// The delete marker is stored.
fn deletes(
    alloc: Global,
    request: Request,
    name: Name,
    version: Version,
) -> Result<FlowStep, Memory>
    ensures is { IfOk result (λ step. step ≡
        completes request.id request.block name version wish.Marker) }
    ensures want { OnlyWant result }
{
    let phase = stores(alloc, marker(alloc, name, version)?)?;
    let meta = None;
    Ok(request.more(Stage::Completing { version, meta }, phase))
}

// The complete version is stored.
fn completes(
    alloc: Global,
    request: Request,
    name: Name,
    version: Version,
    content: Content,
) -> Result<FlowStep, Memory>
    ensures is { IfOk result (λ step. step ≡ completes request.id request.block name version
        (wish.Content content)) }
    ensures want { OnlyWant result }
{
    let (row, meta) = complete(alloc, name, version, request.block, content)?;
    let phase = stores(alloc, row)?;
    let meta = Some(meta);
    Ok(request.more(Stage::Completing { version, meta }, phase))
}

// The name, on its own.
fn copy_of(name: &Name) -> Result<Name, Memory>
    ensures same { IfOk result (λ copy. copy ≡ name.now) }
    ensures want { OnlyWant result }
{
    Ok(Name {
        bucket: name.bucket.share()?,
        key: name.key.copy()?,
    })
}

// A long upload is announced.
fn announces(
    alloc: Global,
    request: Request,
    name: Name,
    version: Version,
    content: Content,
) -> Result<FlowStep, Memory>
    ensures is { IfOk result (λ step. step ≡ more request.id request.block
        (stage.Uploading name version content 0) (stores (row.uploading name version))) }
    ensures want { OnlyWant result }
{
    let announced = copy_of(&name)?;
    let phase = stores(alloc, uploading(alloc, announced, version)?)?;
    let stage = Stage::Uploading {
        name,
        version,
        content,
        stored: 0,
    };
    Ok(request.more(stage, phase))
}

// A streamed upload is announced.
fn announces_stream(
    alloc: Global,
    request: Request,
    name: Name,
    version: Version,
    coming: Coming,
) -> Result<FlowStep, Memory>
    ensures is { IfOk result (λ step. step ≡ more request.id request.block
        (stage.Receiving name version coming []) (stores (row.uploading name version))) }
    ensures want { OnlyWant result }
{
    let announced = copy_of(&name)?;
    let phase = stores(alloc, uploading(alloc, announced, version)?)?;
    let stage = Stage::Receiving {
        name,
        version,
        coming,
        received: Pieces::new(alloc),
    };
    Ok(request.more(stage, phase))
}

/// A write has drawn its version: long bytes are uploaded block by block, all else is stored at once.
pub fn writes(
    alloc: Global,
    request: Request,
    name: Name,
    version: Version,
    wish: Wish,
) -> Result<FlowStep, Memory>
    ensures is { IfOk result (λ step. step ≡ writes request.id request.block name version wish) }
    ensures want { OnlyWant result }
{
    match wish {
        Wish::Marker => deletes(alloc, request, name, version),
        Wish::Stream(coming) => announces_stream(alloc, request, name, version, coming),
        Wish::Content(content) => {
            if is_long(content.body.as_slice()) {
                return announces(alloc, request, name, version, content);
            }
            completes(alloc, request, name, version, content)
        }
    }
}

/// The next block is stored, or the complete version where there is none.
pub fn uploads(
    alloc: Global,
    request: Request,
    name: Name,
    version: Version,
    mut content: Content,
    stored: u64,
) -> Result<FlowStep, Memory>
    requires { 0 < request.block }
    ensures is { IfOk result (λ step. step ≡
        uploads request.id request.block name version content stored) }
    ensures want { OnlyWant result }
{
    let Some(offset) = offset_of(request.block, content.body.as_slice(), stored) else {
        return completes(alloc, request, name, version, content);
    };
    let rows = block_rows(alloc, version.id, request.block, &mut content.body, offset)?;
    let stage = Stage::Uploading {
        name,
        version,
        content,
        stored: stored + 1,
    };
    Ok(request.more(stage, Phase::Store { rows }))
}
