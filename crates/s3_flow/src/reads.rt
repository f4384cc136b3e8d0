//! What reads do when their phases have ended.
ghost use Rattle.std.specs.Prelude.{◌≡◌, ◌++◌, [], IfOk};
ghost use Rattle.crdt_core.specs.Outcomes.{OnlyWant};
ghost use Rattle.flow_model.specs.Says.{said_of, shown_rows, named_by};
ghost use Rattle.flow_model.specs.Next.{found, reads_on, looked, gathers, opened, lists};
ghost use Rattle.s3_flow.specs.Said.{said};

use crate::phases::{asks_for, asks_past, opens};
use crate::request::Request;
use crate::says::{Named, Said, named_by, said_of, take_shown};
use block_bytes::Block;
use crdt_core::{Bytes, List, Memory, Value};
use crdt_rows::{AnyRow, BlockRef, Meta, ObjectRow, Version};
use flow_model::{Aim, Content, FlowEnd, FlowStep, Stage, Wish};
use object_bytes::{ObjectBytes, Pieces};
use shared_value::Shared;
use std::alloc::Global;
use wire_messages::Phase;

// The object was read: it is given, or written under its new name.
fn found(
    alloc: Global,
    request: Request,
    aim: Aim,
    version: Version,
    meta: Meta,
    body: Pieces,
) -> Result<FlowStep, Memory>
    ensures is { IfOk result (λ step. step ≡ found request.id request.block aim version meta body) }
    ensures want { OnlyWant result }
{
    match aim {
        Aim::Get => Ok(FlowStep::End(FlowEnd::Found {
            version,
            meta,
            body,
        })),
        Aim::Head => Ok(FlowStep::End(FlowEnd::Found {
            version,
            meta,
            body: Pieces::new(alloc),
        })),
        Aim::Copy { name, headers } => {
            let headers = headers.unwrap_or(meta.headers);
            let body = ObjectBytes::new(body.into_bytes()?);
            let wish = Wish::Content(Content { body, headers });
            let phase = asks_for(alloc, &name)?;
            Ok(request.more(Stage::Drawing { name, wish }, phase))
        }
    }
}

// The object is kept in blocks: a head has all that it asks, others ask for the version's row.
fn reads_on(
    alloc: Global,
    request: Request,
    aim: Aim,
    version: Version,
    meta: Meta,
) -> Result<FlowStep, Memory>
    ensures is { IfOk result (λ step. step ≡ reads_on request.id request.block aim version meta) }
    ensures want { OnlyWant result }
{
    if let Aim::Head = aim {
        return found(alloc, request, aim, version, meta, Pieces::new(alloc));
    }
    let phase = opens(alloc, version)?;
    let stage = Stage::Opening { version, meta, aim };
    Ok(request.more(stage, phase))
}

// The object is in its row: a head takes no copy of its bytes.
fn reads_inline(
    alloc: Global,
    request: Request,
    aim: Aim,
    version: Version,
    meta: &Meta,
    body: &Bytes,
) -> Result<FlowStep, Memory>
    ensures is { IfOk result (λ step. step ≡
        found request.id request.block aim version meta.now body.now) }
    ensures want { OnlyWant result }
{
    let meta = meta.copy()?;
    if let Aim::Head = aim {
        return found(alloc, request, aim, version, meta, Pieces::new(alloc));
    }
    let body = Pieces::from_bytes(body.copy()?);
    found(alloc, request, aim, version, meta, body)
}

/// What a read does with what a row says of its object.
pub fn looked(
    alloc: Global,
    request: Request,
    aim: Aim,
    value: &Option<AnyRow>,
) -> Result<FlowStep, Memory>
    ensures is { IfOk result (λ step. step ≡ looked request.id request.block aim
        (said_of value.now)) }
    ensures want { OnlyWant result }
{
    match said_of(value) {
        Said::Nothing => Ok(FlowStep::End(FlowEnd::Nothing)),
        Said::Marked(_) => Ok(FlowStep::End(FlowEnd::Nothing)),
        Said::Inline(version, meta, body) => {
            reads_inline(alloc, request, aim, version, meta, body)
        }
        Said::InBlocks(version, meta, _) => { reads_on(alloc, request, aim, version, meta.copy()?) }
    }
}

/// The next of these blocks is asked for, or the object is read.
pub fn gathers(
    alloc: Global,
    request: Request,
    aim: Aim,
    version: Version,
    meta: Meta,
    mut left: List<BlockRef>,
    body: Pieces,
) -> Result<FlowStep, Memory>
    ensures is { IfOk result (λ step. step ≡
        gathers request.id request.block aim version meta left body) }
    ensures want { OnlyWant result }
{
    let Some(block) = left.get(0) else {
        return found(alloc, request, aim, version, meta, body);
    };
    let hash = block.hash;
    left.drop_front(1);
    let stage = Stage::Gathering {
        version,
        meta,
        aim,
        left,
        body,
    };
    Ok(request.more(stage, Phase::Block { hash }))
}

/// What a read does with what a row says of its version's blocks.
pub fn opened(
    alloc: Global,
    request: Request,
    aim: Aim,
    version: Version,
    meta: Meta,
    value: &Option<AnyRow>,
) -> Result<FlowStep, Memory>
    ensures is { IfOk result (λ step. step ≡ opened request.id request.block aim version meta
        (named_by value.now meta.size)) }
    ensures want { OnlyWant result }
{
    match named_by(alloc, value, meta.size)? {
        Named::Unnamed => Ok(request.waits(Stage::Opening { version, meta, aim })),
        Named::Whole(blocks) => {
            let body = Pieces::new(alloc);
            gathers(alloc, request, aim, version, meta, blocks, body)
        }
        Named::Deleted => Ok(FlowStep::End(FlowEnd::Superseded(version.id))),
    }
}

/// The rows of a window that are shown join those before it; the list goes on past the window, or is done where there
/// is no more.
pub fn lists(
    alloc: Global,
    request: Request,
    bucket: Block,
    prefix: Bytes,
    mut rows: List<Shared<ObjectRow>>,
    others: List<AnyRow>,
    end: Option<Bytes>,
) -> Result<FlowStep, Memory>
    ensures is { IfOk result (λ step. step ≡ lists request.id request.block bucket prefix
        (rows ++ shown_rows others) end) }
    ensures want { OnlyWant result }
{
    take_shown(&mut rows, others)?;
    let Some(after) = end else {
        return Ok(FlowStep::End(FlowEnd::Listed(rows)));
    };
    let phase = asks_past(alloc, &bucket, &prefix, after)?;
    let stage = Stage::Listing {
        bucket,
        prefix,
        rows,
    };
    Ok(request.more(stage, phase))
}
