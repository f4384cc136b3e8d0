//! What streamed uploads do.
ghost use Rattle.std.specs.Prelude.{◌≡◌, ◌<◌, ◌≤◌, ◌^◌, Some, length, IsSome, IfOk};
ghost use Rattle.crdt_core.specs.Outcomes.{OnlyWant};
ghost use Rattle.flow_model.specs.Next.{needs as needs_of, wanted as wanted_of};
ghost use Rattle.flow_model.specs.Streams.{need_in, fed_in, kept_in, given_up_in};

use crate::phases::stores;
use crate::request::Request;
use crate::rows::{aborted, complete_pieces, rows_at};
use block_bytes::Block;
use crdt_core::Memory;
use crdt_rows::{AnyRow, Version};
use flow_model::{Coming, Flow, FlowStep, Name, Stage};
use object_bytes::Pieces;
use std::alloc::Global;
use wire_messages::Phase;

// How many bytes are asked for next; 0 where all have come.
fn wanted(request: Request, coming: &Coming, received: &Pieces) -> u64
    ensures { result ≡ wanted_of request.id request.block coming.now received.now }
{
    let left = coming.length.saturating_sub(received.len() as u64);
    left.min(u64::from(request.block))
}

/// A streamed upload waits for its client.
pub fn needs(
    request: Request,
    name: Name,
    version: Version,
    coming: Coming,
    received: Pieces,
) -> FlowStep
    ensures { result ≡ needs_of request.id request.block name version coming received }
{
    let wanted = wanted(request, &coming, &received);
    let stage = Stage::Needing {
        name,
        version,
        coming,
        received,
    };
    FlowStep::Need(request.at(stage), wanted)
}

/// A block has come.
pub fn feeds(
    alloc: Global,
    request: Request,
    stage: Stage,
    bytes: Block,
) -> Result<(Flow, Phase<AnyRow>), Memory>
    requires { need_in request.id request.block stage ≡ Some (length bytes) }
    ensures is { IfOk result (λ next. fed_in request.id request.block stage bytes ≡ Some next) }
    ensures want { OnlyWant result }
{
    match stage {
        Stage::Needing {
            name,
            version,
            coming,
            mut received,
        } => {
            let offset = received.len() as u64;
            let rows = rows_at(alloc, version.id, offset, bytes.share()?)?;
            received.push(bytes)?;
            let stage = Stage::Receiving {
                name,
                version,
                coming,
                received,
            };
            Ok((request.at(stage), Phase::Store { rows }))
        }
        _ => unreachable!(),
    }
}

/// The upload is kept.
pub fn keeps(alloc: Global, request: Request, stage: Stage) -> Result<(Flow, Phase<AnyRow>), Memory>
    requires { IsSome (need_in request.id request.block stage) }
    ensures is { IfOk result (λ next. kept_in request.id request.block stage ≡ Some next) }
    ensures want { OnlyWant result }
{
    match stage {
        Stage::Needing {
            name,
            version,
            coming,
            received,
        } => {
            let (row, meta) = complete_pieces(
                alloc,
                name,
                version,
                request.block,
                received,
                coming.headers,
            )?;
            let phase = stores(alloc, row)?;
            let meta = Some(meta);
            Ok((request.at(Stage::Completing { version, meta }), phase))
        }
        _ => unreachable!(),
    }
}

/// The upload is given up.
pub fn gives_up(
    alloc: Global,
    request: Request,
    stage: Stage,
) -> Result<(Flow, Phase<AnyRow>), Memory>
    requires { IsSome (need_in request.id request.block stage) }
    ensures is { IfOk result (λ next. given_up_in request.id request.block stage ≡ Some next) }
    ensures want { OnlyWant result }
{
    match stage {
        Stage::Needing { name, version, .. } => {
            let phase = stores(alloc, aborted(alloc, name, version)?)?;
            Ok((request.at(Stage::Aborting { version }), phase))
        }
        _ => unreachable!(),
    }
}
