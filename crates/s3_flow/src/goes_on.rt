//! What a request does when its phase has ended.
ghost use Rattle.std.specs.Prelude.{◌≡◌, ◌<◌, ℕ, IfOk};
ghost use Rattle.crdt_core.specs.Outcomes.{OnlyWant, WantOr};
ghost use Rattle.wire_messages.specs.declared.phase.PhaseEnd.TheVariants as end_of;
ghost use Rattle.flow_model.specs.Next.{goes_on};
ghost use Rattle.flow_model.specs.Overdrawn.{IsOverdrawn};

use crate::reads::{gathers, lists, looked, opened};
use crate::request::Request;
use crate::streams::needs;
use crate::writes::{drawn, uploads, writes};
use block_bytes::Block;
use crdt_core::{Bytes, List, Memory};
use crdt_rows::AnyRow;
use flow_model::{FlowEnd, FlowStep, Stage};
use std::alloc::Global;

/// A row was read.
pub fn after_row(
    alloc: Global,
    request: Request,
    stage: Stage,
    value: Option<AnyRow>,
    now: u64,
) -> Result<FlowStep, Memory>
    ensures is { IfOk result (λ step. step ≡ goes_on request.id request.block stage
        (end_of.Row value) now) }
    ensures causes { WantOr result (IsOverdrawn request.id stage (end_of.Row value) now) }
    ensures never_past { IfOk result (λ step. IsOverdrawn request.id stage (end_of.Row value) now →
        ⊥) }
{
    match stage {
        Stage::Drawing { name, wish } => {
            let version = drawn(request.id, &value, now)?;
            writes(alloc, request, name, version, wish)
        }
        Stage::Looking { name: _, aim } => looked(alloc, request, aim, &value),
        Stage::Opening { version, meta, aim } => {
            opened(alloc, request, aim, version, meta, &value)
        }
        other => Ok(request.waits(other)),
    }
}

/// A window of rows was read.
pub fn after_window(
    alloc: Global,
    request: Request,
    stage: Stage,
    others: List<AnyRow>,
    end: Option<Bytes>,
) -> Result<FlowStep, Memory>
    ensures is { (now : ℕ) → IfOk result
        (λ step. step ≡ goes_on request.id request.block stage (end_of.Window others end) now) }
    ensures want { OnlyWant result }
{
    match stage {
        Stage::Listing {
            bucket,
            prefix,
            rows,
        } => lists(alloc, request, bucket, prefix, rows, others, end),
        other => Ok(request.waits(other)),
    }
}

/// What was stored is kept.
pub fn after_kept(alloc: Global, request: Request, stage: Stage) -> Result<FlowStep, Memory>
    requires { 0 < request.block }
    ensures is { (now : ℕ) → IfOk result
        (λ step. step ≡ goes_on request.id request.block stage end_of.Kept now) }
    ensures want { OnlyWant result }
{
    match stage {
        Stage::Uploading {
            name,
            version,
            content,
            stored,
        } => uploads(alloc, request, name, version, content, stored),
        Stage::Receiving {
            name,
            version,
            coming,
            received,
        } => Ok(needs(request, name, version, coming, received)),
        Stage::Aborting { version: _ } => Ok(FlowStep::End(FlowEnd::Aborted)),
        Stage::Completing { version, meta } => {
            Ok(FlowStep::End(FlowEnd::Stored { version, meta }))
        }
        other => Ok(request.waits(other)),
    }
}

/// A block was read.
pub fn after_block(
    alloc: Global,
    request: Request,
    stage: Stage,
    block: Block,
) -> Result<FlowStep, Memory>
    ensures is { (now : ℕ) → IfOk result
        (λ step. step ≡ goes_on request.id request.block stage (end_of.Block block) now) }
    ensures want { OnlyWant result }
{
    match stage {
        Stage::Gathering {
            version,
            meta,
            aim,
            left,
            mut body,
        } => {
            body.push(block)?;
            gathers(alloc, request, aim, version, meta, left, body)
        }
        other => Ok(request.waits(other)),
    }
}
