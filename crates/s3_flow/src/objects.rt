//! The requests of the object store as flows.
ghost use Rattle.std.specs.Prelude.{◌≡◌, IfOk};
ghost use Rattle.crdt_core.specs.Outcomes.{OnlyWant};

use crate::begins::{draws, looks};
use crate::goes_on::{after_block, after_kept, after_row, after_window};
use crate::phases::asks_past;
use crate::request::Request;
use crate::streams::{feeds, gives_up, keeps};
use block_bytes::Block;
use crdt_core::{Bytes, List, Memory};
use crdt_rows::AnyRow;
use flow_model::{Aim, Coming, Content, Flow, FlowStep, Flows, Name, Order, Stage, Wish};
use object_bytes::ObjectBytes;
use std::alloc::Global;
use wire_messages::{Phase, PhaseEnd};

// The name of an object. Hashes its bucket's.
fn name_of(alloc: Global, bucket: Bytes, key: Bytes) -> Result<Name, Memory>
    ensures is { IfOk result (λ name. name ≡ record { bucket = bucket; key = key }) }
    ensures want { OnlyWant result }
{
    let bucket = Block::new(alloc, bucket)?;
    Ok(Name { bucket, key })
}

/// The flows of the object store's requests. It keeps nothing.
#[derive(Drop)]
pub struct ObjectFlows;

impl Flows for ObjectFlows {
    fn start(
        &self,
        alloc: Global,
        order: Order,
        id: u64,
        block: u32,
    ) -> Result<(Flow, Phase<AnyRow>), Memory> {
        let request = Request { id, block };
        match order {
            Order::Put {
                bucket,
                key,
                body,
                headers,
            } => {
                let body = ObjectBytes::new(body);
                let wish = Wish::Content(Content { body, headers });
                draws(alloc, request, name_of(alloc, bucket, key)?, wish)
            }
            Order::Stream {
                bucket,
                key,
                length,
                headers,
            } => {
                let wish = Wish::Stream(Coming { length, headers });
                draws(alloc, request, name_of(alloc, bucket, key)?, wish)
            }
            Order::Get { bucket, key } => {
                looks(alloc, request, name_of(alloc, bucket, key)?, Aim::Get)
            }
            Order::Head { bucket, key } => {
                looks(alloc, request, name_of(alloc, bucket, key)?, Aim::Head)
            }
            Order::Delete { bucket, key } => {
                draws(alloc, request, name_of(alloc, bucket, key)?, Wish::Marker)
            }
            Order::Copy {
                from_bucket,
                from_key,
                bucket,
                key,
                headers,
            } => {
                let source = name_of(alloc, from_bucket, from_key)?;
                let name = name_of(alloc, bucket, key)?;
                looks(alloc, request, source, Aim::Copy { name, headers })
            }
            Order::List { bucket, prefix } => {
                let bucket = Block::new(alloc, bucket)?;
                let phase = asks_past(alloc, &bucket, &prefix, Bytes::new(alloc))?;
                let rows = List::new(alloc);
                let stage = Stage::Listing {
                    bucket,
                    prefix,
                    rows,
                };
                Ok((request.at(stage), phase))
            }
        }
    }

    fn next(
        &self,
        alloc: Global,
        flow: Flow,
        end: PhaseEnd<AnyRow>,
        now: u64,
    ) -> Result<FlowStep, Memory> {
        let Flow { id, block, stage } = flow;
        let request = Request { id, block };
        match end {
            PhaseEnd::Row(value) => after_row(alloc, request, stage, value, now),
            PhaseEnd::Window { rows, end } => after_window(alloc, request, stage, rows, end),
            PhaseEnd::Kept => after_kept(alloc, request, stage),
            PhaseEnd::Block(block) => after_block(alloc, request, stage, block),
        }
    }

    fn block(
        &self,
        alloc: Global,
        flow: Flow,
        bytes: Block,
    ) -> Result<(Flow, Phase<AnyRow>), Memory> {
        let Flow { id, block, stage } = flow;
        feeds(alloc, Request { id, block }, stage, bytes)
    }

    fn finish(&self, alloc: Global, flow: Flow) -> Result<(Flow, Phase<AnyRow>), Memory> {
        let Flow { id, block, stage } = flow;
        keeps(alloc, Request { id, block }, stage)
    }

    fn abort(&self, alloc: Global, flow: Flow) -> Result<(Flow, Phase<AnyRow>), Memory> {
        let Flow { id, block, stage } = flow;
        gives_up(alloc, Request { id, block }, stage)
    }
}
