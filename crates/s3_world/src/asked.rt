//! What is kept of a request.
ghost use Rattle.std.specs.Prelude.{◌≡◌, ◌∷◌, ℕ, List as Listed, Some, None, OnOk, IfOk, IfSome, IfNone};
ghost use Rattle.crdt_core.specs.Outcomes.{OnlyWant};
ghost use Rattle.flow_model.specs.Streams.{need_of as need_of_flow};
ghost use Rattle.store_model.specs.Gets.{object_given as object_of_end};
ghost use Rattle.s3_world.specs.Driven.{needs_of};
ghost use Rattle.s3_world.specs.Reads.{heard, after_phase, with_block as one_more, has_block, is_done, HasNoBlock};

use block_bytes::Block;
use crdt_core::{List, Memory, Value};
use crdt_rows::{AnyRow, Body, Meta, Version};
use flow_model::{Flow, Stage};
use history_model::Kind;
use std::alloc::Global;
use wire_messages::PhaseEnd;

/// What a request does, at which node, and what it waits for; nothing once it has ended by itself.
#[derive(Drop)]
pub struct Asked {
    pub node: u8,
    pub kind: Kind,
    pub flow: Option<Flow>,
    /// The object that a get found, until its end is taken.
    pub found: Option<(Version, Meta)>,
    /// The blocks that a get gathered and that wait to be handed out, until its end is taken. None before the first.
    pub blocks: Option<List<Block>>,
}

// The object that a phase gave.
fn object_given(end: &PhaseEnd<AnyRow>) -> Result<Option<(Version, Meta)>, Memory>
    ensures is { IfOk result (λ found. found ≡ object_of_end end.now) }
    ensures want { OnlyWant result }
{
    let PhaseEnd::Row(Some(AnyRow::Object(row))) = end else {
        return Ok(None);
    };
    match row.get().newest() {
        Some((version, Body::Inline(meta, _))) => Ok(Some((version, meta.copy()?))),
        Some((version, Body::Blocks(meta, _))) => Ok(Some((version, meta.copy()?))),
        Some((_, Body::Marker)) => Ok(None),
        None => Ok(None),
    }
}

// The blocks that wait, with one that came.
fn with_block(
    alloc: Global,
    blocks: Option<List<Block>>,
    block: Block,
) -> Result<Option<List<Block>>, Memory>
    ensures is { IfOk result (λ blocks'. blocks' ≡ one_more blocks block) }
    ensures want { OnlyWant result }
{
    let mut blocks = match blocks {
        Some(blocks) => blocks,
        None => List::new(alloc),
    };
    blocks.push(block)?;
    Ok(Some(blocks))
}

// What a request that waits so needs of its client.
fn need_of(flow: &Flow) -> Option<u64>
    ensures { result ≡ need_of_flow flow.now }
{
    match &flow.stage {
        Stage::Needing {
            coming,
            received,
            ..
        } => {
            let left = coming.length.saturating_sub(received.len() as u64);
            Some(left.min(u64::from(flow.block)))
        }
        _ => None,
    }
}

impl Asked {
    /// A request at a node, which waits so.
    pub fn new(node: u8, kind: Kind, flow: Flow) -> Asked
        ensures { result ≡ record { node = node; kind = kind; flow = Some flow; found = None; blocks = None } }
    {
        Asked {
            node,
            kind,
            flow: Some(flow),
            found: None,
            blocks: None,
        }
    }

    /// A phase of it gave this: what it waited for then, which is taken from it. None where it has ended. Of a get the
    /// object is kept that it finds, and a block that it gathers.
    pub fn hears(&mut self, alloc: Global, end: &PhaseEnd<AnyRow>) -> Result<Option<Flow>, Memory>
        ensures flow { IfOk result (λ flow. flow ≡ self.old.flow) }
        ensures keeps { OnOk result (self.new ≡ after_phase self.old self.old.flow end.now) }
        ensures want { OnlyWant result }
    {
        let Some(flow) = self.flow.take() else {
            return Ok(None);
        };
        self.reads(alloc, &flow.stage, end)?;
        Ok(Some(flow))
    }

    // What is kept of it once a phase of it gave this, while it waited so.
    fn reads(&mut self, alloc: Global, stage: &Stage, end: &PhaseEnd<AnyRow>) -> Result<(), Memory>
        ensures keeps { OnOk result (self.new ≡ heard self.old stage.now end.now) }
        ensures want { OnlyWant result }
    {
        let Kind::Get = self.kind else {
            return Ok(());
        };
        if self.found.is_none() {
            self.found = object_given(end)?;
        }
        if let (Stage::Gathering { .. }, PhaseEnd::Block(block)) = (stage, end) {
            self.blocks = with_block(alloc, self.blocks.take(), block.share()?)?;
        }
        Ok(())
    }

    /// What it needs of its client: a block of so many bytes, or 0, to be told whether it is kept. None where it waits for
    /// something else, or has ended.
    pub fn need(&self) -> Option<u64>
        ensures { result ≡ needs_of self.now }
    {
        match &self.flow {
            Some(flow) => need_of(flow),
            None => None,
        }
    }

    /// What it waits for, which is taken from it. None where it has ended.
    pub fn take_flow(&mut self) -> Option<Flow>
        ensures flow { result ≡ self.old.flow }
        ensures rest { self.new ≡ record self.old { flow = None } }
    {
        self.flow.take()
    }

    /// It waits so.
    pub fn waits(&mut self, flow: Flow)
        ensures { self.new ≡ record self.old { flow = Some flow } }
    {
        self.flow = Some(flow);
    }

    /// Whether a block of it waits to be handed out.
    pub fn has_piece(&self) -> bool
        ensures { result ≡ has_block self.now.blocks }
    {
        match &self.blocks {
            Some(blocks) => !blocks.is_empty(),
            None => false,
        }
    }

    /// Hands out the first of the blocks that wait.
    pub fn take_piece(&mut self) -> Option<Block>
        ensures piece { IfSome result (λ piece. (rest : Listed (Listed ℕ)) × (self.old.blocks ≡ Some (piece ∷ rest)) × (self.new ≡ record self.old { blocks = Some rest })) }
        ensures none { IfNone result ((self.new ≡ self.old) × HasNoBlock self.old.blocks) }
    {
        match &mut self.blocks {
            Some(blocks) if !blocks.is_empty() => Some(blocks.remove(0)),
            _ => None,
        }
    }

    /// The blocks that wait.
    pub fn into_blocks(self) -> Option<List<Block>>
        ensures { result ≡ self.blocks }
    {
        let Asked { blocks, .. } = self;
        blocks
    }

    /// Whether it waits for nothing, found nothing, and has no blocks.
    pub fn is_over(&self) -> bool
        ensures { result ≡ is_done self.now }
    {
        self.flow.is_none() && self.found.is_none() && self.blocks.is_none()
    }
}
