//! How a phase of a request begins.
ghost use Rattle.std.specs.Prelude.{◌≡◌, ◌⊎◌, false, leb, IsTrue, IsSome, IfSome, IfOk};
ghost use Rattle.crdt_core.specs.Outcomes.{WantOr};
ghost use Rattle.std.specs.List.{list_all};
ghost use Rattle.view_model.specs.Layouts.{reading};
ghost use Rattle.layout_history.specs.Views.{known};
ghost use Rattle.view_model.specs.View.{newest, read_version};
ghost use Rattle.table_schema.specs.Words.{partition_at};
ghost use Rattle.cluster_machine.specs.Layouts.{set_at, layouts};
ghost use Rattle.cluster_machine.specs.Phases.{is_spelled};
ghost use Rattle.cluster_machine.specs.Keeping.{AreShort, IsShort};
ghost use Rattle.node_parts.specs.Begins.{Begins, CannotBegin, Stores, StoresAll};

use crate::call::Present;
use crate::packet::Envelope;
use crate::posts::{send_each, share_block};
use crate::sets::{nodes_of, stored_sets};
use blake2_hash::Hash32;
use block_bytes::Block;
use crdt_core::{List, Memory, Value};
use layout_history::View;
use quorum_tally::Tally;
use read_call::{RangeCall, ReadCall};
use std::alloc::Global;
use table_schema::{Schema, partition};
use wire_messages::{Message, Phase, Tag};
use write_call::WriteCall;

/// A phase as it begins.
#[derive(Clone, Copy)]
pub struct Beginning {
    /// The coordinator.
    pub node: u8,
    pub request: u64,
    /// The number of the phase in its request.
    pub phase: u32,
    pub alloc: Global,
}

// The nodes of a position in the version that is read.
fn nodes_at(view: &View, position: &Hash32) -> Option<[u8; 3]>
    ensures are { IfSome result
        (λ nodes. nodes ≡ set_at layouts (known view.now) (read_version reading (known view.now))
        (partition_at position.now.0)) }
    ensures stored { IsTrue (leb 1 (newest reading (known view.now))) → IsSome result }
{
    match view.layout(view.read_version()) {
        Some(layout) => Some(layout.sets.set(position.0[0])),
        None => None,
    }
}

impl Beginning {
    // Sends a row, with the block beside it, to all nodes of its stored sets; its confirmations so far.
    fn store<S: Schema>(
        self,
        view: &View,
        slot: u8,
        row: &(S::Row, Option<Block>),
        out: &mut Vec<Envelope<S::Row>>,
    ) -> Result<Tally, Memory>
        ensures stores { IfOk result
            (λ tally. Stores S.words self view.now slot row.now out.old.items out.new.items tally) }
        ensures causes { WantOr result (is_spelled S.words row.now.0 ≡ false) }
    {
        let p = partition::<S>(&row.0);
        let sets = stored_sets(self.alloc, view, p)?;
        let nodes = nodes_of(self.alloc, sets.as_slice())?;
        let mut rows = List::new(self.alloc);
        rows.push((S::row_bytes(self.alloc, &row.0)?, share_block(&row.1)?))?;
        let tag = Tag::Call {
            request: self.request,
            phase: self.phase,
            slot,
        };
        let message = Message::Store {
            tag,
            newest: view.newest(),
            p,
            rows,
        };
        send_each(out, self.node, nodes.as_slice(), message)?;
        Tally::new(self.alloc, view.oldest(), sets.as_slice())
    }

    // Sends each row, with the block beside it, to all nodes of its stored sets.
    fn store_all<S: Schema>(
        self,
        view: &View,
        rows: &[(S::Row, Option<Block>)],
        out: &mut Vec<Envelope<S::Row>>,
    ) -> Result<WriteCall, Memory>
        requires short { AreShort rows.now }
        ensures stores { IfOk result
            (λ call. StoresAll S.words self view.now rows.now out.old.items out.new.items call) }
        ensures causes { WantOr result (list_all (λ r. is_spelled S.words r.0) rows.now ≡ false) }
    {
        let mut slots = Vec::new(self.alloc);
        for row in rows {
            let slot = slots.len() as u8;
            slots.push(self.store::<S>(view, slot, row, out)?)?;
        }
        Ok(WriteCall::new(slots))
    }

    /// Sends what the phase sends first, by the view as it is now.
    pub fn begin<S: Schema>(
        self,
        view: &View,
        phase: &Phase<S::Row>,
        out: &mut Vec<Envelope<S::Row>>,
    ) -> Result<Present<S>, Memory>
        requires short { IsShort phase.now }
        ensures begins { IfOk result
            (λ present. Begins S.words self view.now phase.now out.old.items out.new.items present) }
        ensures causes { WantOr result (CannotBegin S.words self view.now phase.now) }
    {
        let at = view.read_version();
        match phase {
            Phase::Read {
                table,
                position,
                key,
            } => {
                let Some(nodes) = nodes_at(view, position) else {
                    return Ok(Present::Resting);
                };
                let message = Message::Get {
                    request: self.request,
                    phase: self.phase,
                    at,
                    table: *table,
                    key: key.copy()?,
                };
                send_each(out, self.node, &nodes, message)?;
                Ok(Present::Asking(ReadCall::new(nodes)))
            }
            Phase::Range {
                position,
                prefix,
                after,
            } => {
                let Some(nodes) = nodes_at(view, position) else {
                    return Ok(Present::Resting);
                };
                let message = Message::Range {
                    request: self.request,
                    phase: self.phase,
                    at,
                    bucket: *position,
                    prefix: prefix.copy()?,
                    after: after.copy()?,
                };
                send_each(out, self.node, &nodes, message)?;
                Ok(Present::Scanning(RangeCall::new(nodes)))
            }
            Phase::Store { rows } => {
                Ok(Present::Storing(self.store_all::<S>(view, rows.as_slice(), out)?))
            }
            Phase::Block { hash } => {
                let Some(nodes) = nodes_at(view, hash) else {
                    return Ok(Present::Resting);
                };
                let message = Message::BlockGet {
                    request: self.request,
                    phase: self.phase,
                    at,
                    hash: *hash,
                };
                send_each(out, self.node, &nodes, message)?;
                Ok(Present::Fetching)
            }
        }
    }
}
