//! What a node has: its rows, those that wait to be stored at other nodes, and its blocks.

ghost use Rattle.std.specs.Prelude.{◌≡◌, ◌⊎◌, ℕ, Some, None, [], ◌∷◌, length, map, IsTrue, IfOk, OnOk, option_map};
ghost use Rattle.std.specs.List.{AllByRecursion};
ghost use Rattle.crdt_core.specs.Outcomes.{OnlyWant, WantOr};
ghost use Rattle.blake2_hash.specs.Blake2b.{blake2b};
ghost use Rattle.layout_roles.specs.declared.layout.Layout.{Layout};
ghost use Rattle.table_schema.specs.Words.{partition_of};
ghost use Rattle.block_resync.specs.Outbox.{IsNumbered};
ghost use Rattle.cluster_machine.specs.Node.{Node, new_node};
ghost use Rattle.cluster_machine.specs.Rows.{accepts};
ghost use Rattle.cluster_machine.specs.Blocks.{IsBeside, IsRowWithBlock};
ghost use Rattle.cluster_machine.specs.Acts.{unconfirmed, without_due};
ghost use Rattle.node_parts.specs.Contents.{IsContents, item_at, Turns, Exceeds, Accepts, CannotAccept, Drops, CountsDue, Confirms, SendsItems};

use crate::packet::Envelope;
use crate::posts::send_each;
use crate::references::{delete_all, end_references, refer};
use crate::sets::{is_given, nodes_of, stored_sets};
use block_bytes::Block;
use block_resync::Resync;
use block_store::Blocks;
use crdt_core::{Bytes, List, Memory, Value};
use layout_history::View;
use numbered_list::place_of;
use std::alloc::Global;
use table_schema::{RowFault, Schema, partition};
use table_store::Table;
use wire_messages::{Message, Tag};

/// The rows of a node, its outbox, and the blocks that its rows need or needed.
#[derive(Drop)]
pub struct Contents<S: Schema> {
    pub table: Table<S>,
    pub outbox: Resync,
    pub blocks: Blocks,
    pub alloc: Global,
}

impl<S: Schema> Contents<S> {
    pub fn new(alloc: Global) -> Result<Contents<S>, Memory>
        ensures empty { IfOk result (λ contents. IsContents S.Row.join S.words contents new_node) }
        ensures want { OnlyWant result }
    {
        Ok(Contents {
            table: Table::new(alloc)?,
            outbox: Resync::new(alloc),
            blocks: Blocks::new(alloc),
            alloc,
        })
    }

    // Merges a row in, keeps the block that it needs and that came with it, and queues the rows that this calls for.
    pub(crate) fn accept(
        &mut self,
        row: S::Row,
        given: &Option<Block>,
        now: u64,
    ) -> Result<(), Memory>
        requires proper { IsTrue (S.words.is_proper row) }
        requires beside { IsBeside (blake2b 32) (S.words.live_block row) given.now }
        ensures accepts { OnOk result (Turns S.Row.join S.words self.old self.new
            (λ x. accepts S.Row.join S.words now x row given.now)) }
        ensures causes { WantOr result (Exceeds S.Row.join S.words self.old
            (λ x. accepts S.Row.join S.words now x row given.now)) }
    {
        let needed = S::live_block(&row);
        let taken = self.table.take_in(row)?;
        let after = if taken.change.is_live { needed } else { None };
        refer(&mut self.blocks, taken.before, after, given, now)?;
        for called in taken.change.triggered.as_slice() {
            let bytes = S::row_bytes(self.alloc, called)?;
            let _ = self.outbox.push(bytes, partition::<S>(called))?;
        }
        Ok(())
    }

    /// Merges in the rows that have these bytes, one after the other, each with the block that it needs, and queues
    /// those that this calls for. Bytes of no row are passed over.
    pub fn accept_all(&mut self, rows: &[(Bytes, Option<Block>)], now: u64) -> Result<(), Memory>
        requires stocked { AllByRecursion (IsRowWithBlock (blake2b 32) S.words) rows.now }
        ensures accepts { OnOk result (Accepts S.Row.join S.words self.old self.new now rows.now) }
        ensures causes { WantOr result (CannotAccept S.Row.join S.words self.old now rows.now) }
    {
        for stored in rows {
            match S::row_from(self.alloc, stored.0.as_slice()) {
                Ok(row) => self.accept(row, &stored.1, now)?,
                Err(RowFault::NotARow) => {}
                Err(RowFault::Memory) => return Err(Memory::Want),
            }
        }
        Ok(())
    }

    /// Drops each row whose partition none of the view's sets gives the node.
    pub fn drop_lost(&mut self, view: &View, node: u8, now: u64) -> Result<(), Memory>
        ensures drops { OnOk result (Drops S.Row.join S.words self.old self.new view.now node now) }
        ensures want { OnlyWant result }
    {
        for p in 0..=255 {
            if !is_given(view, node, p) {
                let hashes = self.table.drop_partition(p)?;
                end_references(&mut self.blocks, hashes.as_slice(), now);
            }
        }
        Ok(())
    }

    /// Deletes the blocks that have had no live reference for long enough; how many these are.
    pub fn delete_due(&mut self, now: u64) -> Result<u64, Memory>
        ensures deletes { OnOk result (Turns S.Row.join S.words self.old self.new
            (λ x. without_due S.Row.join S.words now x)) }
        ensures count { IfOk result (λ count. CountsDue S.Row.join S.words self.old now count) }
        ensures want { OnlyWant result }
    {
        let before = self.blocks.len();
        let due = self.outbox.due(&self.blocks, now)?;
        delete_all(&mut self.blocks, due.as_slice());
        Ok((before - self.blocks.len()) as u64)
    }

    // The partition of the row that waits under this number, where there is one.
    fn waiting(&self, number: u64) -> Option<u8>
        ensures is { (x : Node S.Row Layout) → IsContents S.Row.join S.words self.now x →
            result ≡ option_map (λ m. partition_of S.words m.row) (item_at x.items number) }
        ensures numbered { IsNumbered self.now.outbox.pushed self.now.outbox.items }
    {
        let items = self.outbox.items();
        match place_of(items, number) {
            Some(place) => Some(items[place].partition),
            None => None,
        }
    }

    /// A node confirms a row that waits. It waits no longer when two nodes of each of its stored sets have.
    pub fn confirm(&mut self, view: &View, number: u64, node: u8) -> Result<(), Memory>
        ensures confirms { OnOk result
            (Confirms S.Row.join S.words self.old self.new view.now number node) }
        ensures want { OnlyWant result }
    {
        let Some(p) = self.waiting(number) else {
            return Ok(());
        };
        let sets = stored_sets(self.alloc, view, p)?;
        self.outbox.confirm(number, node)?;
        let _ = self.outbox.done(number, sets.as_slice());
        Ok(())
    }

    /// Forgets who confirmed the rows that wait.
    pub fn forget_confirmations(&mut self)
        ensures { Turns S.Row.join S.words self.old self.new
            (λ x. record x { items = map unconfirmed x.items }) }
    {
        self.outbox.forget_confirms();
    }

    /// Sends each row that waits to all nodes of its stored sets; how many these are.
    pub fn send_waiting(
        &self,
        view: &View,
        node: u8,
        out: &mut Vec<Envelope<S::Row>>,
    ) -> Result<u64, Memory>
        ensures sent { OnOk result
            (SendsItems S.Row.join S.words self.now view.now node out.old.items out.new.items) }
        ensures count { IfOk result (λ count. count ≡ length self.now.outbox.items) }
        ensures want { OnlyWant result }
    {
        let items = self.outbox.items();
        for item in items {
            let sets = stored_sets(self.alloc, view, item.partition)?;
            let nodes = nodes_of(self.alloc, sets.as_slice())?;
            let mut rows = List::new(self.alloc);
            rows.push((item.row.copy()?, None))?;
            let tag = Tag::Item {
                number: item.number,
            };
            let message = Message::Store {
                tag,
                newest: view.newest(),
                p: item.partition,
                rows,
            };
            send_each(out, node, nodes.as_slice(), message)?;
        }
        Ok(items.len() as u64)
    }
}
