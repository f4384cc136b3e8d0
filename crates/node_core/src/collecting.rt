//! How a node collects delete markers, and helps others to.
ghost use Rattle.std.specs.Prelude.{◌≡◌, ◌⊎◌, ◌==◌, true, false, List, None, IfOk, OnOk};
ghost use Rattle.crdt_core.specs.Outcomes.{OnlyWant, WantOr};
ghost use Rattle.view_model.specs.Layouts.{reading};
ghost use Rattle.view_model.specs.View.{newest};
ghost use Rattle.cluster_machine.specs.Layouts.{layouts};
ghost use Rattle.blake2_hash.specs.Blake2b.{blake2b};
ghost use Rattle.cluster_machine.specs.Blocks.{NeedsNone};
ghost use Rattle.cluster_machine.specs.Collects.{takes_tomb, tomb_came, forgets, finishes};
ghost use Rattle.cluster_machine.specs.Acts.{acts};
ghost use Rattle.cluster_machine.specs.declared.step.Action.TheVariants.{Collect as Gather};
ghost use Rattle.gc_model.specs.declared.collection.GcEnd.TheVariants.{Complete};
ghost use Rattle.gc_model.specs.Collecting.{numbered};
ghost use Rattle.node_parts.specs.declared.packet.Envelope.{Envelope};
ghost use Rattle.node_core.specs.Stands.{view_of};

use crate::node::Node;
use blake2_hash::Hash32;
use cluster_machine::LocalEnd;
use crdt_core::{Bytes, Memory};
use gc_model::GcEnd;
use node_parts::{Collector, Envelope, send};
use table_schema::Schema;
use wire_messages::Message;

impl<S: Schema> Node<S> {
    ghost use Rattle.node_core.specs.Stands.{Does, Drops, Acts, Overflows};

    // Who collects.
    fn collector(&self, now: u64) -> Collector
        ensures { result ≡
            record { node = self.now.id; newest = newest reading (view_of self.now); now = now; alloc = self.now.alloc } }
    {
        Collector {
            node: self.id,
            newest: self.view.newest(),
            now,
            alloc: self.alloc,
        }
    }

    /// A node asks to merge a tombstone and to confirm a round of its collection.
    pub(crate) fn take_tomb(
        &mut self,
        from: u8,
        collection: u64,
        round: u8,
        row: &Bytes,
        now: u64,
        out: &mut Vec<Envelope<S::Row>>,
    ) -> Result<(), Memory>
        requires needs_none { NeedsNone (blake2b 32) S.words row.now }
        ensures takes { OnOk result
            (Does S.Row.join S.words self.old self.new out.old.items out.new.items None
            (λ id x. takes_tomb S.Row.join S.words layouts id now x from collection round row.now)) }
        ensures causes { WantOr result (Overflows S.Row.join S.words self.old
            (λ id x. takes_tomb S.Row.join S.words layouts id now x from collection round row.now)) }
    {
        self.contents.merge(&self.view, self.id, row, now)?;
        let message = Message::Tombed {
            collection,
            round,
            newest: self.view.newest(),
        };
        send(out, self.id, from, message)
    }

    /// A node confirms a round of a collection, and names its newest layout version; the delete marker of the row that
    /// is dropped, where one is.
    pub(crate) fn take_tombed(
        &mut self,
        from: u8,
        collection: u64,
        round: u8,
        named: u32,
        now: u64,
        out: &mut Vec<Envelope<S::Row>>,
    ) -> Result<Option<(u64, u64)>, Memory>
        ensures comes { IfOk result
            (λ dropped. Drops S.Row.join S.words self.old self.new out.old.items out.new.items dropped
            (λ id x. tomb_came S.Row.join S.words layouts id now x from collection round named)) }
        ensures want { OnlyWant result }
    {
        let end = self.gc.tombed(collection, round, from, named, now)?;
        if !is_last(end, round) {
            return Ok(None);
        }
        self.finish(collection, now, out)
    }

    // A collection has come to its end. Its row is dropped where neither that nor the newest version has changed.
    fn finish(
        &mut self,
        collection: u64,
        now: u64,
        out: &mut Vec<Envelope<S::Row>>,
    ) -> Result<Option<(u64, u64)>, Memory>
        ensures finishes { IfOk result
            (λ dropped. Drops S.Row.join S.words self.old self.new out.old.items out.new.items dropped
            (λ id x. finishes S.Row.join S.words layouts id x (numbered collection x.gc))) }
        ensures want { OnlyWant result }
    {
        let collector = self.collector(now);
        let Some(ended) = self.gc.numbered(collection) else {
            return Ok(None);
        };
        let dropped = collector.end(&mut self.contents, ended, out)?;
        self.gc.close(collection);
        Ok(dropped)
    }

    /// Another node has collected a row with this digest; the delete marker of the row that is dropped, where one is.
    pub(crate) fn take_forget(
        &mut self,
        table: u8,
        key: &Bytes,
        hash: &Hash32,
    ) -> Result<Option<(u64, u64)>, Memory>
        ensures forgets { IfOk result (λ dropped. (out : List (Envelope S.Row)) →
            Drops S.Row.join S.words self.old self.new out out dropped
            (λ id x. forgets S.Row.join S.words x table key.now hash.now.0)) }
        ensures want { OnlyWant result }
    {
        self.contents.forget(table, key.as_slice(), hash)
    }

    /// Begins to collect delete markers, and goes on with what is open.
    pub(crate) fn collect(
        &mut self,
        now: u64,
        out: &mut Vec<Envelope<S::Row>>,
    ) -> Result<LocalEnd, Memory>
        ensures collects { IfOk result
            (λ how. Acts S.Row.join S.words self.old self.new out.old.items out.new.items how
            (λ id x. acts S.Row.join S.words layouts id now x Gather)) }
        ensures causes { WantOr result (Overflows S.Row.join S.words self.old
            (λ id x. (acts S.Row.join S.words layouts id now x Gather).did)) }
    {
        let collector = self.collector(now);
        let begun = collector.collect(&self.contents, &mut self.gc, out)?;
        let left = self.gc.all().len() as u64;
        Ok(LocalEnd::Collected { begun, left })
    }
}

// The answer completes round 2.
fn is_last(end: GcEnd, round: u8) -> bool
    ensures last { result ≡ true → (end ≡ Complete) × ((round == 2) ≡ true) }
    ensures goes_on { result ≡ false → end ≡ Complete → (round == 2) ≡ false }
{
    match end {
        GcEnd::Complete => round == 2,
        GcEnd::Wait | GcEnd::Closed => false,
    }
}
