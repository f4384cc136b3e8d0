//! How a node walks down its rows with other nodes, and pushes what they lack.
ghost use Rattle.std.specs.Prelude.{◌≡◌, ◌⊎◌, [], ◌∷◌, false, map, IfOk, OnOk, IsTrue};
ghost use Rattle.std.specs.List.{list_all};
ghost use Rattle.crdt_core.specs.Outcomes.{OnlyWant, WantOr};
ghost use Rattle.layout_roles.specs.declared.layout.Layout.{Layout};
ghost use Rattle.cluster_machine.specs.Layouts.{layouts};
ghost use Rattle.cluster_machine.specs.Phases.{is_spelled};
ghost use Rattle.cluster_machine.specs.Rounds.{first_asks};
ghost use Rattle.node_parts.specs.Walks.{walk_of, IsSpelled, LacksSpelling};
ghost use Rattle.node_parts.specs.Sends.{found_in, rows_with_blocks, with_others, AreMoved, Sent, Asks, Pushes, Starts, StartsAll, CannotStart, WalksOn, CannotWalk, WalksLate, CannotWalkLate};

use crate::contents::Contents;
use crate::packet::Envelope;
use crate::posts::{send, send_each};
use crate::rounds::Mending;
use crate::sets::others_of;
use crate::walks::{Answer, NodeWalk, Walks};
use blake2_hash::Hash32;
use block_bytes::Block;
use block_store::Blocks;
use crdt_core::{Bytes, List, Memory, Value};
use layout_roles::{Layout, PARTITIONS};
use merkle_sync::{Walk, WalkEnd};
use std::alloc::Global;
use table_schema::Schema;
use wire_messages::{Message, Tag};

// The block that a row needs, where it is there.
fn block_of<S: Schema>(row: &S::Row, blocks: &Blocks) -> Result<Option<Block>, Memory>
    ensures is { IfOk result (λ block. block ≡ found_in blocks.now (S.words.live_block row.now)) }
    ensures want { OnlyWant result }
{
    let Some(hash) = S::live_block(row) else {
        return Ok(None);
    };
    match blocks.get(&hash) {
        Some(block) => Ok(Some(block.share()?)),
        None => Ok(None),
    }
}

// The bytes of each row, with the block that it needs.
fn bytes_of_each<S: Schema>(
    alloc: Global,
    rows: &[S::Row],
    blocks: &Blocks,
) -> Result<List<(Bytes, Option<Block>)>, Memory>
    ensures are { IfOk result (λ stored. stored ≡ rows_with_blocks S.words blocks.now rows.now) }
    ensures spelled { OnOk result (IsTrue (list_all (is_spelled S.words) rows.now)) }
    ensures causes { WantOr result (list_all (is_spelled S.words) rows.now ≡ false) }
{
    let mut stored = List::new(alloc);
    for row in rows {
        let block = block_of::<S>(row, blocks)?;
        stored.push((S::row_bytes(alloc, row)?, block))?;
    }
    Ok(stored)
}

/// Who sends in a round or a repair.
#[derive(Clone, Copy)]
pub struct Sender {
    pub node: u8,
    /// Its newest layout version.
    pub newest: u32,
    /// The number of the round or repair.
    pub round: u64,
    pub alloc: Global,
}

impl Sender {
    /// The partitions of which there are rows, among those whose set in the layout `here` has the node, with their sets
    /// in the layout `there`.
    pub fn moved<S: Schema>(
        self,
        contents: &Contents<S>,
        here: &Layout,
        there: &Layout,
    ) -> Result<Vec<(u8, [u8; 3])>, Memory>
        ensures are { IfOk result
            (λ parts. AreMoved S.Row.join S.words self contents.now here.now there.now parts.items) }
        ensures want { OnlyWant result }
    {
        let mut parts = Vec::new(self.alloc);
        for partition in 0..PARTITIONS {
            let p = partition as u8;
            if here.sets.set(p).contains(&self.node) && contents.has_rows(p) {
                parts.push((p, there.sets.set(p)))?;
            }
        }
        Ok(parts)
    }

    /// These partitions with the other nodes of their sets.
    pub fn others(self, parts: &[(u8, [u8; 3])]) -> Result<Vec<(u8, Vec<u8>)>, Memory>
        ensures are { IfOk result
            (λ places. map (λ place. (place.0, place.1.items)) places.items ≡
            with_others self.node parts.now) }
        ensures want { OnlyWant result }
    {
        let mut places = Vec::new(self.alloc);
        for (p, set) in parts {
            places.push((*p, others_of(self.alloc, set, self.node)?))?;
        }
        Ok(places)
    }

    // Asks another node for the value at a prefix.
    fn ask<S: Schema>(
        self,
        contents: &mut Contents<S>,
        to: u8,
        p: u8,
        table: u8,
        prefix: &Bytes,
        out: &mut Vec<Envelope<S::Row>>,
    ) -> Result<(), Memory>
        ensures asks { OnOk result
            (Asks S.Row.join S.words self contents.old out.old.items out.new.items to p table
            (prefix.now ∷ [])) }
        ensures unchanged { OnOk result (contents.new ≡ contents.old) }
        ensures causes { WantOr result (LacksSpelling S.Row.join S.words contents.old p) }
    {
        let message = Message::Walk {
            tag: Tag::Round {
                round: self.round,
                p,
            },
            newest: self.newest,
            p,
            table,
            prefix: prefix.copy()?,
            hash: contents.value(p, table, prefix.as_slice())?,
        };
        send(out, self.node, to, message)
    }

    // Asks for each of these prefixes of a table.
    fn ask_each<S: Schema>(
        self,
        contents: &mut Contents<S>,
        to: u8,
        p: u8,
        table: u8,
        prefixes: &[Bytes],
        out: &mut Vec<Envelope<S::Row>>,
    ) -> Result<(), Memory>
        ensures asks { OnOk result
            (Asks S.Row.join S.words self contents.old out.old.items out.new.items to p table prefixes.now) }
        ensures unchanged { OnOk result (contents.new ≡ contents.old) }
        ensures causes { WantOr result (LacksSpelling S.Row.join S.words contents.old p) }
    {
        for prefix in prefixes {
            self.ask(contents, to, p, table, prefix, out)?;
        }
        Ok(())
    }

    // Asks for each open prefix of a walk.
    fn ask_first<S: Schema>(
        self,
        contents: &mut Contents<S>,
        walk: &NodeWalk,
        out: &mut Vec<Envelope<S::Row>>,
    ) -> Result<(), Memory>
        ensures asks { OnOk result
            (Sent S.Row.join S.words self contents.old out.old.items out.new.items
            (λ x. first_asks S.Row.join S.words layouts x self.round (walk_of walk.now))) }
        ensures unchanged { OnOk result (contents.new ≡ contents.old) }
        ensures causes { WantOr result
            (LacksSpelling S.Row.join S.words contents.old walk.now.state.partition) }
    {
        let p = walk.state.partition();
        for (table, prefix) in walk.state.open() {
            self.ask(contents, walk.node, p, *table, prefix, out)?;
        }
        Ok(())
    }

    // Begins walks over a partition with these nodes.
    fn start<S: Schema>(
        self,
        contents: &mut Contents<S>,
        p: u8,
        nodes: &[u8],
        begun: &mut Vec<NodeWalk>,
        out: &mut Vec<Envelope<S::Row>>,
    ) -> Result<(), Memory>
        ensures starts { OnOk result
            (Starts S.Row.join S.words self contents.old p nodes.now out.old.items out.new.items begun.old.items begun.new.items) }
        ensures unchanged { OnOk result (contents.new ≡ contents.old) }
        ensures spelled { OnOk result (IsSpelled S.Row.join S.words contents.old p) }
        ensures causes { WantOr result (LacksSpelling S.Row.join S.words contents.old p) }
    {
        contents.settle(p)?;
        let tables = contents.tables(p)?;
        for node in nodes {
            let state = Walk::start(self.alloc, p, tables.as_slice())?;
            let walk = NodeWalk { node: *node, state };
            self.ask_first(contents, &walk, out)?;
            begun.push(walk)?;
        }
        Ok(())
    }

    /// Begins walks over each of these partitions with its nodes, and asks first.
    pub fn start_all<S: Schema>(
        self,
        contents: &mut Contents<S>,
        places: &[(u8, Vec<u8>)],
        out: &mut Vec<Envelope<S::Row>>,
    ) -> Result<Vec<NodeWalk>, Memory>
        ensures starts { IfOk result
            (λ begun. StartsAll S.Row.join S.words self contents.old (map
            (λ place.
            (place.0, place.1.items)) places.now) out.old.items out.new.items begun.items) }
        ensures unchanged { OnOk result (contents.new ≡ contents.old) }
        ensures causes { WantOr result (CannotStart S.Row.join S.words contents.old (map
            (λ place. (place.0, place.1.items)) places.now)) }
    {
        let mut begun = Vec::new(self.alloc);
        for (p, nodes) in places {
            self.start(contents, *p, nodes.as_slice(), &mut begun, out)?;
        }
        Ok(begun)
    }

    // Pushes the rows of a partition that were noted, those that are there still, with their blocks. Where there are none
    // nothing is sent.
    fn push<S: Schema>(
        self,
        contents: &Contents<S>,
        to: u8,
        p: u8,
        noted: &[(u8, Hash32)],
        out: &mut Vec<Envelope<S::Row>>,
    ) -> Result<(), Memory>
        ensures pushes { OnOk result
            (Pushes S.Row.join S.words self contents.now out.old.items out.new.items to p noted.now) }
        ensures causes { WantOr result (LacksSpelling S.Row.join S.words contents.now p) }
    {
        let rows = contents.table.noted_rows(p, noted)?;
        if rows.is_empty() {
            return Ok(());
        }
        let message = Message::Store {
            tag: Tag::Round {
                round: self.round,
                p,
            },
            newest: self.newest,
            p,
            rows: bytes_of_each::<S>(self.alloc, rows.as_slice(), &contents.blocks)?,
        };
        send(out, self.node, to, message)
    }

    /// An answer comes. The walk of these that awaits it asks on, or pushes what it noted. Whether it ended with nothing
    /// noted: then the other node has all that this one has.
    pub fn walk_on<S: Schema>(
        self,
        contents: &mut Contents<S>,
        walks: &mut Walks,
        answer: Answer<'_>,
        out: &mut Vec<Envelope<S::Row>>,
    ) -> Result<bool, Memory>
        ensures walks { IfOk result
            (λ is_same. WalksOn S.Row.join S.words self contents.old walks.old walks.new answer.entry out.old.items out.new.items is_same) }
        ensures unchanged { OnOk result (contents.new ≡ contents.old) }
        ensures causes { WantOr result
            (CannotWalk S.Row.join S.words self contents.old walks.old answer.entry) }
    {
        let (to, p) = (answer.from, answer.p);
        match walks.take_answer(contents, answer)? {
            None => Ok(false),
            Some(WalkEnd::Same) => Ok(true),
            Some(WalkEnd::Ask(prefixes)) => {
                self.ask_each(contents, to, p, answer.table, prefixes.as_slice(), out)?;
                Ok(false)
            }
            Some(WalkEnd::Push(noted)) => {
                self.push(contents, to, p, noted.as_slice(), out)?;
                Ok(false)
            }
        }
    }

    /// An answer comes to a walk of a repair, or of a round that is complete, where that has this number; whether it has.
    pub fn mend<S: Schema>(
        self,
        contents: &mut Contents<S>,
        mending: &mut Option<Mending>,
        answer: Answer<'_>,
        out: &mut Vec<Envelope<S::Row>>,
    ) -> Result<bool, Memory>
        ensures walks { IfOk result
            (λ taken. WalksLate S.Row.join S.words self contents.old mending.old mending.new answer.entry out.old.items out.new.items taken) }
        ensures unchanged { OnOk result (contents.new ≡ contents.old) }
        ensures causes { WantOr result
            (CannotWalkLate S.Row.join S.words self contents.old mending.old answer.entry) }
    {
        let Some(mut kept) = mending.take() else {
            return Ok(false);
        };
        if kept.number != self.round {
            *mending = Some(kept);
            return Ok(false);
        }
        let _ = self.walk_on(contents, &mut kept.walks, answer, out)?;
        *mending = Some(kept);
        Ok(true)
    }
}
