//! How a node collects its delete markers.
ghost use Rattle.std.specs.Prelude.{◌≡◌, ◌⊎◌, ◌+◌, ◌-◌, ◌^◌, ◌≤◌, ◌<◌, ◌==◌, ◌&&◌, ◌||◌, ◌++◌, ◌∷◌, [], ℕ, List, true, cond, is_some, nat_lt, Some, None, IsTrue, IfOk, IfSome, IfNone, OnOk};
ghost use Rattle.crdt_core.specs.Outcomes.{OnlyWant, WantOr};
ghost use Rattle.wire_messages.specs.declared.message.Message.TheVariants.{Tomb};
ghost use Rattle.gc_model.specs.Collecting.{IsNumbered, changed, in_second, is_ready, keyed, numbered};
ghost use Rattle.cluster_machine.specs.Collects.{collection_age, collection_pause, has_bytes, is_aged, others};
ghost use Rattle.cluster_machine.specs.Phases.{to_each};
ghost use Rattle.cluster_machine.specs.Rows.{same_bytes};
ghost use Rattle.node_parts.specs.Posts.{Posts};
ghost use Rattle.node_parts.specs.Collects.{Abouts, CannotAbout, AboutAt, CannotAboutAt, AboutKeys, CannotAboutKeys, Begins, IsOpen, GoesOn, Ends, gone_from, closed_all, ClosesGone, Looks, Collects, CannotCollect, marker_of};
ghost use Rattle.table_store.specs.Index.{has_key};
ghost use Rattle.table_model.specs.Rows.{find_row};

use crate::contents::Contents;
use crate::packet::Envelope;
use crate::posts::send_each;
use blake2_hash::blake2b_256;
use crdt_core::{Bytes, Memory, Value};
use gc_model::Collection;
use std::alloc::Global;
use std::collections::BTreeSet;
use table_gc::Collections;
use table_schema::Schema;
use wire_messages::Message;

/// So long ago, in milliseconds, a delete marker's timestamp has to be for its row to be collected.
const AGE: u64 = 86_400_000;

/// So long after round 1 was complete, in milliseconds, round 2 begins.
const PAUSE: u64 = 10_800_000;

/// Who collects.
#[derive(Clone, Copy)]
pub struct Collector {
    pub node: u8,
    /// Its newest layout version.
    pub newest: u32,
    /// Its clock, in milliseconds.
    pub now: u64,
    pub alloc: Global,
}

// The nodes from 1 to 16 other than this one.
fn others(alloc: Global, node: u8) -> Result<Vec<u8>, Memory>
    ensures are { IfOk result (λ nodes. nodes.items ≡ others node) }
    ensures want { OnlyWant result }
{
    let nodes = [1, 2, 3, 4, 5, 6, 7, 8, 9, 10, 11, 12, 13, 14, 15, 16];
    let others = nodes.iter().filter(|other| **other != node);
    Ok(others.map(|other| *other).collect(alloc)?)
}

impl Collector {
    /// Begins collections of the tombstones that are old enough, goes on with those that are open, and closes those
    /// whose row is another or is gone; how many began. `Full` where a row that it looks at can't be written, or where
    /// a number would be 2^64.
    pub fn collect<S: Schema>(
        self,
        contents: &Contents<S>,
        gc: &mut Collections,
        out: &mut Vec<Envelope<S::Row>>,
    ) -> Result<u64, Memory>
        ensures collects { IfOk result
            (λ begun. Collects S.Row.join S.words self contents.now gc.old gc.new out.old.items out.new.items begun) }
        ensures causes { WantOr result (CannotCollect S.Row.join S.words self contents.now gc.old) }
    {
        let before = gc.begun();
        self.close_gone(contents, gc)?;
        let keys = self.keys(contents, gc)?;
        self.about_all(contents, gc, &keys, out)?;
        Ok(gc.begun() - before)
    }

    // What is done about the rows at these keys, one after the other.
    fn about_all<S: Schema>(
        self,
        contents: &Contents<S>,
        gc: &mut Collections,
        keys: &BTreeSet<Vec<u8>>,
        out: &mut Vec<Envelope<S::Row>>,
    ) -> Result<(), Memory>
        ensures about { OnOk result
            (AboutKeys S.Row.join S.words self contents.now.table keys.now.keys gc.old gc.new out.old.items out.new.items) }
        ensures causes { WantOr result
            (CannotAboutKeys S.Row.join S.words self contents.now.table keys.now.keys gc.old) }
    {
        for key in keys {
            self.about_key(contents, gc, key.as_slice(), out)?;
        }
        Ok(())
    }

    /// Drops the row of a collection that has come to its end, and tells the others, where neither the row nor the newest
    /// layout version has changed; its delete marker.
    pub fn end<S: Schema>(
        self,
        contents: &mut Contents<S>,
        ended: &Collection,
        out: &mut Vec<Envelope<S::Row>>,
    ) -> Result<Option<(u64, u64)>, Memory>
        ensures ends { IfOk result
            (λ dropped. Ends S.Row.join S.words self ended.now contents.old contents.new out.old.items out.new.items dropped) }
        ensures want { OnlyWant result }
    {
        if !self.still_stands(contents, ended)? {
            return Ok(None);
        }
        let dropped = contents.drop_row(1, ended.key.as_slice())?;
        let message = Message::Forget {
            table: 1,
            key: ended.key.copy()?,
            hash: blake2b_256(ended.row.as_slice()),
        };
        let others = others(self.alloc, self.node)?;
        send_each(out, self.node, others.as_slice(), message)?;
        Ok(dropped)
    }

    // Neither the collection's row nor the newest layout version has changed.
    fn still_stands<S: Schema>(
        self,
        contents: &Contents<S>,
        ended: &Collection,
    ) -> Result<bool, Memory>
        ensures is { IfOk result
            (λ stands. stands ≡ ((self.newest == ended.now.newest) &&
            has_bytes S.Row.join S.words ended.now.row
            (find_row S.words 1 ended.now.key contents.now.table))) }
        ensures want { OnlyWant result }
    {
        let same = contents.has_bytes(ended.key.as_slice(), ended.row.as_slice())?;
        Ok(self.newest == ended.newest && same)
    }

    // Closes the collections whose row is gone.
    fn close_gone<S: Schema>(
        self,
        contents: &Contents<S>,
        gc: &mut Collections,
    ) -> Result<(), Memory>
        ensures closes { OnOk result (ClosesGone S.Row.join S.words contents.now gc.old gc.new) }
        ensures want { OnlyWant result }
    {
        let gone = self.gone(contents, gc)?;
        close_all(gc, gone.as_slice());
        Ok(())
    }

    // The numbers of the collections whose row is gone.
    fn gone<S: Schema>(self, contents: &Contents<S>, gc: &Collections) -> Result<Vec<u64>, Memory>
        ensures are { IfOk result
            (λ gone. gone.items ≡ gone_from S.Row.join S.words contents.now gc.now.collections) }
        ensures numbered { IsNumbered gc.now.begun gc.now.collections }
        ensures want { OnlyWant result }
    {
        let all = gc.all();
        let mut gone = Vec::new(self.alloc);
        for collection in all {
            add_gone(contents, collection, &mut gone)?;
        }
        Ok(gone)
    }

    // The keys of the rows that are looked at: those with an open collection, and tombstones that are old enough.
    fn keys<S: Schema>(
        self,
        contents: &Contents<S>,
        gc: &Collections,
    ) -> Result<BTreeSet<Vec<u8>>, Memory>
        ensures are { IfOk result
            (λ keys. Looks S.Row.join S.words self.now contents.now gc.now keys) }
        ensures numbered { IsNumbered gc.now.begun gc.now.collections }
        ensures want { OnlyWant result }
    {
        let _ = gc.all();
        let mut keys = self.aged(contents)?;
        add_open(self.alloc, gc, &mut keys)?;
        let _ = keys.len();
        Ok(keys)
    }

    // The keys of the tombstones that are old enough.
    fn aged<S: Schema>(self, contents: &Contents<S>) -> Result<BTreeSet<Vec<u8>>, Memory>
        ensures are { IfOk result (λ keys. (key : List ℕ) →
            has_key key keys.keys ≡ is_aged self.now
            (marker_of S.words (find_row S.words 1 key contents.now.table))) }
        ensures want { OnlyWant result }
    {
        let mut keys = BTreeSet::new(self.alloc);
        let Some(limit) = self.limit() else {
            return Ok(keys);
        };
        contents.table.add_marked(limit, &mut keys)?;
        Ok(keys)
    }

    // The timestamp that a delete marker has at most to be old enough.
    fn limit(self) -> Option<u64>
        ensures some { IfSome result (λ limit. (collection_age ≤ self.now) ×
            (limit ≡ self.now - collection_age)) }
        ensures none { IfNone result (self.now < collection_age) }
    {
        self.now.checked_sub(AGE)
    }

    // What is done about the row at a key.
    fn about_key<S: Schema>(
        self,
        contents: &Contents<S>,
        gc: &mut Collections,
        key: &[u8],
        out: &mut Vec<Envelope<S::Row>>,
    ) -> Result<(), Memory>
        ensures about { OnOk result
            (AboutAt S.Row.join S.words self
            (find_row S.words 1 key.now contents.now.table) gc.old gc.new out.old.items out.new.items) }
        ensures causes { WantOr result (CannotAboutAt S.Row.join S.words self
            (find_row S.words 1 key.now contents.now.table) gc.old) }
    {
        match contents.table.get(1, key) {
            Some(row) => self.about::<S>(gc, row, out),
            None => Ok(()),
        }
    }

    // What is done about a row.
    fn about<S: Schema>(
        self,
        gc: &mut Collections,
        row: &S::Row,
        out: &mut Vec<Envelope<S::Row>>,
    ) -> Result<(), Memory>
        ensures about { OnOk result
            (Abouts S.Row.join S.words self row.now gc.old gc.new out.old.items out.new.items) }
        ensures causes { WantOr result (CannotAbout S.Row.join S.words self row.now gc.old) }
    {
        let bytes = S::row_bytes(self.alloc, row)?;
        let key = S::key(self.alloc, row)?;
        match gc.of(key.as_slice()) {
            None => {
                if !self.is_aged(S::marker(row)) {
                    return Ok(());
                }
                self.begin(gc, key, bytes, out)?;
                Ok(())
            }
            Some(collection) => {
                let number = collection.number;
                if !self.is_same(collection, bytes.as_slice()) {
                    gc.close(number);
                    return Ok(());
                }
                let (round, ready) = (collection.round, collection.ready);
                self.go_on::<S>(gc, number, round, ready, bytes, out)?;
                Ok(())
            }
        }
    }

    // Neither the row nor the node's newest layout version has changed since the collection began.
    fn is_same(self, begun: &Collection, row: &[u8]) -> bool
        ensures { result ≡ (same_bytes row.now begun.now.row && (self.newest == begun.now.newest)) }
    {
        row == begun.row.as_slice() && self.newest == begun.newest
    }

    // The delete marker lies far enough back.
    fn is_aged(self, marker: Option<(u64, u64)>) -> bool
        ensures { result ≡ is_aged self.now marker }
    {
        match (marker, self.limit()) {
            (Some(version), Some(limit)) => version.0 <= limit,
            _ => false,
        }
    }

    // Begins a collection of a row.
    fn begin<R: Drop>(
        self,
        gc: &mut Collections,
        key: Bytes,
        row: Bytes,
        out: &mut Vec<Envelope<R>>,
    ) -> Result<(), Memory>
        ensures begins { OnOk result
            (Begins self key row gc.old gc.new out.old.items out.new.items) }
        ensures causes { WantOr result (2 ^ 64 ≤ gc.old.begun + 1) }
    {
        let sent = row.copy()?;
        let number = gc.begin(key, row, self.node, self.newest)?;
        let others = others(self.alloc, self.node)?;
        ask(out, self.node, others.as_slice(), number, 1, sent)
    }

    // Asks who has not confirmed the open round, or begins round 2.
    fn go_on<S: Schema>(
        self,
        gc: &mut Collections,
        number: u64,
        round: u8,
        ready: Option<u64>,
        row: Bytes,
        out: &mut Vec<Envelope<S::Row>>,
    ) -> Result<(), Memory>
        requires there { IsOpen number round ready row gc.old }
        ensures goes_on { OnOk result
            (GoesOn S.Row.join S.words self number gc.old gc.new out.old.items out.new.items) }
        ensures want { OnlyWant result }
    {
        let Some(ready) = ready else {
            let missing = gc.missing(number)?;
            return ask(out, self.node, missing.as_slice(), number, 1, row);
        };
        if self.waits(ready) {
            return Ok(());
        }
        to_second(gc, number, round)?;
        let missing = gc.missing(number)?;
        ask(out, self.node, missing.as_slice(), number, 2, row)
    }

    // Round 1 was complete too short a time ago.
    fn waits(self, ready: u64) -> bool
        ensures { result ≡ nat_lt self.now (ready + collection_pause) }
    {
        match ready.checked_add(PAUSE) {
            Some(end) => self.now < end,
            None => true,
        }
    }
}

// Adds the keys of the open collections.
fn add_open(alloc: Global, gc: &Collections, keys: &mut BTreeSet<Vec<u8>>) -> Result<(), Memory>
    ensures adds { OnOk result ((key : List ℕ) →
        has_key key keys.new.keys ≡ (has_key key keys.old.keys || is_some (keyed key gc.now))) }
    ensures numbered { IsNumbered gc.now.begun gc.now.collections }
    ensures want { OnlyWant result }
{
    let all = gc.all();
    for collection in all {
        let key = Vec::from_slice(alloc, collection.key.as_slice())?;
        let _ = keys.insert(key)?;
    }
    Ok(())
}

// Adds the number of a collection whose row is gone.
fn add_gone<S: Schema>(
    contents: &Contents<S>,
    collection: &Collection,
    gone: &mut Vec<u64>,
) -> Result<(), Memory>
    ensures adds { OnOk result (gone.new.items ≡ gone.old.items ++
        gone_from S.Row.join S.words contents.now (collection.now ∷ [])) }
    ensures want { OnlyWant result }
{
    if contents.table.get(1, collection.key.as_slice()).is_some() {
        return Ok(());
    }
    gone.push(collection.number)?;
    Ok(())
}

// Begins round 2 of a collection, where it hasn't begun.
fn to_second(gc: &mut Collections, number: u64, round: u8) -> Result<(), Memory>
    requires ready { (round == 1) ≡ true → IsTrue (is_ready (numbered number gc.old)) }
    ensures ok { OnOk result (gc.new ≡ cond (round == 1) (changed in_second number gc.old) gc.old) }
    ensures want { OnlyWant result }
{
    if round == 1 {
        return gc.second(number);
    }
    Ok(())
}

// Closes the collections with these numbers.
fn close_all(gc: &mut Collections, numbers: &[u64])
    ensures { gc.new ≡ closed_all numbers.now gc.old }
{
    for number in numbers {
        gc.close(*number);
    }
}

// Asks nodes to confirm a round of a collection.
fn ask<R: Drop>(
    out: &mut Vec<Envelope<R>>,
    node: u8,
    nodes: &[u8],
    collection: u64,
    round: u8,
    row: Bytes,
) -> Result<(), Memory>
    ensures asks { OnOk result (Posts node out.old.items out.new.items
        (to_each nodes.now (Tomb collection round row))) }
    ensures want { OnlyWant result }
{
    let message = Message::Tomb {
        collection,
        round,
        row,
    };
    send_each(out, node, nodes, message)
}
