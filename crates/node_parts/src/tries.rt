//! What the tries of a node's rows tell in a walk.
ghost use Rattle.std.specs.Prelude.{◌≡◌, true, IfOk, OnOk};
ghost use Rattle.crdt_core.specs.Outcomes.{OnlyWant, WantOr};
ghost use Rattle.layout_roles.specs.declared.layout.Layout.{Layout};
ghost use Rattle.walk_model.specs.Walking.{is_open};
ghost use Rattle.cluster_machine.specs.Layouts.{layouts};
ghost use Rattle.cluster_machine.specs.Node.{Node};
ghost use Rattle.table_model.specs.Rows.{rows_in};
ghost use Rattle.walk_model.specs.Noting.{tables_of};
ghost use Rattle.cluster_machine.specs.Rounds.{value_here, children_here};
ghost use Rattle.cluster_machine.specs.Receives.{compared};
ghost use Rattle.node_parts.specs.Contents.{IsContents};
ghost use Rattle.node_parts.specs.Walks.{has_tables, IsSpelled, LacksSpelling, GoesOn};

use crate::contents::Contents;
use crate::walks::Answer;
use blake2_hash::Hash32;
use crdt_core::{Bytes, List, Memory, Value};
use merkle_sync::{Walk, WalkEnd};
use table_schema::Schema;
use wire_messages::{Message, Tag};

impl<S: Schema> Contents<S> {
    /// Whether there are rows of the partition.
    pub fn has_rows(&self, p: u8) -> bool
        ensures { result ≡ has_tables S.words (rows_in S.words p self.now.table) }
    {
        self.table.has_rows(1, p) || self.table.has_rows(2, p) || self.table.has_rows(3, p)
    }

    /// The tables of which there are rows of the partition.
    pub fn tables(&self, p: u8) -> Result<Vec<u8>, Memory>
        ensures are { IfOk result
            (λ tables. tables.items ≡ tables_of S.words (rows_in S.words p self.now.table)) }
        ensures want { OnlyWant result }
    {
        let tables: Vec<u8> = [1, 2, 3]
            .iter()
            .filter(|table| self.table.has_rows(**table, p))
            .copied()
            .collect(self.alloc)?;
        Ok(tables)
    }

    /// Every row of the partition has a spelling.
    pub fn settle(&mut self, p: u8) -> Result<(), Memory>
        ensures unchanged { OnOk result (self.new ≡ self.old) }
        ensures spelled { OnOk result (IsSpelled S.Row.join S.words self.old p) }
        ensures causes { WantOr result (LacksSpelling S.Row.join S.words self.old p) }
    {
        let _ = self.table.value(1, p, &[])?;
        Ok(())
    }

    /// The value of the rows of a table and partition at a prefix of their key hashes.
    pub fn value(&mut self, p: u8, table: u8, prefix: &[u8]) -> Result<Hash32, Memory>
        ensures is { IfOk result (λ value. (x : Node S.Row Layout) →
            IsContents S.Row.join S.words self.old x →
            value ≡ value_here S.Row.join S.words x table p prefix.now) }
        ensures unchanged { OnOk result (self.new ≡ self.old) }
        ensures spelled { OnOk result (IsSpelled S.Row.join S.words self.old p) }
        ensures causes { WantOr result (LacksSpelling S.Row.join S.words self.old p) }
    {
        let value = self.table.value(table, p, prefix)?;
        Ok(value)
    }

    // Each next byte of those key hashes, with the value there.
    fn children(&mut self, p: u8, table: u8, prefix: &[u8]) -> Result<List<(u8, Hash32)>, Memory>
        ensures are { IfOk result (λ children. (x : Node S.Row Layout) →
            IsContents S.Row.join S.words self.old x →
            children ≡ children_here S.Row.join S.words x table p prefix.now) }
        ensures unchanged { OnOk result (self.new ≡ self.old) }
        ensures causes { WantOr result (LacksSpelling S.Row.join S.words self.old p) }
    {
        let children = self.table.children(table, p, prefix)?;
        Ok(List::from_vec(children))
    }

    /// What is answered to a walk that asks for a value at a prefix: that it is the same, or what is there.
    pub fn compare(
        &mut self,
        tag: Tag,
        p: u8,
        table: u8,
        prefix: &Bytes,
        hash: &Hash32,
    ) -> Result<Message<S::Row>, Memory>
        ensures is { IfOk result (λ message. (x : Node S.Row Layout) →
            IsContents S.Row.join S.words self.old x →
            message ≡ compared S.Row.join S.words layouts x tag p table prefix.now hash.now) }
        ensures unchanged { OnOk result (self.new ≡ self.old) }
        ensures spelled { OnOk result (IsSpelled S.Row.join S.words self.old p) }
        ensures causes { WantOr result (LacksSpelling S.Row.join S.words self.old p) }
    {
        let value = self.value(p, table, prefix.as_slice())?;
        let prefix = prefix.copy()?;
        if hash.0 == value.0 {
            return Ok(Message::Same { tag, table, prefix });
        }
        let pairs = self.children(p, table, prefix.as_slice())?;
        Ok(Message::Differ {
            tag,
            table,
            prefix,
            pairs,
        })
    }

    /// A walk goes on after an answer that it awaits.
    pub fn take_answer(&mut self, walk: &mut Walk, answer: Answer<'_>) -> Result<WalkEnd, Memory>
        requires awaits { is_open answer.table answer.prefix.now walk.old.prefixes ≡ true }
        ensures goes_on { IfOk result
            (λ end. GoesOn S.Row.join S.words self.old answer.entry walk.old walk.new end) }
        ensures unchanged { OnOk result (self.new ≡ self.old) }
        ensures spelled { OnOk result (IsSpelled S.Row.join S.words self.old walk.old.partition) }
        ensures causes { WantOr result
            (LacksSpelling S.Row.join S.words self.old walk.old.partition) }
    {
        self.settle(walk.partition())?;
        match answer.children {
            Some(theirs) => self.table.answer(walk, answer.table, answer.prefix, theirs),
            None => walk.same(answer.table, answer.prefix),
        }
    }
}
