//! Tombstones at a node: how they are merged, compared and dropped.
ghost use Rattle.std.specs.Prelude.{◌≡◌, ◌⊎◌, Some, None, is_some, IsTrue, IfOk, OnOk};
ghost use Rattle.std.specs.Option.{option_and_then};
ghost use Rattle.crdt_core.specs.Outcomes.{OnlyWant, WantOr};
ghost use Rattle.table_model.specs.Rows.{find_row};
ghost use Rattle.blake2_hash.specs.Blake2b.{blake2b};
ghost use Rattle.cluster_machine.specs.Blocks.{NeedsNone};
ghost use Rattle.cluster_machine.specs.Collects.{has_bytes, without_row};
ghost use Rattle.cluster_machine.specs.Rows.{same_bytes};
ghost use Rattle.node_parts.specs.Contents.{Turns};
ghost use Rattle.node_parts.specs.Collects.{Merges, MergesRow, CannotMerge, CannotMergeRow, Forgets, marker_of};

use crate::contents::Contents;
use crate::sets::is_given;
use blake2_hash::{Hash32, blake2b_256};
use crdt_core::{Bytes, Memory};
use layout_history::View;
use table_schema::{RowFault, Schema, partition};

impl<S: Schema> Contents<S> {
    /// Merges the row with these bytes in, where some set of the view gives the node its partition. Bytes of no row are
    /// passed over.
    pub fn merge(&mut self, view: &View, node: u8, bytes: &Bytes, now: u64) -> Result<(), Memory>
        requires needs_none { NeedsNone (blake2b 32) S.words bytes.now }
        ensures merges { OnOk result
            (Merges S.Row.join S.words self.old self.new view.now node now bytes.now) }
        ensures causes { WantOr result
            (CannotMerge S.Row.join S.words self.old view.now node now bytes.now) }
    {
        match S::row_from(self.alloc, bytes.as_slice()) {
            Ok(row) => self.merge_row(view, node, row, now),
            Err(RowFault::NotARow) => Ok(()),
            Err(RowFault::Memory) => Err(Memory::Want),
        }
    }

    // Merges a row in that needs no block, where some set of the view gives the node its partition.
    fn merge_row(&mut self, view: &View, node: u8, row: S::Row, now: u64) -> Result<(), Memory>
        requires proper { IsTrue (S.words.is_proper row) }
        requires needs_none { S.words.live_block row ≡ None }
        ensures merges { OnOk result
            (MergesRow S.Row.join S.words self.old self.new view.now node now (Some row)) }
        ensures causes { WantOr result (CannotMergeRow S.Row.join S.words self.old view.now node now
            (Some row)) }
    {
        if !is_given(view, node, partition::<S>(&row)) {
            return Ok(());
        }
        self.accept(row, &None, now)?;
        Ok(())
    }

    /// The row of table 1 at a key has these bytes.
    pub fn has_bytes(&self, key: &[u8], bytes: &[u8]) -> Result<bool, Memory>
        ensures is { IfOk result
            (λ has. has ≡ has_bytes S.Row.join S.words bytes.now
            (find_row S.words 1 key.now self.now.table)) }
        ensures want { OnlyWant result }
    {
        match self.bytes_at(1, key)? {
            Some(row) => Ok(is_same(row.as_slice(), bytes)),
            None => Ok(false),
        }
    }

    // The bytes of the row of a table and key, where there is one that can be written.
    fn bytes_at(&self, table: u8, key: &[u8]) -> Result<Option<Bytes>, Memory>
        ensures are { IfOk result
            (λ bytes. bytes ≡ option_and_then S.words.spelling
            (find_row S.words table key.now self.now.table)) }
        ensures want { OnlyWant result }
    {
        let Some(row) = self.table.get(table, key) else {
            return Ok(None);
        };
        match S::row_bytes(self.alloc, row) {
            Ok(bytes) => Ok(Some(bytes)),
            Err(Memory::Full) => Ok(None),
            Err(Memory::Want) => Err(Memory::Want),
        }
    }

    /// Drops the row of a table and key, where its bytes have this digest; its delete marker, if it had nothing else.
    pub fn forget(
        &mut self,
        table: u8,
        key: &[u8],
        hash: &Hash32,
    ) -> Result<Option<(u64, u64)>, Memory>
        ensures forgets { IfOk result
            (λ marker. Forgets S.Row.join S.words self.old self.new table key.now hash.now marker) }
        ensures want { OnlyWant result }
    {
        let Some(bytes) = self.bytes_at(table, key)? else {
            return Ok(None);
        };
        if !is_digest(bytes.as_slice(), hash) {
            return Ok(None);
        }
        let dropped = self.drop_row(table, key)?;
        Ok(dropped)
    }

    /// Drops the row of a table and key; its delete marker, if it had nothing else. Tombstones need no block. Another row
    /// that does, whose bytes have the digest of a tombstone's, is not dropped: no memory has room for two such rows.
    pub fn drop_row(&mut self, table: u8, key: &[u8]) -> Result<Option<(u64, u64)>, Memory>
        ensures drops { OnOk result (Turns S.Row.join S.words self.old self.new
            (λ x. without_row S.Row.join S.words x table key.now)) }
        ensures marker { IfOk result
            (λ marker. marker ≡ marker_of S.words (find_row S.words table key.now self.old.table)) }
        ensures want { OnlyWant result }
    {
        if self.needs_block(table, key) {
            return Err(Memory::Want);
        }
        match self.table.remove(table, key)? {
            Some(row) => Ok(S::marker(&row)),
            None => Ok(None),
        }
    }

    // The row of a table and key needs a block.
    fn needs_block(&self, table: u8, key: &[u8]) -> bool
        ensures { result ≡ is_some (option_and_then S.words.live_block
            (find_row S.words table key.now self.now.table)) }
    {
        match self.table.get(table, key) {
            Some(row) => S::live_block(row).is_some(),
            None => false,
        }
    }
}

// The bytes have this digest.
fn is_digest(bytes: &[u8], hash: &Hash32) -> bool
    ensures { result ≡ same_bytes (blake2b 32 bytes.now) hash.now.0 }
{
    blake2b_256(bytes).0 == hash.0
}

fn is_same(bytes: &[u8], other: &[u8]) -> bool
    ensures { result ≡ same_bytes bytes.now other.now }
{
    bytes == other
}
