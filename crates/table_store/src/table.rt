//! The rows of a node.
ghost use Rattle.std.specs.Prelude.{◌≡◌, ◌⊎◌, ◌||◌, ℕ, List, true, false, [], not, length, map, filter, All, IsTrue, IfOk, OnOk, OnErr, IsOk, option_copied, option_map};
ghost use Rattle.crdt_core.specs.Outcomes.{OnlyWant, WantOr};
ghost use Rattle.table_model.specs.Top.{any_unspelled, top};
ghost use Rattle.table_model.specs.Rows.{merged_in, change_of, find_row, is_at, range, rows_in, without, live_blocks};
ghost use Rattle.table_store.specs.Index.{has_key};
ghost use Rattle.table_store.specs.Markers.{is_marked};
ghost use Rattle.std.specs.Option.{option_and_then};
ghost use Rattle.blake2_hash.specs.Blake2b.{blake2b};
ghost use Rattle.table_model.specs.Top.{pairs_of};
ghost use Rattle.walk_model.specs.Sets.{value_at, children_at};
ghost use Rattle.walk_model.specs.Noting.{has_table, is_noted};
ghost use Rattle.walk_model.specs.Walking.{is_open, taken, asks, notes, plain};
ghost use Rattle.merkle_sync.specs.Telling.{Tells, TellsNothing};

use crate::markers::add_marked;
use crate::noted::{has_rows, notes_of, push_noted};
use crate::roots::take_roots;
use crate::settling::{settle_all, trie_of};
use crate::shelf::{
    Shelf, Taken, drop_rows, find, push_blocks, push_partition, take_into, take_out,
};
use crate::window::rows_past;
use blake2_hash::{Blake2b, Hash32};
use crdt_core::{Crdt, Memory};
use merkle_sync::{Walk, WalkEnd};
use merkle_trie::Trie;
use std::alloc::Global;
use std::collections::BTreeSet;
use std::marker::Model;
use table_model::Change;
use table_schema::Schema;

/// The merged rows of a node, in order of table, then of key.
#[derive(Drop)]
pub struct Table<S: Schema> {
    first: Shelf<S::Row>,
    second: Shelf<S::Row>,
    third: Shelf<S::Row>,
    // The trie of no row.
    nothing: Trie,
    alloc: Global,
}

impl<S: Schema> Model for Table<S> {
    ghost use Rattle.std.specs.Prelude.{List, ◌++◌};
    ghost use Rattle.table_store.specs.Shelf.{shelf_rows};
    ghost use Rattle.table_store.specs.Whole.{IsWhole};

    ghost Value = { List S.Row };

    ghost view = { λ t. shelf_rows t.first.rows.entries ++ (shelf_rows t.second.rows.entries ++ shelf_rows t.third.rows.entries) };

    ghost invariant = { λ t. IsWhole S.words t.first t.second t.third t.nothing };
}

impl<S: Schema> Table<S> {
    /// A table without rows. It takes no memory yet.
    pub fn new(alloc: Global) -> Result<Self, Memory>
        ensures empty { IfOk result (λ table. table ≡ []) }
        ensures given { IsOk result }
    {
        Ok(Table {
            first: Shelf::new(alloc),
            second: Shelf::new(alloc),
            third: Shelf::new(alloc),
            nothing: Trie::new(alloc),
            alloc,
        })
    }

    /// How many rows there are.
    pub fn len(&self) -> usize
        ensures { result ≡ length self.now }
    {
        self.first.rows.len() + self.second.rows.len() + self.third.rows.len()
    }

    /// The row of a table and key.
    pub fn get(&self, table: u8, key: &[u8]) -> Option<&S::Row>
        ensures { option_copied result ≡ find_row S.words table key.now self.now }
    {
        match table {
            1 => find(&self.first, key),
            2 => find(&self.second, key),
            3 => find(&self.third, key),
            _ => None,
        }
    }

    /// Merges a row in, and tells what that changed, and which block the row at its place needed before.
    pub fn take_in(&mut self, row: S::Row) -> Result<Taken<S::Row>, Memory>
        ensures rows { OnOk result (self.new ≡ merged_in S.Row.join S.words row self.old) }
        ensures before { IfOk result
            (λ taken. option_map (λ h. h.0) taken.before ≡ option_and_then S.words.live_block
            (find_row S.words (S.words.table row) (S.words.key row) self.old)) }
        ensures change { IfOk result
            (λ taken. taken.change ≡ change_of S.Row.join S.words
            (find_row S.words (S.words.table row) (S.words.key row) self.old) row) }
        ensures unchanged { OnErr result (self.new ≡ self.old) }
        ensures want { OnlyWant result }
    {
        if self.len() == usize::MAX {
            return Err(Memory::Want);
        }
        match S::table(&row) {
            1 => {
                let taken = take_into::<S>(self.alloc, &mut self.first, row)?;
                Ok(taken)
            }
            2 => {
                let taken = take_into::<S>(self.alloc, &mut self.second, row)?;
                Ok(taken)
            }
            _ => {
                let taken = take_into::<S>(self.alloc, &mut self.third, row)?;
                Ok(taken)
            }
        }
    }

    /// Merges a copy of a row in, and tells what that changed.
    pub fn merge_in(&mut self, row: &S::Row) -> Result<Change<S::Row>, Memory>
        ensures rows { OnOk result (self.new ≡ merged_in S.Row.join S.words row.now self.old) }
        ensures change { IfOk result
            (λ change. change ≡ change_of S.Row.join S.words
            (find_row S.words (S.words.table row.now) (S.words.key row.now) self.old) row.now) }
        ensures unchanged { OnErr result (self.new ≡ self.old) }
        ensures want { OnlyWant result }
    {
        let taken = self.take_in(row.copy()?)?;
        Ok(taken.change)
    }

    /// The first `limit` rows of a table whose key begins with the prefix and is greater than `after`, in order of
    /// keys, and whether there are more. Prefix and `after` are of whole row keys.
    pub fn range(
        &self,
        table: u8,
        prefix: &[u8],
        after: &[u8],
        limit: usize,
    ) -> Result<(Vec<S::Row>, bool), Memory>
        ensures is { IfOk result
            (λ found. (found.0.items, found.1) ≡
            range S.words table prefix.now after.now limit self.now) }
        ensures want { OnlyWant result }
    {
        match table {
            1 => rows_past(self.alloc, &self.first, prefix, after, limit),
            2 => rows_past(self.alloc, &self.second, prefix, after, limit),
            3 => rows_past(self.alloc, &self.third, prefix, after, limit),
            _ => Ok((Vec::new(self.alloc), false)),
        }
    }

    /// The rows of a partition, in order of table, then of key.
    pub fn rows_of(&self, p: u8) -> Result<Vec<S::Row>, Memory>
        ensures are { IfOk result (λ rows. rows.items ≡ rows_in S.words p self.now) }
        ensures want { OnlyWant result }
    {
        let mut rows = Vec::new(self.alloc);
        push_partition(&self.first, p, &mut rows)?;
        push_partition(&self.second, p, &mut rows)?;
        push_partition(&self.third, p, &mut rows)?;
        Ok(rows)
    }

    /// There is a row of a table and partition.
    pub fn has_rows(&self, table: u8, p: u8) -> bool
        ensures { result ≡ has_table S.words table (rows_in S.words p self.now) }
    {
        match table {
            1 => has_rows(&self.first, p),
            2 => has_rows(&self.second, p),
            3 => has_rows(&self.third, p),
            _ => false,
        }
    }

    /// The rows of a partition whose tables and key hashes are among these, in order of table, then of key.
    pub fn noted_rows(&self, p: u8, noted: &[(u8, Hash32)]) -> Result<Vec<S::Row>, Memory>
        ensures are { IfOk result
            (λ rows. rows.items ≡ filter (is_noted S.words noted.now)
            (rows_in S.words p self.now)) }
        ensures want { OnlyWant result }
    {
        let notes = notes_of(self.alloc, noted)?;
        let mut rows = Vec::new(self.alloc);
        push_noted::<S>(&self.first, 1, p, &notes, &mut rows)?;
        push_noted::<S>(&self.second, 2, p, &notes, &mut rows)?;
        push_noted::<S>(&self.third, 3, p, &notes, &mut rows)?;
        Ok(rows)
    }

    /// Drops the rows of a partition, and its tries, and gives the hashes of the blocks that they needed, one for each such row.
    pub fn drop_partition(&mut self, p: u8) -> Result<Vec<Hash32>, Memory>
        ensures rows { OnOk result (self.new ≡ without S.words p self.old) }
        ensures blocks { IfOk result
            (λ hashes. map (λ hash. hash.0) hashes.items ≡ live_blocks S.words
            (rows_in S.words p self.old)) }
        ensures unchanged { OnErr result (self.new ≡ self.old) }
        ensures want { OnlyWant result }
    {
        let mut hashes = Vec::new(self.alloc);
        push_blocks::<S>(&self.first, p, &mut hashes)?;
        push_blocks::<S>(&self.second, p, &mut hashes)?;
        push_blocks::<S>(&self.third, p, &mut hashes)?;
        drop_rows::<S>(&mut self.first, p);
        drop_rows::<S>(&mut self.second, p);
        drop_rows::<S>(&mut self.third, p);
        Ok(hashes)
    }

    /// Takes out the row of a table and key, if there is one, and gives it.
    pub fn remove(&mut self, table: u8, key: &[u8]) -> Result<Option<S::Row>, Memory>
        ensures row { IfOk result (λ row. row ≡ find_row S.words table key.now self.old) }
        ensures rows { OnOk result (self.new ≡ filter
            (λ r. not (is_at S.words table key.now r)) self.old) }
        ensures unchanged { OnErr result (self.new ≡ self.old) }
        ensures want { OnlyWant result }
    {
        match table {
            1 => {
                let row = take_out::<S>(&mut self.first, key)?;
                Ok(row)
            }
            2 => {
                let row = take_out::<S>(&mut self.second, key)?;
                Ok(row)
            }
            3 => {
                let row = take_out::<S>(&mut self.third, key)?;
                Ok(row)
            }
            _ => Ok(None),
        }
    }

    /// Adds the keys of the rows of table 1 that have nothing but a delete marker, whose timestamp is at most `limit`.
    /// Where there is none, only the least timestamp is looked at.
    pub fn add_marked(&self, limit: u64, keys: &mut BTreeSet<Vec<u8>>) -> Result<(), Memory>
        ensures adds { OnOk result ((key : List ℕ) →
            has_key key keys.new.keys ≡ (has_key key keys.old.keys || is_marked S.words limit
            (find_row S.words 1 key self.now))) }
        ensures want { OnlyWant result }
    {
        add_marked::<S>(self.alloc, &self.first, limit, keys)
    }

    /// Lets the tries take in all rows that changed since, each at its last state. `Full` where one of them can't be
    /// written; it goes on waiting, and so do those that weren't come to.
    pub fn settle(&mut self) -> Result<(), Memory>
        ensures rows { self.new ≡ self.old }
        ensures written { OnOk result (any_unspelled S.words self.old ≡ false) }
        ensures causes { WantOr result (IsTrue (any_unspelled S.words self.old)) }
    {
        for p in 0..256u16 {
            self.settle_partition(p as u8)?;
        }
        Ok(())
    }

    // The same of one partition.
    fn settle_partition(&mut self, p: u8) -> Result<(), Memory>
        ensures rows { self.new ≡ self.old }
        ensures proper { All (λ r. IsTrue (S.words.is_proper r)) self.old }
        ensures written { OnOk result (any_unspelled S.words (rows_in S.words p self.old) ≡ false) }
        ensures causes { WantOr result
            (IsTrue (any_unspelled S.words (rows_in S.words p self.old))) }
    {
        settle_all::<S>(
            self.alloc,
            p,
            &mut self.first,
            &mut self.second,
            &mut self.third,
        )?;
        Ok(())
    }

    /// The value at a prefix of key hashes in the trie of a table and partition, which first takes in the rows that
    /// changed since. `Full` where some row of the partition can't be written.
    pub fn value(&mut self, table: u8, p: u8, prefix: &[u8]) -> Result<Hash32, Memory>
        ensures is { IfOk result
            (λ value. value.0 ≡ value_at (blake2b 32) prefix.now
            (pairs_of S.words table p self.old)) }
        ensures rows { self.new ≡ self.old }
        ensures written { OnOk result (any_unspelled S.words (rows_in S.words p self.old) ≡ false) }
        ensures causes { WantOr result
            (IsTrue (any_unspelled S.words (rows_in S.words p self.old))) }
    {
        settle_all::<S>(
            self.alloc,
            p,
            &mut self.first,
            &mut self.second,
            &mut self.third,
        )?;
        let trie = trie_of::<S>(
            table,
            p,
            &self.first,
            &self.second,
            &self.third,
            &self.nothing,
        );
        Ok(trie.node(prefix))
    }

    /// Each byte that some key hash has next after the prefix there, ascending, with the value at it.
    pub fn children(&mut self, table: u8, p: u8, prefix: &[u8]) -> Result<Vec<(u8, Hash32)>, Memory>
        ensures are { IfOk result
            (λ children. map plain children.items ≡ children_at (blake2b 32) prefix.now
            (pairs_of S.words table p self.old)) }
        ensures rows { self.new ≡ self.old }
        ensures written { OnOk result (any_unspelled S.words (rows_in S.words p self.old) ≡ false) }
        ensures causes { WantOr result
            (IsTrue (any_unspelled S.words (rows_in S.words p self.old))) }
    {
        settle_all::<S>(
            self.alloc,
            p,
            &mut self.first,
            &mut self.second,
            &mut self.third,
        )?;
        let trie = trie_of::<S>(
            table,
            p,
            &self.first,
            &self.second,
            &self.third,
            &self.nothing,
        );
        let children = trie.children(prefix)?;
        Ok(children)
    }

    /// Gives a walk over a partition the answer that the other node has these children at the prefix.
    pub fn answer(
        &mut self,
        walk: &mut Walk,
        table: u8,
        prefix: &[u8],
        theirs: &[(u8, Hash32)],
    ) -> Result<WalkEnd, Memory>
        ensures tells { is_open table prefix.now walk.old.prefixes ≡ true → IfOk result (λ end.
            Tells (taken table prefix.now (asks (blake2b 32) table prefix.now theirs.now (pairs_of S.words table walk.old.partition self.old))
            (notes (blake2b 32) table prefix.now theirs.now (pairs_of S.words table walk.old.partition self.old)) walk.old)
            (asks (blake2b 32) table prefix.now theirs.now (pairs_of S.words table walk.old.partition self.old)) end walk.new) }
        ensures idle { is_open table prefix.now walk.old.prefixes ≡ false →
            IfOk result (λ end. TellsNothing end × (walk.new ≡ walk.old)) }
        ensures err { OnErr result (walk.new ≡ walk.old) }
        ensures rows { self.new ≡ self.old }
        ensures written { OnOk result
            (any_unspelled S.words (rows_in S.words walk.old.partition self.old) ≡ false) }
        ensures causes { WantOr result
            (IsTrue (any_unspelled S.words (rows_in S.words walk.old.partition self.old))) }
    {
        let p = walk.partition();
        settle_all::<S>(
            self.alloc,
            p,
            &mut self.first,
            &mut self.second,
            &mut self.third,
        )?;
        let trie = trie_of::<S>(
            table,
            p,
            &self.first,
            &self.second,
            &self.third,
            &self.nothing,
        );
        let end = walk.answer(table, prefix, theirs, trie)?;
        Ok(end)
    }

    /// The BLAKE2b-256 of the roots of all partitions, those of table 1 first. `Full` where some row can't be written.
    pub fn top(&self) -> Result<Hash32, Memory>
        ensures is { IfOk result (λ hash. hash.0 ≡ top S.words self.now) }
        ensures written { OnOk result (any_unspelled S.words self.now ≡ false) }
        ensures causes { WantOr result (IsTrue (any_unspelled S.words self.now)) }
    {
        let mut hasher = Blake2b::new();
        take_roots::<S>(self.alloc, &self.first, &mut hasher)?;
        take_roots::<S>(self.alloc, &self.second, &mut hasher)?;
        take_roots::<S>(self.alloc, &self.third, &mut hasher)?;
        Ok(hasher.finish())
    }
}
