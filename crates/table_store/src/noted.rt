//! The rows of a partition that a walk asks after.
ghost use Rattle.std.specs.Prelude.{◌≡◌, ◌++◌, is_some, filter, IfOk, OnOk};
ghost use Rattle.std.specs.List.{list_any};
ghost use Rattle.std.specs.Map.{keys_of};
ghost use Rattle.crdt_core.specs.Outcomes.{OnlyWant};
ghost use Rattle.table_store.specs.Notes.{AreNotes, is_among};
ghost use Rattle.table_store.specs.Shelf.{AllPlaced, in_partition, row_in};
ghost use Rattle.table_store.specs.Settled.{AllFit};
ghost use Rattle.table_store.specs.Whole.{rows_at};

use crate::index::{Pairs, key_hash};
use crate::shelf::{Rows, Shelf, are_in_order, has_row, row_in};
use blake2_hash::Hash32;
use crdt_core::{Crdt, Memory};
use std::alloc::Global;
use std::collections::BTreeSet;
use table_schema::Schema;

/// Tables, each with the hash of a row's key, in order.
pub type Notes = BTreeSet<(u8, Hash32)>;

/// There is a row of a partition.
pub fn has_rows<R>(shelf: &Shelf<R>, p: u8) -> bool
    ensures { result ≡ list_any (in_partition p) shelf.now.rows.entries }
{
    are_in_order(&shelf.rows);
    match shelf.index.get(&p) {
        None => false,
        Some(part) => {
            let _ = part.pairs.len();
            has_row_of(&shelf.rows, p, &part.pairs)
        }
    }
}

// There is a row of the partition at one of these keys.
fn has_row_of<R>(rows: &Rows<R>, p: u8, pairs: &Pairs) -> bool
    ensures { result ≡ list_any
        (λ k. is_some (row_in p k.items rows.now.entries)) (keys_of pairs.now.entries) }
{
    for (key, _) in pairs {
        if has_row(rows, p, key) {
            return true;
        }
    }
    false
}

/// The notes of a walk, in order.
pub fn notes_of(alloc: Global, noted: &[(u8, Hash32)]) -> Result<Notes, Memory>
    ensures are { IfOk result (AreNotes noted.now) }
    ensures want { OnlyWant result }
{
    let notes: Notes = noted.iter().copied().collect(alloc)?;
    Ok(notes)
}

/// Appends copies of a partition's rows whose key hashes are noted for this table, in order of their keys.
pub fn push_noted<S: Schema>(
    shelf: &Shelf<S::Row>,
    table: u8,
    p: u8,
    notes: &Notes,
    rows: &mut Vec<S::Row>,
) -> Result<(), Memory>
    requires placed { AllPlaced S.words table shelf.now.rows.entries }
    requires fits { AllFit S.words shelf.now.index shelf.now.rows.entries }
    ensures rows { OnOk result (rows.new.items ≡ rows.old.items ++ filter
        (is_among S.words notes.now) (rows_at p shelf.now)) }
    ensures want { OnlyWant result }
{
    are_in_order(&shelf.rows);
    match shelf.index.get(&p) {
        None => Ok(()),
        Some(part) => {
            for (key, pair) in &part.pairs {
                if notes.contains(&(table, key_hash(key.as_slice(), *pair))) {
                    if let Some(row) = row_in(&shelf.rows, p, key) {
                        rows.push(row.copy()?)?;
                    }
                }
            }
            Ok(())
        }
    }
}
