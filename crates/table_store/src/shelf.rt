//! The rows of one table by their keys.
ghost use Rattle.std.specs.Prelude.{◌≡◌, ℕ, ◌&&◌, ◌++◌, [], true, not, IsTrue, Some, is_some, IfOk, OnOk, OnErr, option_copied, option_map, map, filter, option_to_list};
ghost use Rattle.std.specs.List.{list_all};
ghost use Rattle.std.specs.Option.{option_and_then};
ghost use Rattle.std.specs.BTreeMap.{IsOrdered};
ghost use Rattle.crdt_core.specs.Outcomes.{OnlyWant};
ghost use Rattle.table_model.specs.Rows.{merged_in, live_blocks, change_of};
ghost use Rattle.std.specs.Global.{Vec};
ghost use Rattle.std.specs.Map.{keys_of};
ghost use Rattle.table_schema.specs.Words.{Words};
ghost use Rattle.table_store.specs.Index.{has_key};
ghost use Rattle.table_store.specs.Shelf.{shelf_rows, AllPlaced, shelf_find, in_partition, row_in, has_key_of, is_indexed, vec_cmp, others_at, without_key};
ghost use Rattle.table_store.specs.Settled.{AllFit};
ghost use Rattle.table_store.specs.Markers.{AllMarked, AllStay, OthersStay, marked_at};

use crate::index::{Index, Pairs, forget, note};
use crate::markers::{Markers, change_marker, unmark};
use blake2_hash::Hash32;
use crdt_core::{Crdt, List, Memory};
use std::alloc::Global;
use std::collections::BTreeMap;
use table_model::Change;
use table_schema::{Schema, partition};

/// A row, with the partition that it lies in.
#[derive(Drop)]
pub struct Placed<R> {
    pub partition: u8,
    pub row: R,
}

/// Rows by their keys.
pub type Rows<R> = BTreeMap<Vec<u8>, Placed<R>>;

/// The rows of one table number by their keys, what there is of each partition: these keys, their trie, and which of
/// them changed since; and the keys of the rows with nothing but a delete marker.
#[derive(Drop)]
pub struct Shelf<R> {
    pub rows: Rows<R>,
    pub index: Index,
    pub markers: Markers,
    // The index has each row's key under its partition. A key under which no row of the partition stands does no harm.
    ghost indexed: { IsTrue (list_all (is_indexed index) rows.entries) },
}

impl<R> Shelf<R> {
    /// A shelf without rows.
    pub fn new(alloc: Global) -> Shelf<R>
        ensures rows { result.rows.entries ≡ [] }
        ensures fits { (s : Words R) → AllFit s result.index result.rows.entries }
        ensures marked { (s : Words R) → AllMarked s result.markers result.rows.entries }
    {
        Shelf {
            rows: BTreeMap::new(alloc),
            index: BTreeMap::new(alloc),
            markers: BTreeMap::new(alloc),
        }
    }
}

/// The row at a key.
pub fn find<'a, R>(shelf: &'a Shelf<R>, key: &[u8]) -> Option<&'a R>
    ensures { option_copied result ≡ shelf_find key.now shelf.now.rows.entries }
{
    Some(&shelf.rows.get(key)?.row)
}

/// What is told of a row that was taken in: the block that the row at its place needed before, and what the merge
/// changed.
#[derive(Debug, Drop)]
pub struct Taken<R> {
    pub before: Option<Hash32>,
    pub change: Change<R>,
}

// Merges a row with the one that stands at its place. The row that came takes the other in and is put there, which is
// the same, since a join is commutative.
fn merge_at<S: Schema>(
    alloc: Global,
    there: &mut Placed<S::Row>,
    row: S::Row,
    key: &[u8],
    markers: &mut Markers,
) -> Result<Taken<S::Row>, Memory>
    ensures row { OnOk result (there.new.row ≡ S.Row.join there.old.row row) }
    ensures partition { there.new.partition ≡ there.old.partition }
    ensures before { IfOk result
        (λ taken. option_map (λ h. h.0) taken.before ≡ S.words.live_block there.old.row) }
    ensures change { IfOk result
        (λ taken. taken.change ≡ change_of S.Row.join S.words (Some there.old.row) row) }
    ensures marked { OnOk result ((version : ℕ × ℕ) → S.words.marker there.new.row ≡ Some version →
        marked_at version.0 key.now markers.new ≡ true) }
    ensures others { OthersStay key.now markers.old markers.new }
    ensures unchanged { OnErr result (there.new ≡ there.old) }
    ensures stay { OnErr result (AllStay markers.old markers.new) }
    ensures want { OnlyWant result }
{
    let mut merged = row;
    merged.merge(&there.row)?;
    let triggered = S::triggers(alloc, &there.row, &merged)?;
    let before = S::live_block(&there.row);
    let change = Change {
        triggered: List::from_vec(triggered),
        was_live: before.is_some(),
        is_live: S::live_block(&merged).is_some(),
    };
    let (old, new) = (S::marker(&there.row), S::marker(&merged));
    change_marker(alloc, markers, key, old, new)?;
    there.row = merged;
    Ok(Taken { before, change })
}

/// Merges a row in at its key. All room is taken before a row changes.
pub fn take_into<S: Schema>(
    alloc: Global,
    shelf: &mut Shelf<S::Row>,
    row: S::Row,
) -> Result<Taken<S::Row>, Memory>
    ensures rows { OnOk result ((table : ℕ) → S.words.table row ≡ table →
        AllPlaced S.words table shelf.old.rows.entries →
        shelf_rows shelf.new.rows.entries ≡ merged_in S.Row.join S.words row
        (shelf_rows shelf.old.rows.entries)) }
    ensures placed { OnOk result ((table : ℕ) → S.words.table row ≡ table →
        AllPlaced S.words table shelf.old.rows.entries →
        AllPlaced S.words table shelf.new.rows.entries) }
    ensures before { IfOk result
        (λ taken. option_map (λ h. h.0) taken.before ≡ option_and_then S.words.live_block
        (shelf_find (S.words.key row) shelf.old.rows.entries)) }
    ensures change { IfOk result
        (λ taken. taken.change ≡ change_of S.Row.join S.words
        (shelf_find (S.words.key row) shelf.old.rows.entries) row) }
    ensures fits { AllFit S.words shelf.old.index shelf.old.rows.entries →
        AllFit S.words shelf.new.index shelf.new.rows.entries }
    ensures marked { AllMarked S.words shelf.old.markers shelf.old.rows.entries →
        AllMarked S.words shelf.new.markers shelf.new.rows.entries }
    ensures unchanged { OnErr result (shelf.new.rows.entries ≡ shelf.old.rows.entries) }
    ensures want { OnlyWant result }
{
    let key = S::key(alloc, &row)?.into_vec();
    if let Some(there) = shelf.rows.get_mut(key.as_slice()) {
        note(alloc, &mut shelf.index, there.partition, key.as_slice())?;
        let markers = &mut shelf.markers;
        let taken = merge_at::<S>(alloc, there, row, key.as_slice(), markers)?;
        return Ok(taken);
    }
    let placed = Placed {
        partition: partition::<S>(&row),
        row,
    };
    let change = Change {
        triggered: List::new(alloc),
        was_live: false,
        is_live: S::live_block(&placed.row).is_some(),
    };
    note(alloc, &mut shelf.index, placed.partition, key.as_slice())?;
    let new = S::marker(&placed.row);
    change_marker(alloc, &mut shelf.markers, key.as_slice(), None, new)?;
    shelf.rows.insert(key, placed)?;
    Ok(Taken {
        before: None,
        change,
    })
}

/// The row at a key, where it is in this partition.
pub fn row_in<'a, R>(rows: &'a Rows<R>, p: u8, key: &Vec<u8>) -> Option<&'a R>
    ensures { option_copied result ≡ row_in p key.now.items rows.now.entries }
{
    let placed = rows.get(key)?;
    if placed.partition == p {
        Some(&placed.row)
    } else {
        None
    }
}

/// Whether there is a row of this partition at a key.
pub fn has_row<R>(rows: &Rows<R>, p: u8, key: &Vec<u8>) -> bool
    ensures { result ≡ is_some (row_in p key.now.items rows.now.entries) }
{
    row_in(rows, p, key).is_some()
}

/// A map's keys ascend.
pub fn are_in_order<R>(rows: &Rows<R>)
    ensures { IsOrdered vec_cmp rows.now }
{
    let _ = rows.len();
}

/// Appends copies of a partition's rows, in order of their keys.
pub fn push_partition<R: Crdt>(shelf: &Shelf<R>, p: u8, rows: &mut Vec<R>) -> Result<(), Memory>
    ensures rows { OnOk result (rows.new.items ≡ rows.old.items ++ shelf_rows
        (filter (in_partition p) shelf.now.rows.entries)) }
    ensures want { OnlyWant result }
{
    are_in_order(&shelf.rows);
    match shelf.index.get(&p) {
        None => Ok(()),
        Some(part) => {
            for (key, _) in &part.pairs {
                if let Some(row) = row_in(&shelf.rows, p, key) {
                    rows.push(row.copy()?)?;
                }
            }
            Ok(())
        }
    }
}

/// Appends the hashes of the blocks that a partition's rows need.
pub fn push_blocks<S: Schema>(
    shelf: &Shelf<S::Row>,
    p: u8,
    hashes: &mut Vec<Hash32>,
) -> Result<(), Memory>
    ensures hashes { OnOk result (map (λ hash. hash.0) hashes.new.items ≡ map
        (λ hash. hash.0) hashes.old.items ++ live_blocks S.words
        (shelf_rows (filter (in_partition p) shelf.now.rows.entries))) }
    ensures want { OnlyWant result }
{
    are_in_order(&shelf.rows);
    match shelf.index.get(&p) {
        None => Ok(()),
        Some(part) => {
            for (key, _) in &part.pairs {
                if let Some(row) = row_in(&shelf.rows, p, key) {
                    push_block::<S>(row, hashes)?;
                }
            }
            Ok(())
        }
    }
}

fn push_block<S: Schema>(row: &S::Row, hashes: &mut Vec<Hash32>) -> Result<(), Memory>
    ensures hashes { OnOk result (map (λ hash. hash.0) hashes.new.items ≡ map
        (λ hash. hash.0) hashes.old.items ++ option_to_list (S.words.live_block row.now)) }
    ensures want { OnlyWant result }
{
    if let Some(hash) = S::live_block(row) {
        hashes.push(hash)?;
    }
    Ok(())
}

/// Drops a partition's rows, and its trie.
pub fn drop_rows<S: Schema>(shelf: &mut Shelf<S::Row>, p: u8)
    ensures rows { shelf.new.rows.entries ≡ filter
        (λ e. not (in_partition p e)) shelf.old.rows.entries }
    ensures fits { (s : Words S.Row) → AllFit s shelf.old.index shelf.old.rows.entries →
        AllFit s shelf.new.index shelf.new.rows.entries }
    ensures marked { AllMarked S.words shelf.old.markers shelf.old.rows.entries →
        AllMarked S.words shelf.new.markers shelf.new.rows.entries }
{
    are_in_order(&shelf.rows);
    match shelf.index.get(&p) {
        None => {}
        Some(part) => {
            drop_keys::<S>(&mut shelf.rows, &mut shelf.markers, p, &part.pairs);
            let _ = shelf.index.remove(&p);
        }
    }
}

// Drops the rows at these keys that are in this partition.
fn drop_keys<S: Schema>(rows: &mut Rows<S::Row>, markers: &mut Markers, p: u8, pairs: &Pairs)
    ensures rows { rows.new.entries ≡ filter
        (λ e. not (in_partition p e && has_key e.0.items
        (keys_of pairs.now.entries))) rows.old.entries }
    ensures marked { AllMarked S.words markers.old rows.old.entries →
        AllMarked S.words markers.new rows.new.entries }
{
    for (key, _) in pairs {
        drop_row::<S>(rows, markers, p, key);
    }
}

// Drops the row at a key, where it is in this partition.
fn drop_row<S: Schema>(rows: &mut Rows<S::Row>, markers: &mut Markers, p: u8, key: &Vec<u8>)
    ensures rows { rows.new.entries ≡ filter
        (λ e. not (in_partition p e && has_key_of key.now e)) rows.old.entries }
    ensures marked { AllMarked S.words markers.old rows.old.entries →
        AllMarked S.words markers.new rows.new.entries }
{
    are_in_order(rows);
    if has_row(rows, p, key) {
        let _ = take_row::<S>(rows, markers, key.as_slice());
    }
}

// Takes the row at a key, and the note of its delete marker.
fn take_row<S: Schema>(rows: &mut Rows<S::Row>, markers: &mut Markers, key: &[u8]) -> Option<S::Row>
    ensures row { result ≡ shelf_find key.now rows.old.entries }
    ensures rows { rows.new.entries ≡ without_key key.now rows.old.entries }
    ensures marked { AllMarked S.words markers.old rows.old.entries →
        AllMarked S.words markers.new rows.new.entries }
{
    are_in_order(rows);
    let placed = rows.remove(key)?;
    unmark_row::<S>(markers, key, &placed.row);
    Some(placed.row)
}

// Takes back the note of a row's delete marker, if it had nothing else.
fn unmark_row<S: Schema>(markers: &mut Markers, key: &[u8], row: &S::Row)
    ensures { OthersStay key.now markers.old markers.new }
{
    if let Some(version) = S::marker(row) {
        unmark(markers, version.0, key);
    }
}

/// Takes the row at a key out, and out of its partition's trie.
pub fn take_out<S: Schema>(shelf: &mut Shelf<S::Row>, key: &[u8]) -> Result<Option<S::Row>, Memory>
    ensures row { IfOk result (λ row. row ≡ shelf_find key.now shelf.old.rows.entries) }
    ensures rows { OnOk result (shelf.new.rows.entries ≡ others_at key.now shelf.old.rows.entries) }
    ensures fits { AllFit S.words shelf.old.index shelf.old.rows.entries →
        AllFit S.words shelf.new.index shelf.new.rows.entries }
    ensures marked { AllMarked S.words shelf.old.markers shelf.old.rows.entries →
        AllMarked S.words shelf.new.markers shelf.new.rows.entries }
    ensures unchanged { OnErr result (shelf.new.rows.entries ≡ shelf.old.rows.entries) }
    ensures want { OnlyWant result }
{
    are_in_order(&shelf.rows);
    match shelf.rows.get(key) {
        None => Ok(None),
        Some(placed) => {
            forget(&mut shelf.index, placed.partition, key)?;
            let row = take_row::<S>(&mut shelf.rows, &mut shelf.markers, key);
            Ok(row)
        }
    }
}
