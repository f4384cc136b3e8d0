//! How the tries of a table's partitions take in the rows that changed.
ghost use Rattle.std.specs.Prelude.{◌≡◌, ◌<◌, ◌++◌, ℕ, List, [], true, false, None, Some, length, map, filter, is_none, is_some, option_map, IsTrue, IfOk, OnOk, OnErr};
ghost use Rattle.std.specs.Map.{keys_of};
ghost use Rattle.std.specs.BTreeMap.{IsOrdered};
ghost use Rattle.std.specs.Ordering.{nat_cmp, is_eq};
ghost use Rattle.std.specs.Cmp.Lexicographic.{slice_cmp};
ghost use Rattle.crdt_core.specs.Outcomes.{OnlyWant, WantOr};
ghost use Rattle.blake2_hash.specs.Blake2b.{blake2b};
ghost use Rattle.blake2_hash.specs.declared.digest.Hash32.{Hash32};
ghost use Rattle.table_model.specs.Root.{Pair};
ghost use Rattle.table_model.specs.Top.{any_unspelled, pair_of, pairs_of};
ghost use Rattle.walk_model.specs.Sets.{put, only_at};
ghost use Rattle.merkle_trie.specs.Keeping.{Keeps, IsUnchanged, queued};
ghost use Rattle.table_store.specs.Index.{has_key, pair_at, shown_pair, IsKept};
ghost use Rattle.table_store.specs.Shelf.{shelf_rows, in_partition, row_in, vec_cmp, AllPlaced};
ghost use Rattle.table_store.specs.Settled.{AllFit, Fits, IsSettled, IsSettledAt, IsTaken};
ghost use Rattle.table_store.specs.Whole.{rows_at, rows_of_all, IsWhole, Settles};

use crate::index::{Pairs, Part, key_hash};
use crate::root::Pair;
use crate::shelf::{Rows, Shelf, are_in_order, row_in};
use blake2_hash::{Hash32, blake2b_256};
use crdt_core::Memory;
use merkle_trie::{Blake, Trie};
use std::alloc::Global;
use table_schema::Schema;

/// Works off what waits in a partition of three shelves, as `settle_part` does.
pub fn settle_all<S: Schema>(
    alloc: Global,
    p: u8,
    first: &mut Shelf<S::Row>,
    second: &mut Shelf<S::Row>,
    third: &mut Shelf<S::Row>,
) -> Result<(), Memory>
    requires first { AllFit S.words first.old.index first.old.rows.entries }
    requires second { AllFit S.words second.old.index second.old.rows.entries }
    requires third { AllFit S.words third.old.index third.old.rows.entries }
    ensures first { Settles S.words first.old first.new }
    ensures second { Settles S.words second.old second.new }
    ensures third { Settles S.words third.old third.new }
    ensures first_settled { OnOk result (IsSettledAt first.new.index p) }
    ensures second_settled { OnOk result (IsSettledAt second.new.index p) }
    ensures third_settled { OnOk result (IsSettledAt third.new.index p) }
    ensures written { OnOk result
        (any_unspelled S.words (rows_at p first.old ++
        (rows_at p second.old ++ rows_at p third.old)) ≡ false) }
    ensures causes { WantOr result
        (IsTrue (any_unspelled S.words
        (rows_at p first.old ++ (rows_at p second.old ++ rows_at p third.old)))) }
{
    settle_part::<S>(alloc, first, p)?;
    settle_part::<S>(alloc, second, p)?;
    settle_part::<S>(alloc, third, p)?;
    Ok(())
}

// Works off what waits in a partition of a shelf. `Full` where a row that waits can't be written. Where two keys of the
// partition have one hash, the second one finds no room.
fn settle_part<S: Schema>(alloc: Global, shelf: &mut Shelf<S::Row>, p: u8) -> Result<(), Memory>
    requires { AllFit S.words shelf.old.index shelf.old.rows.entries }
    ensures settles { Settles S.words shelf.old shelf.new }
    ensures settled { OnOk result (IsSettledAt shelf.new.index p) }
    ensures written { OnOk result (any_unspelled S.words (rows_at p shelf.old) ≡ false) }
    ensures causes { WantOr result (IsTrue (any_unspelled S.words (rows_at p shelf.old))) }
{
    are_in_order(&shelf.rows);
    match shelf.index.get_mut(&p) {
        None => Ok(()),
        Some(part) => {
            settle_rows::<S>(alloc, &shelf.rows, p, part)?;
            Ok(())
        }
    }
}

// Takes in one row after the other. What was taken in stays so after an error.
fn settle_rows<S: Schema>(
    alloc: Global,
    rows: &Rows<S::Row>,
    p: u8,
    part: &mut Part,
) -> Result<(), Memory>
    requires { Fits S.words p rows.now.entries part.old }
    ensures fits { Fits S.words p rows.now.entries part.new }
    ensures keys { keys_of part.new.pairs.entries ≡ keys_of part.old.pairs.entries }
    ensures ordered { IsOrdered vec_cmp part.new.pairs }
    ensures settled { OnOk result (IsSettled part.new) }
    ensures causes { WantOr result
        (IsTrue (any_unspelled S.words (shelf_rows (filter (in_partition p) rows.now.entries)))) }
{
    let _ = part.pairs.len();
    let mut hasher = Blake::new();
    let mut more = true;
    while more {
        more = settle_first::<S>(alloc, rows, p, part, &mut hasher)?;
    }
    Ok(())
}

// Takes in the first row that waits, and tells whether there was one.
fn settle_first<S: Schema>(
    alloc: Global,
    rows: &Rows<S::Row>,
    p: u8,
    part: &mut Part,
    hasher: &mut Blake,
) -> Result<bool, Memory>
    requires { Fits S.words p rows.now.entries part.old }
    ensures fits { Fits S.words p rows.now.entries part.new }
    ensures keys { keys_of part.new.pairs.entries ≡ keys_of part.old.pairs.entries }
    ensures more { IfOk result (λ more. more ≡ true →
        length part.new.waiting.keys < length part.old.waiting.keys) }
    ensures settled { IfOk result (λ more. more ≡ false → IsSettled part.new) }
    ensures causes { WantOr result
        (IsTrue (any_unspelled S.words (shelf_rows (filter (in_partition p) rows.now.entries)))) }
{
    part.trie.settle(hasher)?;
    match part.waiting.first() {
        None => Ok(false),
        Some(key) => {
            take_at::<S>(alloc, rows, p, key, &mut part.trie, &mut part.pairs)?;
            let _ = part.waiting.pop_first();
            Ok(true)
        }
    }
}

// Takes the row at a key into a settled trie, where the partition has one there.
fn take_at<S: Schema>(
    alloc: Global,
    rows: &Rows<S::Row>,
    p: u8,
    key: &Vec<u8>,
    trie: &mut Trie,
    pairs: &mut Pairs,
) -> Result<(), Memory>
    requires settled { queued trie.old ≡ 0 }
    requires has { (row : S.Row) → row_in p key.now.items rows.now.entries ≡ Some row →
        has_key key.now.items (keys_of pairs.old.entries) ≡ true }
    requires known { (known : Hash32 × Hash32) →
        pair_at key.now.items pairs.old.entries ≡ Some known →
        known.0.0 ≡ blake2b 32 key.now.items }
    ensures taken { OnOk result ((row : S.Row) →
        row_in p key.now.items rows.now.entries ≡ Some row →
        IsTaken S.words key.now.items row (pair_at key.now.items pairs.new.entries)) }
    ensures nothing { row_in p key.now.items rows.now.entries ≡ None →
        pairs.new.entries ≡ pairs.old.entries }
    ensures others { (other : List ℕ) → is_eq (slice_cmp nat_cmp key.now.items other) ≡ false →
        pair_at other pairs.new.entries ≡ pair_at other pairs.old.entries }
    ensures keys { keys_of pairs.new.entries ≡ keys_of pairs.old.entries }
    ensures kept { IsKept trie.old pairs.old.entries → IsKept trie.new pairs.new.entries }
    ensures err { OnErr result (pairs.new.entries ≡ pairs.old.entries) }
    ensures causes { WantOr result
        (IsTrue (any_unspelled S.words (shelf_rows (filter (in_partition p) rows.now.entries)))) }
{
    match row_in(rows, p, key) {
        None => Ok(()),
        Some(row) => {
            take_row::<S>(alloc, row, key.as_slice(), trie, pairs)?;
            Ok(())
        }
    }
}

// Puts the hashes of a row's key and of its bytes into a settled trie.
fn take_row<S: Schema>(
    alloc: Global,
    row: &S::Row,
    key: &[u8],
    trie: &mut Trie,
    pairs: &mut Pairs,
) -> Result<(), Memory>
    requires settled { queued trie.old ≡ 0 }
    requires has { has_key key.now (keys_of pairs.old.entries) ≡ true }
    requires known { (known : Hash32 × Hash32) → pair_at key.now pairs.old.entries ≡ Some known →
        known.0.0 ≡ blake2b 32 key.now }
    ensures taken { OnOk result
        (IsTaken S.words key.now row.now (pair_at key.now pairs.new.entries)) }
    ensures others { (other : List ℕ) → is_eq (slice_cmp nat_cmp key.now other) ≡ false →
        pair_at other pairs.new.entries ≡ pair_at other pairs.old.entries }
    ensures keys { keys_of pairs.new.entries ≡ keys_of pairs.old.entries }
    ensures kept { IsKept trie.old pairs.old.entries → IsKept trie.new pairs.new.entries }
    ensures err { OnErr result (pairs.new.entries ≡ pairs.old.entries) }
    ensures causes { WantOr result (S.words.spelling row.now ≡ None) }
{
    let bytes = S::row_bytes(alloc, row)?;
    let hash = blake2b_256(bytes.as_slice());
    match pairs.get_mut(key) {
        None => Ok(()),
        Some(pair) => {
            put_pair(trie, pair, key, hash)?;
            Ok(())
        }
    }
}

// Puts the pair of a row into a settled trie, in the place of the one that it has for the row. There is no room for it
// where another row has the key's hash.
fn put_pair(trie: &mut Trie, pair: &mut Option<Pair>, key: &[u8], row: Hash32) -> Result<(), Memory>
    requires settled { queued trie.old ≡ 0 }
    requires known { (known : Hash32 × Hash32) → pair.old ≡ Some known →
        known.0.0 ≡ blake2b 32 key.now }
    ensures is { OnOk result (option_map shown_pair pair.new ≡ Some (blake2b 32 key.now, row.0)) }
    ensures put { OnOk result ((held : List Pair) → Keeps (blake2b 32) trie.old held →
        Keeps (blake2b 32) trie.new (put (blake2b 32 key.now) row.0 held)) }
    ensures free { OnOk result (pair.old ≡ None → (held : List Pair) →
        Keeps (blake2b 32) trie.old held → only_at (blake2b 32 key.now) held ≡ None) }
    ensures err { OnErr result (IsUnchanged trie.old trie.new × (pair.new ≡ pair.old)) }
    ensures want { OnlyWant result }
{
    let key = key_hash(key, *pair);
    if is_used(trie, *pair, &key) {
        return Err(Memory::Want);
    }
    trie.put(key, row)?;
    *pair = Some((key, row));
    Ok(())
}

// A settled trie has the key hash for another row than the one that has this pair.
fn is_used(trie: &Trie, pair: Option<Pair>, key: &Hash32) -> bool
    requires { queued trie.now ≡ 0 }
    ensures { result ≡ false → pair ≡ None → (held : List Pair) → Keeps (blake2b 32) trie.now held →
        only_at key.now.0 held ≡ None }
{
    match pair {
        Some(_) => false,
        None => trie.only(&key.0).is_some(),
    }
}

/// The trie of one of three tables and a partition; of another table that of no row.
pub fn trie_of<'a, S: Schema>(
    table: u8,
    p: u8,
    first: &'a Shelf<S::Row>,
    second: &'a Shelf<S::Row>,
    third: &'a Shelf<S::Row>,
    nothing: &'a Trie,
) -> &'a Trie
    requires whole { IsWhole S.words first.now second.now third.now nothing.now }
    requires first { IsSettledAt first.now.index p }
    requires second { IsSettledAt second.now.index p }
    requires third { IsSettledAt third.now.index p }
    ensures keeps { Keeps (blake2b 32) result.now
        (pairs_of S.words table p (rows_of_all first.now second.now third.now)) }
    ensures settled { queued result.now ≡ 0 }
{
    match table {
        1 => trie_in::<S>(1, p, first, nothing),
        2 => trie_in::<S>(2, p, second, nothing),
        3 => trie_in::<S>(3, p, third, nothing),
        _ => nothing,
    }
}

// The trie of a partition, or that of no row.
fn trie_in<'a, S: Schema>(table: u8, p: u8, shelf: &'a Shelf<S::Row>, nothing: &'a Trie) -> &'a Trie
    requires placed { AllPlaced S.words table shelf.now.rows.entries }
    requires fits { AllFit S.words shelf.now.index shelf.now.rows.entries }
    requires settled { IsSettledAt shelf.now.index p }
    requires nothing { Keeps (blake2b 32) nothing.now [] }
    requires idle { queued nothing.now ≡ 0 }
    ensures keeps { Keeps (blake2b 32) result.now (map (pair_of S.words) (rows_at p shelf.now)) }
    ensures settled { queued result.now ≡ 0 }
{
    are_in_order(&shelf.rows);
    match shelf.index.get(&p) {
        Some(part) => {
            let _ = part.pairs.len();
            &part.trie
        }
        None => nothing,
    }
}
