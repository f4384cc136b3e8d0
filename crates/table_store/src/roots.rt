//! The roots of the rows of one table, by partition.
ghost use Rattle.std.specs.Prelude.{◌≡◌, ◌==◌, ◌++◌, ◌⊎◌, ℕ, List, false, map, filter, flat_map, IsTrue, IfOk, OnOk};
ghost use Rattle.crdt_core.specs.Outcomes.{OnlyWant, WantOr};
ghost use Rattle.blake2_hash.specs.Blake2b.{blake2b};
ghost use Rattle.blake2_hash.specs.Hashing.{Holds};
ghost use Rattle.table_model.specs.Root.{every_byte, root};
ghost use Rattle.table_model.specs.Top.{any_unspelled};
ghost use Rattle.table_store.specs.Shelf.{shelf_rows};
ghost use Rattle.table_store.specs.Pairs.{tagged, entry_pair, shelf_roots};

use crate::root::{Pair, pairs_value};
use crate::shelf::Shelf;
use blake2_hash::{Blake2b, Hash32, blake2b_256};
use crdt_core::Memory;
use std::alloc::Global;
use table_schema::Schema;

/// The hashes of a row, with its partition.
#[derive(Clone, Copy)]
pub struct Hashed {
    pub partition: u8,
    pub pair: Pair,
}

/// Takes in the roots of a shelf's 256 partitions, in order. `Full` where some row can't be written.
pub fn take_roots<S: Schema>(
    alloc: Global,
    shelf: &Shelf<S::Row>,
    hasher: &mut Blake2b,
) -> Result<(), Memory>
    ensures roots { OnOk result ((m : List ℕ) → Holds hasher.old m →
        Holds hasher.new (m ++ shelf_roots S.words shelf.now.rows.entries)) }
    ensures written { OnOk result (any_unspelled S.words (shelf_rows shelf.now.rows.entries) ≡
        false) }
    ensures causes { WantOr result
        (IsTrue (any_unspelled S.words (shelf_rows shelf.now.rows.entries))) }
{
    let hashes = hashes_of::<S>(alloc, shelf)?;
    take_hashes(alloc, hashes.as_slice(), hasher)?;
    Ok(())
}

// The hashes of all rows.
fn hashes_of<S: Schema>(alloc: Global, shelf: &Shelf<S::Row>) -> Result<Vec<Hashed>, Memory>
    ensures are { IfOk result (λ hashes. map tagged hashes.items ≡ map
        (λ e. (e.1.partition, entry_pair S.words e)) shelf.now.rows.entries) }
    ensures written { OnOk result (any_unspelled S.words (shelf_rows shelf.now.rows.entries) ≡
        false) }
    ensures causes { WantOr result
        (IsTrue (any_unspelled S.words (shelf_rows shelf.now.rows.entries))) }
{
    let mut hashes = Vec::new(alloc);
    for (key, placed) in &shelf.rows {
        let bytes = S::row_bytes(alloc, &placed.row)?;
        hashes.push(Hashed {
            partition: placed.partition,
            pair: (blake2b_256(key.as_slice()), blake2b_256(bytes.as_slice())),
        })?;
    }
    Ok(hashes)
}

// Takes in the root of each partition's pairs.
fn take_hashes(alloc: Global, hashes: &[Hashed], hasher: &mut Blake2b) -> Result<(), Memory>
    ensures roots { OnOk result ((m : List ℕ) → Holds hasher.old m →
        Holds hasher.new (m ++ flat_map
        (λ p. root (blake2b 32) (map (λ h. (tagged h).1) (filter
        (λ h. h.partition == p) hashes.now))) every_byte)) }
    ensures want { OnlyWant result }
{
    for p in 0..256u16 {
        let pairs = pairs_in(alloc, hashes, p as u8)?;
        let root: Hash32 = pairs_value(alloc, 32, pairs.as_slice())?;
        hasher.update(&root.0);
    }
    Ok(())
}

// The pairs of a partition.
fn pairs_in(alloc: Global, hashes: &[Hashed], p: u8) -> Result<Vec<Pair>, Memory>
    ensures are { IfOk result
        (λ pairs. pairs.items ≡ map (λ h. h.pair) (filter (λ h. h.partition == p) hashes.now)) }
    ensures want { OnlyWant result }
{
    let pairs: Vec<Pair> = hashes
        .iter()
        .filter(|hash| hash.partition == p)
        .map(|hash| hash.pair)
        .collect(alloc)?;
    Ok(pairs)
}
