//! Since when blocks are idle, in order.
ghost use Rattle.std.specs.Prelude.{◌≡◌, Some, IfOk, true, false};
ghost use Rattle.crdt_core.specs.Outcomes.{OnlyWant};
ghost use Rattle.block_store.specs.Contents.{Contents, IsInOrder};
ghost use Rattle.block_store.specs.Moments.{AreMoments, Changes, FindsWithin, idle_within, is_within};
ghost use Rattle.block_store.specs.Shelf.{contents};

use crate::shelf::Shelf;
use blake2_hash::Hash32;
use crdt_core::Memory;
use std::alloc::Global;
use std::collections::{BTreeMap, BTreeSet};

/// The moments since which blocks are idle, in milliseconds, each with its block's hash, in order.
pub type Moments = BTreeSet<(u64, Hash32)>;

/// A block is idle from this moment on. Where memory lacks for one, the moments are given up.
pub fn enter(moments: &mut Option<Moments>, hash: &Hash32, moment: u64)
    ensures { Changes moments.old moments.new hash.now moment true }
{
    let Some(kept) = moments else {
        return;
    };
    if kept.insert((moment, *hash)).is_err() {
        *moments = None;
    }
}

/// A block that was idle since this moment isn't any more.
pub fn leave(moments: &mut Option<Moments>, hash: &Hash32, moment: u64)
    ensures { Changes moments.old moments.new hash.now moment false }
{
    let Some(kept) = moments else {
        return;
    };
    let _ = kept.remove(&(moment, *hash));
}

// There is no limit, or the moment is at most that.
fn is_within(limit: Option<u64>, moment: u64) -> bool
    ensures { result ≡ is_within limit moment }
{
    match limit {
        Some(limit) => moment <= limit,
        None => true,
    }
}

// The first moments, those within the limit, by their blocks.
fn find_within(
    alloc: Global,
    moments: &Moments,
    limit: Option<u64>,
) -> Result<BTreeMap<Hash32, u64>, Memory>
    ensures finds { IfOk result (λ found. FindsWithin limit moments.now found) }
    ensures want { OnlyWant result }
{
    let mut found = BTreeMap::new(alloc);
    for moment in moments {
        if !is_within(limit, moment.0) {
            return Ok(found);
        }
        let _ = found.insert(moment.1, moment.0)?;
    }
    Ok(found)
}

// The entries of a map, in order.
fn listed(alloc: Global, found: BTreeMap<Hash32, u64>) -> Result<Vec<(Hash32, u64)>, Memory>
    ensures listed { IfOk result (λ v. v.items ≡ found.entries) }
    ensures want { OnlyWant result }
{
    Ok(found.into_iter().collect(alloc)?)
}

/// The idle blocks in order of hashes, those since a moment within the limit. Looks at no later one but the first.
pub fn take_within(
    alloc: Global,
    moments: &Moments,
    limit: Option<u64>,
) -> Result<Vec<(Hash32, u64)>, Memory>
    ensures idle { IfOk result (λ v. (c : Contents) → AreMoments (Some moments.now) c →
        IsInOrder c → v.items ≡ idle_within limit c) }
    ensures want { OnlyWant result }
{
    let found = find_within(alloc, moments, limit)?;
    listed(alloc, found)
}

/// The same by a walk of all blocks, where there are no moments.
pub fn walk_within(
    alloc: Global,
    shelf: &Shelf,
    limit: Option<u64>,
) -> Result<Vec<(Hash32, u64)>, Memory>
    ensures idle { IfOk result (λ v. v.items ≡ idle_within limit (contents shelf.now)) }
    ensures want { OnlyWant result }
{
    let mut idle = Vec::new(alloc);
    for (hash, kept) in shelf {
        if kept.count == 0 {
            if let Some(note) = kept.note {
                if is_within(limit, note) {
                    idle.push((*hash, note))?;
                }
            }
        }
    }
    Ok(idle)
}
