//! The map that a block store is made of.
ghost use Rattle.std.specs.Prelude.{◌≡◌, ◌+◌, ◌-◌, ◌^◌, ◌<◌, ◌≤◌, ◌==◌, IsTrue, is_some, OnOk, OnErr, IfOk, IfErr, Some, None, if◌then◌else◌};
ghost use Rattle.std.specs.BTreeMap.{IsOrdered};
ghost use Rattle.blake2_hash.specs.Hash.{hash_cmp};
ghost use Rattle.block_store.specs.Contents.{block_at, live_count, told_live, told_dead, deleted};
ghost use Rattle.block_store.specs.Moments.{idle_since};
ghost use Rattle.block_store.specs.Shelf.{contents};

use blake2_hash::Hash32;
use block_bytes::Block;
use std::collections::BTreeMap;

/// A block, how many live references there are to it, and when they last fell to none, in milliseconds.
#[derive(Drop)]
pub struct Kept {
    pub bytes: Block,
    pub count: u64,
    pub note: Option<u64>,
}

impl Kept {
    // Since when the block is idle, if it is.
    fn since(&self) -> Option<u64>
        ensures { result ≡ (if self.now.count == 0 then self.now.note else None) }
    {
        if self.count == 0 { self.note } else { None }
    }
}

pub type Shelf = BTreeMap<Hash32, Kept>;

/// Counts one live reference more to a block that is there. Since when the block was idle, if it was.
pub fn add_reference(shelf: &mut Shelf, hash: &Hash32) -> Option<u64>
    requires there { IsTrue (is_some (block_at (contents shelf.old) hash.now)) }
    requires below { live_count (contents shelf.old) hash.now < 2 ^ 63 }
    requires ordered { IsOrdered hash_cmp shelf.old }
    ensures since { result ≡ idle_since (contents shelf.old) hash.now }
    ensures told { contents shelf.new ≡ told_live (contents shelf.old) hash.now }
    ensures ordered { IsOrdered hash_cmp shelf.new }
{
    let Some(kept) = shelf.get_mut(hash) else {
        return None;
    };
    let since = kept.since();
    kept.count += 1;
    since
}

/// Counts one live reference less, and notes the moment of the last. Whether it was that.
pub fn drop_reference(shelf: &mut Shelf, hash: &Hash32, now: u64) -> bool
    requires live { 1 ≤ live_count (contents shelf.old) hash.now }
    requires ordered { IsOrdered hash_cmp shelf.old }
    ensures last { result ≡ (live_count (contents shelf.old) hash.now == 1) }
    ensures told { contents shelf.new ≡ told_dead (contents shelf.old) hash.now now }
    ensures ordered { IsOrdered hash_cmp shelf.new }
{
    let Some(kept) = shelf.get_mut(hash) else {
        return false;
    };
    kept.count -= 1;
    if kept.count > 0 {
        return false;
    }
    kept.note = Some(now);
    true
}

/// Takes out a block that has no live reference, and its note. Since when it was idle.
pub fn remove_unused(shelf: &mut Shelf, hash: &Hash32) -> Option<u64>
    requires unused { live_count (contents shelf.old) hash.now ≡ 0 }
    requires ordered { IsOrdered hash_cmp shelf.old }
    ensures since { result ≡ idle_since (contents shelf.old) hash.now }
    ensures deleted { contents shelf.new ≡ deleted (contents shelf.old) hash.now }
    ensures ordered { IsOrdered hash_cmp shelf.new }
{
    match shelf.remove(hash) {
        Some(kept) => kept.note,
        None => None,
    }
}
