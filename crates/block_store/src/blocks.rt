//! The block store.
ghost use Rattle.std.specs.Prelude.{◌≡◌, ◌≤◌, ◌<◌, ◌^◌, ◌==◌, length, IsTrue, is_some, OnOk, OnErr, IfOk, IfErr, option_map};
ghost use Rattle.std.specs.Map.{keys_of};
ghost use Rattle.std.specs.List.Sorted.{IsStrictlySortedBy};
ghost use Rattle.crdt_core.specs.Outcomes.{OnlyWant};
ghost use Rattle.block_store.specs.declared.fault.BlockFault.TheVariants.{InUse};
ghost use Rattle.blake2_hash.specs.Hash.{digest_of, hash_cmp};
ghost use Rattle.block_store.specs.Contents.{empty, block_at, live_count, put, told_live, told_dead, deleted, idle_notes, idle_until, IsInOrder, RefusesPut};
ghost use Rattle.block_store.specs.Moments.{idle_within};

use crate::fault::BlockFault;
use crate::moments::{Moments, enter, leave, take_within, walk_within};
use crate::shelf::{Kept, Shelf, add_reference, drop_reference, remove_unused};
use blake2_hash::Hash32;
use block_bytes::Block;
use crdt_core::Memory;
use std::alloc::Global;
use std::collections::{BTreeMap, BTreeSet};
use std::marker::Model;

/// The blocks of a node, in order of their hashes, and since when the idle ones are, in order of these moments.
#[derive(Drop)]
pub struct Blocks {
    shelf: Shelf,
    // None once memory has lacked for one. Then idle blocks are found by a walk of all.
    moments: Option<Moments>,
    alloc: Global,
}

impl Model for Blocks {
    ghost use Rattle.block_store.specs.Contents.{Contents};
    ghost use Rattle.block_store.specs.Moments.{AreKept};
    ghost use Rattle.block_store.specs.Shelf.{contents};

    ghost Value = { Contents };

    ghost view = { λ b. contents b.shelf };

    ghost invariant = { λ b. AreKept b.shelf b.moments };
}

impl Blocks {
    pub fn new(alloc: Global) -> Blocks
        ensures { result ≡ empty }
    {
        Blocks {
            shelf: BTreeMap::new(alloc),
            moments: Some(BTreeSet::new(alloc)),
            alloc,
        }
    }

    /// Keeps a block under the BLAKE2b-256 of its bytes, with no live reference. One that is there stays.
    pub fn put(&mut self, hash: &Hash32, block: Block) -> Result<(), BlockFault>
        ensures ok { OnOk result (self.new ≡ put self.old hash.now block) }
        ensures named { OnOk result (hash.now ≡ digest_of block) }
        ensures err { OnErr result (self.new ≡ self.old) }
        ensures refused { IfErr result (λ e. RefusesPut hash.now block e) }
    {
        let found = *block.hash();
        if found != *hash {
            return Err(BlockFault::WrongHash {
                named: *hash,
                found,
            });
        }
        if self.shelf.contains_key(hash) {
            return Ok(());
        }
        let kept = Kept {
            bytes: block,
            count: 0,
            note: None,
        };
        match self.shelf.insert(*hash, kept) {
            Ok(_) => Ok(()),
            Err(_) => Err(BlockFault::Memory),
        }
    }

    /// A block.
    pub fn get(&self, hash: &Hash32) -> Option<&Block>
        ensures { option_map (λ s. s.now) result ≡ block_at self.now hash.now }
    {
        match self.shelf.get(hash) {
            Some(kept) => Some(&kept.bytes),
            None => None,
        }
    }

    /// How many live references there are to a block.
    pub fn count(&self, hash: &Hash32) -> u64
        ensures { result ≡ live_count self.now hash.now }
    {
        match self.shelf.get(hash) {
            Some(kept) => kept.count,
            None => 0,
        }
    }

    /// Tells of one live reference more. Takes no memory.
    pub fn live(&mut self, hash: &Hash32)
        requires there { IsTrue (is_some (block_at self.old hash.now)) }
        requires below { live_count self.old hash.now < 2 ^ 63 }
        ensures { self.new ≡ told_live self.old hash.now }
    {
        if let Some(moment) = add_reference(&mut self.shelf, hash) {
            leave(&mut self.moments, hash, moment);
        }
    }

    /// Tells that a live reference has ended, at a clock of `now` milliseconds. Needs no memory.
    pub fn dead(&mut self, hash: &Hash32, now: u64)
        requires { 1 ≤ live_count self.old hash.now }
        ensures { self.new ≡ told_dead self.old hash.now now }
    {
        if drop_reference(&mut self.shelf, hash, now) {
            enter(&mut self.moments, hash, now);
        }
    }

    /// Drops a block that isn't in use, and its note. There may be none.
    pub fn delete(&mut self, hash: &Hash32) -> Result<(), BlockFault>
        ensures ok { OnOk result (self.new ≡ deleted self.old hash.now) }
        ensures unused { OnOk result (live_count self.old hash.now ≡ 0) }
        ensures err { OnErr result (self.new ≡ self.old) }
        ensures in_use { IfErr result (λ e. (e ≡ InUse (live_count self.old hash.now)) ×
            (1 ≤ live_count self.old hash.now)) }
    {
        let count = self.count(hash);
        if count > 0 {
            return Err(BlockFault::InUse(count));
        }
        if let Some(moment) = remove_unused(&mut self.shelf, hash) {
            leave(&mut self.moments, hash, moment);
        }
        Ok(())
    }

    /// How many blocks there are.
    pub fn len(&self) -> usize
        ensures len { result ≡ length self.now.blocks }
        ensures in_order { IsInOrder self.now }
    {
        self.shelf.len()
    }

    /// The blocks whose live references have all ended, in order of hashes, each with the moment when the
    /// last one did, in milliseconds.
    pub fn idle(&self) -> Result<Vec<(Hash32, u64)>, Memory>
        ensures notes { IfOk result (λ v. v.items ≡ idle_notes self.now) }
        ensures in_order { IfOk result (λ v. IsStrictlySortedBy hash_cmp (keys_of v.items)) }
        ensures want { OnlyWant result }
    {
        self.idle_within(None)
    }

    /// The idle blocks whose last live reference ended at this moment or before, in order of hashes, each with
    /// the moment when it did. Looks at these and at one more.
    pub fn idle_until(&self, moment: u64) -> Result<Vec<(Hash32, u64)>, Memory>
        ensures notes { IfOk result (λ v. v.items ≡ idle_until moment self.now) }
        ensures want { OnlyWant result }
    {
        self.idle_within(Some(moment))
    }

    // The idle blocks since a moment within the limit, in order of hashes.
    fn idle_within(&self, limit: Option<u64>) -> Result<Vec<(Hash32, u64)>, Memory>
        ensures notes { IfOk result (λ v. v.items ≡ idle_within limit self.now) }
        ensures in_order { IsInOrder self.now }
        ensures want { OnlyWant result }
    {
        match &self.moments {
            Some(moments) => take_within(self.alloc, moments, limit),
            None => walk_within(self.alloc, &self.shelf, limit),
        }
    }
}
