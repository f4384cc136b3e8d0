//! What one table has of each partition beside its rows: their keys, their trie, and which of them changed since.
ghost use Rattle.std.specs.Prelude.{◌≡◌, ◌||◌, ℕ, List, true, IsTrue, OnOk, OnErr, None, Some};
ghost use Rattle.std.specs.Cmp.Lexicographic.{slice_cmp};
ghost use Rattle.std.specs.Map.{keys_of};
ghost use Rattle.std.specs.BTreeMap.{get};
ghost use Rattle.std.specs.Ordering.{nat_cmp, is_eq};
ghost use Rattle.crdt_core.specs.Outcomes.{OnlyWant};
ghost use Rattle.blake2_hash.specs.Blake2b.{blake2b};
ghost use Rattle.blake2_hash.specs.declared.digest.Hash32.{Hash32};
ghost use Rattle.table_model.specs.Root.{Pair as Held};
ghost use Rattle.walk_model.specs.Sets.{removed};
ghost use Rattle.merkle_trie.specs.Keeping.{Keeps, IsUnchanged};
ghost use Rattle.table_store.specs.declared.index.Part.{Part};
ghost use Rattle.table_store.specs.Index.{has_key, keys_under, pair_at, waits, waits_in, Extends, Grows, Forgets, Stays, ForgetsAt, StaysAt};

use crate::root::Pair;
use blake2_hash::{Hash32, blake2b_256};
use crdt_core::Memory;
use merkle_trie::{Blake, Trie};
use std::alloc::Global;
use std::collections::{BTreeMap, BTreeSet};

/// The keys of rows in order, each with the pair that the trie has for it, if it has one yet.
pub type Pairs = BTreeMap<Vec<u8>, Option<Pair>>;

/// The keys of a partition's rows, their trie, and the keys of the rows that changed since the trie took them in.
#[derive(Drop)]
pub struct Part {
    pub pairs: Pairs,
    pub waiting: BTreeSet<Vec<u8>>,
    pub trie: Trie,
}

/// What there is of each partition. One without rows may be missing.
pub type Index = BTreeMap<u8, Part>;

impl Part {
    // No key, and the trie of no pair.
    fn new(alloc: Global) -> Part
        ensures { Grows None result }
    {
        Part {
            pairs: BTreeMap::new(alloc),
            waiting: BTreeSet::new(alloc),
            trie: Trie::new(alloc),
        }
    }

    // Notes that the row at a key changed. Whether or not there is room, nothing else changes.
    fn note(&mut self, alloc: Global, key: &[u8]) -> Result<(), Memory>
        ensures grows { Grows (Some self.old) self.new }
        ensures has { OnOk result (IsTrue (has_key key.now (keys_of self.new.pairs.entries))) }
        ensures waits { OnOk result (IsTrue (waits key.now self.new)) }
        ensures want { OnlyWant result }
    {
        add_key(alloc, &mut self.pairs, key)?;
        add_to(alloc, &mut self.waiting, key)?;
        Ok(())
    }

    // Forgets a key, whose pair leaves the trie. Where there is no room it is there as before.
    fn forget(&mut self, key: &[u8]) -> Result<(), Memory>
        ensures forgets { OnOk result (Forgets key.now self.old self.new) }
        ensures stays { OnErr result (Stays self.old self.new) }
        ensures want { OnlyWant result }
    {
        let mut hasher = Blake::new();
        self.trie.settle(&mut hasher)?;
        let pair = known(&self.pairs, key);
        drop_pair(&mut self.trie, pair)?;
        let _ = self.pairs.remove(key);
        let _ = self.waiting.remove(key);
        Ok(())
    }
}

// Takes the pair of a row out of a trie, if it has one.
fn drop_pair(trie: &mut Trie, pair: Option<Pair>) -> Result<(), Memory>
    ensures removed { OnOk result ((known : Hash32 × Hash32) → pair ≡ Some known →
        (held : List Held) → Keeps (blake2b 32) trie.old held →
        Keeps (blake2b 32) trie.new (removed known.0.0 held)) }
    ensures nothing { OnOk result (pair ≡ None → trie.new ≡ trie.old) }
    ensures err { OnErr result (IsUnchanged trie.old trie.new) }
    ensures want { OnlyWant result }
{
    match pair {
        Some(pair) => trie.remove(&pair.0),
        None => Ok(()),
    }
}

// The pair that is known of the row at a key.
fn known(pairs: &Pairs, key: &[u8]) -> Option<Pair>
    ensures { result ≡ pair_at key.now pairs.now.entries }
{
    *pairs.get(key)?
}

// Adds a key, of whose row nothing is known, where it isn't there.
fn add_key(alloc: Global, pairs: &mut Pairs, key: &[u8]) -> Result<(), Memory>
    ensures extends { Extends pairs.old.entries pairs.new.entries }
    ensures has { OnOk result (IsTrue (has_key key.now (keys_of pairs.new.entries))) }
    ensures want { OnlyWant result }
{
    if pairs.contains_key(key) {
        return Ok(());
    }
    let key = Vec::from_slice(alloc, key)?;
    let _ = pairs.insert(key, None)?;
    Ok(())
}

/// Adds a key to others, where it isn't there.
pub fn add_to(alloc: Global, keys: &mut BTreeSet<Vec<u8>>, key: &[u8]) -> Result<(), Memory>
    ensures others { (other : List ℕ) → has_key other keys.old.keys ≡ true →
        has_key other keys.new.keys ≡ true }
    ensures has { OnOk result (IsTrue (has_key key.now keys.new.keys)) }
    ensures adds { OnOk result ((other : List ℕ) →
        has_key other keys.new.keys ≡ (has_key other keys.old.keys || is_eq
        (slice_cmp nat_cmp other key.now))) }
    ensures want { OnlyWant result }
{
    if keys.contains(key) {
        return Ok(());
    }
    let key = Vec::from_slice(alloc, key)?;
    let _ = keys.insert(key)?;
    Ok(())
}

/// Notes that the row of a partition at a key changed. Whether or not there is room, nothing else changes.
pub fn note(alloc: Global, index: &mut Index, p: u8, key: &[u8]) -> Result<(), Memory>
    ensures grows { (q : ℕ) (part : Part) → get nat_cmp index.new q ≡ Some part →
        Grows (get nat_cmp index.old q) part }
    ensures others { (q : ℕ) (other : List ℕ) → IsTrue (has_key other (keys_under index.old q)) →
        IsTrue (has_key other (keys_under index.new q)) }
    ensures has { OnOk result (IsTrue (has_key key.now (keys_under index.new p))) }
    ensures waits { OnOk result (IsTrue (waits_in key.now (get nat_cmp index.new p))) }
    ensures want { OnlyWant result }
{
    if let Some(part) = index.get_mut(&p) {
        part.note(alloc, key)?;
        return Ok(());
    }
    let mut part = Part::new(alloc);
    part.note(alloc, key)?;
    let _ = index.insert(p, part)?;
    Ok(())
}

/// Forgets the key of a row of a partition. Where there is no room it is there as before.
pub fn forget(index: &mut Index, p: u8, key: &[u8]) -> Result<(), Memory>
    ensures forgets { OnOk result (ForgetsAt p key.now index.old index.new) }
    ensures stays { OnErr result (StaysAt p index.old index.new) }
    ensures want { OnlyWant result }
{
    match index.get_mut(&p) {
        Some(part) => part.forget(key),
        None => Ok(()),
    }
}

/// The hash of a row's key, which the pair has that is known of the row.
pub fn key_hash(key: &[u8], pair: Option<Pair>) -> Hash32
    requires known { (known : Hash32 × Hash32) → pair ≡ Some known →
        known.0.0 ≡ blake2b 32 key.now }
    ensures { result.0 ≡ blake2b 32 key.now }
{
    match pair {
        Some(pair) => pair.0,
        None => blake2b_256(key),
    }
}
