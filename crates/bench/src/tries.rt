//! The job `trie`: a trie of many pairs, and then single changes of it.

ghost use Rattle.std.specs.Prelude.{◌≡◌, List, [], IfOk, OnOk, replicate};
ghost use Rattle.std.specs.Int.{to_be_bytes, w64};
ghost use Rattle.blake2_hash.specs.Blake2b.{blake2b};
ghost use Rattle.table_model.specs.Root.{Pair, root};
ghost use Rattle.merkle_trie.specs.Keeping.{Keeps};
ghost use Rattle.walk_model.specs.Sets.{put};
ghost use Rattle.bench.specs.Numbered.{numbered};

use blake2_hash::{Hash32, blake2b_256};
use crdt_core::Memory;
use merkle_trie::{Blake, Trie};
use std::alloc::Global;

/// The root of the trie that has the first `pair_count` pairs, settled at once, and then other row hashes for the
/// first `change_count` key hashes, settled one after the other.
pub fn changed_root(alloc: Global, pair_count: u64, change_count: u64) -> Result<Hash32, Memory>
    ensures { IfOk result (λ r. r.0 ≡ root (blake2b 32)
        (numbered 2 change_count (numbered 1 pair_count []))) }
{
    let mut trie = Trie::new(alloc);
    let mut hasher = Blake::new();
    'builds: for n in 0..pair_count {
        put_numbered(&mut trie, n, 1)?;
    }
    trie.settle(&mut hasher)?;
    'changes: for n in 0..change_count {
        put_numbered(&mut trie, n, 2)?;
        trie.settle(&mut hasher)?;
    }
    Ok(trie.root())
}

// Queues the pair of a number: the hash of its bytes, and 32 bytes that tell which row it is.
fn put_numbered(trie: &mut Trie, n: u64, row: u8) -> Result<(), Memory>
    ensures { OnOk result ((pairs : List Pair) → Keeps (blake2b 32) trie.old pairs →
        Keeps (blake2b 32) trie.new (put (blake2b 32 (to_be_bytes w64 n)) (replicate 32 row) pairs)) }
{
    trie.put(blake2b_256(&n.to_be_bytes()), Hash32([row; 32]))?;
    Ok(())
}
