//! References of rows to blocks, as they begin and end, and blocks that are deleted.

ghost use Rattle.std.specs.Prelude.{◌≡◌, ◌<◌, ◌^◌, Some, None, IsTrue, IfOk, OnOk, IfSome, is_some};
ghost use Rattle.std.specs.List.{AllByRecursion};
ghost use Rattle.crdt_core.specs.Outcomes.{OnlyWant};
ghost use Rattle.blake2_hash.specs.Blake2b.{blake2b};
ghost use Rattle.block_store.specs.Contents.{block_at, live_count, told_live, told_dead};
ghost use Rattle.cluster_machine.specs.Blocks.{IsBeside};
ghost use Rattle.node_parts.specs.References.{kept_with, referred, ended, deleted_all};

use blake2_hash::Hash32;
use block_bytes::Block;
use block_store::Blocks;
use crdt_core::Memory;

// Keeps the block that came for a row. Its bytes have this hash, so that only memory can lack.
fn keep(blocks: &mut Blocks, hash: &Hash32, given: &Option<Block>) -> Result<(), Memory>
    requires beside { IsBeside (blake2b 32) (Some hash.now.0) given.now }
    ensures kept { OnOk result (blocks.new ≡ kept_with blocks.old hash.now given.now) }
    ensures there { OnOk result (IsTrue (is_some (block_at blocks.new hash.now))) }
    ensures want { OnlyWant result }
{
    let Some(block) = given else {
        return Ok(());
    };
    match blocks.put(hash, block.share()?) {
        Ok(()) => Ok(()),
        Err(_) => Err(Memory::Want),
    }
}

// Counts one reference more. No memory has room for 2^63 rows.
fn begin_reference(blocks: &mut Blocks, hash: &Hash32) -> Result<(), Memory>
    requires there { IsTrue (is_some (block_at blocks.old hash.now)) }
    ensures told { OnOk result (blocks.new ≡ told_live blocks.old hash.now) }
    ensures want { OnlyWant result }
{
    if blocks.count(hash) >= 1 << 63 {
        return Err(Memory::Want);
    }
    blocks.live(hash);
    Ok(())
}

// Counts one reference less. The rows of a table were counted, so that there is one.
fn end_reference(blocks: &mut Blocks, hash: &Hash32, now: u64)
    ensures { blocks.new ≡ told_dead blocks.old hash.now now }
{
    if blocks.count(hash) > 0 {
        blocks.dead(hash, now);
    }
}

/// Counts one reference less for each of these hashes.
pub fn end_references(blocks: &mut Blocks, hashes: &[Hash32], now: u64)
    ensures { blocks.new ≡ ended now blocks.old hashes.now }
{
    for hash in hashes {
        end_reference(blocks, hash, now);
    }
}

/// A row needed the block `before`, and now needs the block `after`.
pub fn refer(
    blocks: &mut Blocks,
    before: Option<Hash32>,
    after: Option<Hash32>,
    given: &Option<Block>,
    now: u64,
) -> Result<(), Memory>
    requires beside { IfSome after (λ h. IsBeside (blake2b 32) (Some h.0) given.now) }
    ensures told { OnOk result (blocks.new ≡ referred now given.now blocks.old before after) }
    ensures want { OnlyWant result }
{
    match (before, after) {
        (None, None) => Ok(()),
        (Some(old), None) => {
            end_reference(blocks, &old, now);
            Ok(())
        }
        (None, Some(new)) => {
            keep(blocks, &new, given)?;
            begin_reference(blocks, &new)
        }
        (Some(_), Some(new)) => keep(blocks, &new, given),
    }
}

/// Deletes these blocks. None has a live reference, so that the store refuses none.
pub fn delete_all(blocks: &mut Blocks, hashes: &[Hash32])
    requires idle { AllByRecursion (λ h. live_count blocks.old h ≡ 0) hashes.now }
    ensures { blocks.new ≡ deleted_all blocks.old hashes.now }
{
    for hash in hashes {
        let _ = blocks.delete(hash);
    }
}
