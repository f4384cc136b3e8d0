//! The job `due`: many idle blocks, and then the question which of them are due, again and again.

use block_bytes::Block;
use block_resync::Resync;
use block_store::Blocks;
use crdt_core::{Bytes, Memory};
use std::alloc::Global;

// When the blocks become idle, in milliseconds.
const MOMENT: u64 = 1_000_000;

/// How many blocks are due in all, where that is asked so often at the moment when so many become idle.
pub fn due_count(alloc: Global, block_count: u64, call_count: u64) -> Result<u64, Memory> {
    let mut blocks = Blocks::new(alloc);
    for n in 0..block_count {
        add_idle(alloc, &mut blocks, n)?;
    }
    let outbox = Resync::new(alloc);
    let mut count: u64 = 0;
    for _ in 0..call_count {
        count = count.saturating_add(outbox.due(&blocks, MOMENT)?.len() as u64);
    }
    Ok(count)
}

// Keeps the block that has the bytes of a number, idle since the moment.
fn add_idle(alloc: Global, blocks: &mut Blocks, n: u64) -> Result<(), Memory> {
    let block = Block::new(alloc, Bytes::from_slice(alloc, &n.to_be_bytes())?)?;
    let hash = *block.hash();
    if blocks.put(&hash, block).is_err() {
        return Err(Memory::Want);
    }
    if blocks.get(&hash).is_some() && blocks.count(&hash) == 0 {
        blocks.live(&hash);
    }
    if blocks.count(&hash) > 0 {
        blocks.dead(&hash, MOMENT);
    }
    Ok(())
}
