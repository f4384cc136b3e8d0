//! An outbox with ample memory, and blocks that may go.
use blake2_hash::{Hash32, blake2b_256};
use block_bytes::Block;
use block_resync::Resync;
use block_store::Blocks;
use crdt_core::{Bytes, Memory};
use std::alloc::Global;
use std::test::Fail;

const SETS: [[u8; 3]; 2] = [[1, 2, 3], [3, 4, 5]];

// Whether an item is done after these nodes' confirmations, and how many are left.
fn after(alloc: Global, nodes: &[u8]) -> Result<(bool, usize), Memory> {
    let mut outbox = Resync::new(alloc);
    let number = outbox.push(Bytes::from_slice(alloc, b"a")?, 7)?;
    for node in nodes {
        outbox.confirm(number, *node)?;
    }
    Ok((outbox.done(number, &SETS), outbox.items().len()))
}

const NODES: [u8; 6] = [1, 1, 2, 9, 4, 5];

#[test]
fn an_item_leaves_once_two_of_each_set_have_confirmed(rt: HostRuntime) -> Result<(), Fail> {
    for count in 0..6usize {
        assert_eq!(rt;
            after(rt.alloc(), &NODES[..count])?,
            (false, 1),
            "after {count}"
        );
    }
    assert_eq!(rt; after(rt.alloc(), &NODES)?, (true, 0));
    Ok(())
}

// A store with a block that was in use until 1,000 ms.
fn idle_block(alloc: Global, hash: &Hash32) -> Result<Blocks, Fail> {
    let mut blocks = Blocks::new(alloc);
    let block = Block::new(alloc, Bytes::from_slice(alloc, b"abc")?)?;
    blocks.put(hash, block)?;
    if blocks.get(hash).is_none() || blocks.count(hash) > 9 {
        return Err("no block".into());
    }
    blocks.live(hash);
    if blocks.count(hash) == 0 {
        return Err("no reference".into());
    }
    blocks.dead(hash, 1000);
    Ok(blocks)
}

// How many blocks may go at this time.
fn due(alloc: Global, now: u64) -> Result<usize, Fail> {
    let blocks = idle_block(alloc, &blake2b_256(b"abc"))?;
    Ok(Resync::new(alloc).due(&blocks, now)?.len())
}

#[test]
fn delayed_deletion(rt: HostRuntime) -> Result<(), Fail> {
    for (now, count) in [(0, 0), (1000, 0), (600_999, 0), (601_000, 1), (u64::MAX, 1)] {
        assert_eq!(rt; due(rt.alloc(), now)?, count, "at {now}");
    }
    Ok(())
}
