//! A block store with ample memory.
use blake2_hash::Hash32;
use block_bytes::Block;
use block_store::{BlockFault, Blocks, calls_by_hash};
use crdt_core::{Bytes, Memory};
use std::alloc::Global;
use std::test::Fail;

// The digest of `abc` that hashlib gives.
const ABC: Hash32 = Hash32([
    0xbd, 0xdd, 0x81, 0x3c, 0x63, 0x42, 0x39, 0x72, 0x31, 0x71, 0xef, 0x3f, 0xee, 0x98, 0x57, 0x9b,
    0x94, 0x96, 0x4e, 0x3b, 0xb1, 0xcb, 0x3e, 0x42, 0x72, 0x62, 0xc8, 0xc0, 0x68, 0xd5, 0x23, 0x19,
]);

#[derive(Clone, Copy)]
enum Call {
    Put,
    Live,
    Dead(u64),
    Delete,
}

// The block `abc`.
fn block(alloc: Global) -> Result<Block, Memory> {
    Block::new(alloc, Bytes::from_slice(alloc, b"abc")?)
}

// Whether a call on the block `abc` is refused, and for how many references.
fn called(alloc: Global, blocks: &mut Blocks, call: Call) -> Result<Option<u64>, Memory> {
    match call {
        Call::Put => match blocks.put(&ABC, block(alloc)?) {
            Ok(()) => Ok(None),
            Err(_) => Err(Memory::Want),
        },
        Call::Live if blocks.get(&ABC).is_some() && blocks.count(&ABC) < 10 => {
            blocks.live(&ABC);
            Ok(None)
        }
        Call::Dead(now) if blocks.count(&ABC) > 0 => {
            blocks.dead(&ABC, now);
            Ok(None)
        }
        Call::Delete => match blocks.delete(&ABC) {
            Err(BlockFault::InUse(count)) => Ok(Some(count)),
            _ => Ok(None),
        },
        _ => Err(Memory::Full),
    }
}

// The last of these calls, how many references the block has then, and since when none.
fn after(alloc: Global, calls: &[Call]) -> Result<(Option<u64>, u64, Option<u64>), Memory> {
    let mut blocks = Blocks::new(alloc);
    let mut last = None;
    for call in calls {
        last = called(alloc, &mut blocks, *call)?;
    }
    let note = blocks.idle()?.first().map(|entry| entry.1);
    Ok((last, blocks.count(&ABC), note))
}

const CALLS: [Call; 10] = [
    Call::Put,
    Call::Live,
    Call::Live,
    Call::Delete,
    Call::Dead(5),
    Call::Dead(7),
    Call::Put,
    Call::Live,
    Call::Dead(9),
    Call::Delete,
];

#[test]
fn block_counts(rt: HostRuntime) -> Result<(), Fail> {
    for (count, last, references, note) in [
        (1, None, 0, None),
        (2, None, 1, None),
        (3, None, 2, None),
        (4, Some(2), 2, None),
        (5, None, 1, None),
        (6, None, 0, Some(7)),
        (7, None, 0, Some(7)),
        (8, None, 1, None),
        (9, None, 0, Some(9)),
        (10, None, 0, None),
    ] {
        assert_eq!(rt;
            after(rt.alloc(), &CALLS[..count.min(10)])?,
            (last, references, note)
        );
    }
    calls_by_hash();
    Ok(())
}

// How many blocks are idle since a moment or longer, where `abc` is since 7.
fn idle_count(alloc: Global, moment: u64) -> Result<usize, Memory> {
    let mut blocks = Blocks::new(alloc);
    for call in &CALLS[..6] {
        let _ = called(alloc, &mut blocks, *call)?;
    }
    Ok(blocks.idle_until(moment)?.len())
}

#[test]
fn idle_blocks_up_to_a_moment(rt: HostRuntime) -> Result<(), Fail> {
    for (moment, count) in [(0, 0), (6, 0), (7, 1), (u64::MAX, 1)] {
        assert_eq!(rt; idle_count(rt.alloc(), moment)?, count, "at {moment}");
    }
    Ok(())
}

// What a put of `abc` under another name answers, and how many blocks there are then.
fn misnamed(alloc: Global, named: &Hash32) -> Result<(Option<BlockFault>, usize), Memory> {
    let mut blocks = Blocks::new(alloc);
    let fault = blocks.put(named, block(alloc)?).err();
    Ok((fault, blocks.len()))
}

#[test]
fn block_faults(rt: HostRuntime) -> Result<(), Fail> {
    let named = Hash32([7; 32]);
    let (fault, count) = misnamed(rt.alloc(), &named)?;
    assert_eq!(rt; fault, Some(BlockFault::WrongHash { named, found: ABC }));
    assert_eq!(rt; count, 0);
    Ok(())
}
