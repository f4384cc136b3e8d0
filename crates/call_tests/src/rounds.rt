//! A round over three partitions, with ample memory.
use crdt_core::Memory;
use std::alloc::Global;
use std::test::Fail;
use sync_round::Round;

// The round of node 2 to version 2, after these confirmations of partitions by nodes: how many nodes haven't confirmed,
// over all partitions, and whether it is complete.
fn after(alloc: Global, told: &[(u8, u8)]) -> Result<(usize, bool), Memory> {
    let parts = [(0, [1, 2, 4]), (7, [2, 4, 5]), (255, [1, 3, 5])].to_vec(alloc)?;
    let mut round = Round::new(alloc, 2, parts, 2)?;
    for (p, node) in told {
        round.confirm(*p, *node);
    }
    let mut count = 0usize;
    for (_, nodes) in &round.open_parts()? {
        count = count.wrapping_add(nodes.len());
    }
    Ok((count, round.complete()))
}

const TOLD: [(u8, u8); 9] = [
    (8, 4),
    (0, 9),
    (0, 2),
    (0, 4),
    (0, 4),
    (255, 3),
    (255, 1),
    (7, 5),
    (0, 1),
];

#[test]
fn two_of_each_partition_complete_a_round(rt: HostRuntime) -> Result<(), Fail> {
    for (count, open, complete) in [
        (0, 7, false),
        (3, 7, false),
        (4, 6, false),
        (5, 6, false),
        (6, 5, false),
        (7, 4, false),
        (8, 3, true),
        (9, 2, true),
    ] {
        assert_eq!(rt; after(rt.alloc(), &TOLD[..count.min(9)])?, (open, complete));
    }
    Ok(())
}
