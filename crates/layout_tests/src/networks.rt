//! Small layouts, by their flow or cut; each number was worked out by hand.
use crate::made::{AT_256, BELOW_256, EQUAL, Row, TWO_ZONES, UNEQUAL, roles_of};
use crdt_core::Memory;
use layout_flow::{FlowOrCut, Network, flows, light_cuts};
use layout_roles::{Layout, smaller_sizes};
use std::alloc::Global;
use std::test::Fail;

// What a network answers: its weight, 768 for a flow, and how many vertices its cut holds, 0 for a flow.
fn answered(alloc: Global, rows: &[Row], r: u8, size: u64) -> Result<(u32, usize), Memory> {
    if r < 1 || 3 < r || size < 1 {
        return Err(Memory::Full);
    }
    let mut network = Network::new(alloc, &roles_of(alloc, rows)?, r, 1)?;
    network.resize(size);
    match network.max_flow()? {
        FlowOrCut::Flow(_) => Ok((768, 0)),
        FlowOrCut::Cut(cut) => Ok((cut.weight, cut.side.len())),
    }
}

// Zone a takes two copies of each partition, zone b 128 in all. With down held or not the cut weighs
// 256 + 256 + 128, so the least set has the source, up and zone b in each partition, and node 3.
const TIE: [Row; 3] = [(1, b"a", 9000), (2, b"a", 9000), (3, b"b", 128)];

// Node 3 could keep all partitions once: 100 and 100 from the others, and 256 to it.
const ONE_ZONE: [Row; 3] = [(1, b"a", 100), (2, b"a", 100), (3, b"a", 1000)];

#[test]
fn flows_and_cuts(rt: HostRuntime) -> Result<(), Fail> {
    let rows: [(&[Row], u8, u64, u32, usize); 11] = [
        (&EQUAL, 3, 3, 768, 0),
        // The source, up and three zones in each partition, and three nodes.
        (&EQUAL, 3, 4, 750, 1 + 256 * 4 + 3),
        (&UNEQUAL, 3, 3, 768, 0),
        // Zone c has room for more than one copy of each partition, so it stays out: 250, 250 and 256.
        (&UNEQUAL, 3, 4, 756, 1 + 256 * 3 + 2),
        (&TWO_ZONES, 2, 1, 768, 0),
        // Up and down with all zones and nodes: four times 150.
        (&TWO_ZONES, 2, 2, 600, 1 + 256 * 4 + 4),
        (&BELOW_256, 3, 1, 765, 1 + 256 * 4 + 3),
        (&AT_256, 3, 1, 768, 0),
        (&AT_256, 3, 2, 384, 1 + 256 * 4 + 3),
        (&TIE, 2, 1, 640, 1 + 256 * 2 + 1),
        (&ONE_ZONE, 1, 1, 456, 1 + 256 * 3 + 2),
    ];
    for (rows, r, size, weight, side) in rows {
        assert_eq!(rt; answered(rt.alloc(), rows, r, size)?, (weight, side));
    }
    flows();
    light_cuts();
    smaller_sizes();
    Ok(())
}

// A layout of three nodes.
fn layout(alloc: Global) -> Result<Layout, Memory> {
    let roles = roles_of(alloc, &EQUAL)?;
    let FlowOrCut::Flow(sets) = Network::new(alloc, &roles, 2, 3)?.max_flow()? else {
        return Err(Memory::Full);
    };
    Ok(Layout {
        version: 7,
        roles,
        r: 2,
        size: 3,
        sets,
    })
}

// A copy of it: its version, its number of roles, and the set of the last partition of a copy of its sets.
fn copied(alloc: Global) -> Result<(u32, usize, [u8; 3]), Memory> {
    let copy = layout(alloc)?.copy()?;
    Ok((
        copy.version,
        copy.roles.list.len(),
        copy.sets.copy()?.set(255),
    ))
}

#[test]
fn a_layout_is_copied(rt: HostRuntime) -> Result<(), Fail> {
    assert_eq!(rt; copied(rt.alloc())?, (7, 3, [1, 2, 3]));
    Ok(())
}
