//! What merged trackers hold, worked out by hand, with ample memory.
use crdt_core::{Crdt, Memory};
use layout_trackers::{Trackers, Which, trackers_grow, versions_compare};
use std::alloc::Global;
use std::test::Fail;

fn raised(alloc: Global, entries: &[(Which, u8, u32)]) -> Result<Trackers, Memory> {
    let mut trackers = Trackers::new(alloc);
    for (which, node, version) in entries {
        trackers.set_own(*which, *node, *version)?;
    }
    Ok(trackers)
}

const ONE: [(Which, u8, u32); 3] = [(Which::Ack, 1, 6), (Which::Ack, 2, 4), (Which::Sync, 2, 1)];

const OTHER: [(Which, u8, u32); 3] = [
    (Which::Ack, 2, 5),
    (Which::SyncAck, 7, 3),
    (Which::Sync, 2, 0),
];

const BOTH: [(Which, u8, u32); 4] = [
    (Which::Ack, 1, 6),
    (Which::Ack, 2, 5),
    (Which::Sync, 2, 1),
    (Which::SyncAck, 7, 3),
];

// A copy of the first, with the other merged into it.
fn merged(alloc: Global) -> Result<Trackers, Memory> {
    let mut merged = copied(alloc)?;
    let other = raised(alloc, &OTHER)?;
    merged.merge(&other)?;
    Ok(merged)
}

fn copied(alloc: Global) -> Result<Trackers, Memory> {
    raised(alloc, &ONE)?.copy()
}

// Whether the two merge to the third.
fn merge_to_both(alloc: Global) -> Result<bool, Memory> {
    let both = raised(alloc, &BOTH)?;
    Ok(merged(alloc)? == both)
}

#[test]
fn trackers_merge_node_by_node(rt: HostRuntime) -> Result<(), Fail> {
    assert!(rt; merge_to_both(rt.alloc())?);
    trackers_grow();
    versions_compare();
    Ok(())
}
