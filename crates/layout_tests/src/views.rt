//! Views of three versions, and each call's answer worked out from the rules.
//!
//! Version 1 has the storage nodes 1, 2, 3. Version 2 has 2, 3, 4 and the gateway 1. Version 3 has 4, 5, 6
//! and the gateway 9. Each version gives its three storage nodes all partitions.
use crate::made::{GATEWAY, Row, roles_of};
use crdt_core::Memory;
use layout_flow::{FlowOrCut, Network};
use layout_history::View;
use layout_roles::Layout;
use layout_trackers::Which;
use std::alloc::Global;
use std::test::Fail;

const FIRST: [Row; 3] = [(1, b"z", 1000), (2, b"z", 1000), (3, b"z", 1000)];

const SECOND: [Row; 4] = [
    (1, b"z", GATEWAY),
    (2, b"z", 1000),
    (3, b"z", 1000),
    (4, b"z", 1000),
];

const THIRD: [Row; 4] = [
    (4, b"z", 1000),
    (5, b"z", 1000),
    (6, b"z", 1000),
    (9, b"z", GATEWAY),
];

fn layout(alloc: Global, version: u32, rows: &[Row]) -> Result<Layout, Memory> {
    let roles = roles_of(alloc, rows)?;
    let FlowOrCut::Flow(sets) = Network::new(alloc, &roles, 1, 1)?.max_flow()? else {
        return Err(Memory::Full);
    };
    Ok(Layout {
        version,
        roles,
        r: 1,
        size: 1,
        sets,
    })
}

fn append(alloc: Global, view: &mut View, rows: &[Row]) -> Result<(), Memory> {
    let layout = layout(alloc, view.newest().wrapping_add(1), rows)?;
    if layout.roles.list.is_empty() || layout.version.checked_sub(1) != Some(view.newest()) {
        return Err(Memory::Full);
    }
    view.append(layout)
}

// A view with the three versions.
fn three(alloc: Global) -> Result<View, Memory> {
    let mut view = View::new(alloc);
    append(alloc, &mut view, &FIRST)?;
    append(alloc, &mut view, &SECOND)?;
    append(alloc, &mut view, &THIRD)?;
    Ok(view)
}

// Gateways and missing entries hold the acks back, and two of the version before establish a version.
const RAISED: [(Which, u8, u32, u32, u32); 14] = [
    (Which::Ack, 1, 3, 1, 1),
    (Which::Ack, 2, 2, 1, 1),
    (Which::Ack, 3, 3, 1, 1),
    (Which::Ack, 4, 3, 1, 1),
    (Which::Ack, 5, 3, 1, 1),
    (Which::Ack, 6, 3, 1, 1),
    (Which::Ack, 9, 3, 2, 1),
    (Which::Ack, 2, 3, 3, 1),
    (Which::Sync, 1, 2, 3, 1),
    (Which::Sync, 4, 3, 3, 1),
    (Which::Sync, 5, 3, 3, 1),
    (Which::Sync, 6, 3, 3, 1),
    (Which::Sync, 3, 2, 3, 2),
    (Which::Sync, 3, 3, 3, 3),
];

// The least ack and the read version after these entries were raised.
fn read(alloc: Global, raised: &[(Which, u8, u32, u32, u32)]) -> Result<(u32, u32), Memory> {
    let mut view = three(alloc)?;
    for (which, node, version, _, _) in raised {
        view.raise(*which, *node, *version)?;
    }
    Ok((view.ack_least(), view.read_version()))
}

#[test]
fn raised_entries_are_read(rt: HostRuntime) -> Result<(), Fail> {
    let mut count = 0usize;
    for (_, _, _, ack_least, read_version) in RAISED {
        count = count.saturating_add(1).min(14);
        assert_eq!(rt;
            read(rt.alloc(), &RAISED[..count])?,
            (ack_least, read_version)
        );
    }
    Ok(())
}

// The view after these nodes read at the version that stands beside each.
fn reading(alloc: Global, nodes: &[(u8, u32)]) -> Result<View, Memory> {
    let mut view = three(alloc)?;
    for (node, version) in nodes {
        view.raise(Which::SyncAck, *node, *version)?;
    }
    Ok(view)
}

const READING: [(u8, u32); 8] = [
    (2, 3),
    (3, 3),
    (4, 3),
    (5, 3),
    (6, 3),
    (9, 3),
    (1, 2),
    (1, 9),
];

#[test]
fn members_of_old_versions_hold_a_clean_back(rt: HostRuntime) -> Result<(), Fail> {
    for (count, oldest) in [(6, 1), (7, 2), (8, 3)] {
        let mut view = reading(rt.alloc(), &READING[..count.min(8)])?;
        assert_eq!(rt; view.clean(), oldest);
        assert_eq!(rt; (view.oldest(), view.newest()), (oldest, 3));
    }
    Ok(())
}

// A view that knows of one ack more.
fn acked(alloc: Global) -> Result<View, Memory> {
    let mut view = three(alloc)?;
    view.raise(Which::Ack, 2, 2)?;
    Ok(view)
}

// A copy of a view, which dropped its oldest version.
fn cleaned(alloc: Global) -> Result<View, Memory> {
    let mut view = copied(alloc)?;
    let _ = view.clean();
    Ok(view)
}

fn copied(alloc: Global) -> Result<View, Memory> {
    reading(alloc, &READING[..7])?.copy()
}

// The first of them, with the other merged into it.
fn merged(alloc: Global) -> Result<View, Memory> {
    let mut old = acked(alloc)?;
    let new = cleaned(alloc)?;
    old.merge(&new)?;
    Ok(old)
}

// The oldest and the newest version of two merged views, and what one entry of each is.
fn merged_entries(alloc: Global) -> Result<(u32, u32, Option<u32>, Option<u32>), Memory> {
    let view = merged(alloc)?;
    let ack = view.trackers().get(Which::Ack, 2);
    Ok((
        view.oldest(),
        view.newest(),
        ack,
        view.trackers().get(Which::SyncAck, 9),
    ))
}

#[test]
fn merged_views_start_at_the_greater_oldest(rt: HostRuntime) -> Result<(), Fail> {
    assert_eq!(rt; merged_entries(rt.alloc())?, (2, 3, Some(2), Some(3)));
    Ok(())
}
