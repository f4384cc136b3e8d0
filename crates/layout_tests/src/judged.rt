//! Layouts that are handed in, judged; each number was worked out by hand.
use crate::made::{EQUAL, Row, TWO_ZONES, UNEQUAL, roles_of};
use crdt_core::Memory;
use layout_flow::{FlowOrCut, Network, Vertex};
use layout_judge::{fits, weight};
use std::alloc::Global;
use std::test::Fail;

// Whether sets that fit a size are found to fit it, and not the next one.
fn are_judged(alloc: Global, rows: &[Row], r: u8, size: u64) -> Result<bool, Memory> {
    if r < 1 || 3 < r || size < 1 || 1000 < size {
        return Err(Memory::Full);
    }
    let roles = roles_of(alloc, rows)?;
    let FlowOrCut::Flow(made) = Network::new(alloc, &roles, r, size)?.max_flow()? else {
        return Err(Memory::Full);
    };
    let sets = made.sets.as_slice();
    Ok(
        fits(&roles, r, size, sets)
            && !fits(&roles, r, size + 1, sets)
            && !fits(&roles, r, size, &sets[1..]),
    )
}

#[test]
fn sets_fit_their_size(rt: HostRuntime) -> Result<(), Fail> {
    let rows: [(&[Row], u8, u64); 3] = [(&EQUAL, 3, 3), (&UNEQUAL, 3, 3), (&TWO_ZONES, 2, 1)];
    for (rows, r, size) in rows {
        assert!(rt; are_judged(rt.alloc(), rows, r, size)?);
    }
    Ok(())
}

// What the printed cut for a size weighs, by the network and by its vertices alone.
fn weighed(alloc: Global, rows: &[Row], r: u8, size: u64) -> Result<(u64, Option<u64>), Memory> {
    if r < 1 || 3 < r || size < 1 {
        return Err(Memory::Full);
    }
    let roles = roles_of(alloc, rows)?;
    let FlowOrCut::Cut(cut) = Network::new(alloc, &roles, r, size)?.max_flow()? else {
        return Err(Memory::Full);
    };
    let judged = weight(alloc, &roles, r, size, cut.side.as_slice())?;
    Ok((u64::from(cut.weight), judged))
}

#[test]
fn cuts_weigh_what_they_are_said_to(rt: HostRuntime) -> Result<(), Fail> {
    assert_eq!(rt; weighed(rt.alloc(), &EQUAL, 3, 4)?, (750, Some(750)));
    assert_eq!(rt; weighed(rt.alloc(), &UNEQUAL, 3, 4)?, (756, Some(756)));
    assert_eq!(rt; weighed(rt.alloc(), &TWO_ZONES, 2, 2)?, (600, Some(600)));
    let roles = roles_of(rt.alloc(), &EQUAL)?;
    // The source alone: three copies of each partition; twice the same vertex is once.
    let source = [Vertex::Source, Vertex::Source];
    assert_eq!(rt; weight(rt.alloc(), &roles, 3, 4, &source)?, Some(768));
    // And what node 2 has room for.
    assert_eq!(rt;
        weight(rt.alloc(), &roles, 3, 4, &[Vertex::Source, Vertex::Node(2)])?,
        Some(1018)
    );
    assert_eq!(rt; weight(rt.alloc(), &roles, 3, 4, &[Vertex::Up(0)])?, None);
    assert_eq!(rt;
        weight(rt.alloc(), &roles, 3, 4, &[Vertex::Source, Vertex::Sink])?,
        None
    );
    Ok(())
}
