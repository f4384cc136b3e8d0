//! Small layouts, as values; each number was worked out by hand.
ghost use Rattle.layout_roles.specs.Certificates.{IsRedundancy};

use crate::made::{AT_256, BELOW_256, EQUAL, GATEWAY, Row, TWO_ZONES, UNEQUAL, roles_of};
use crdt_core::Memory;
use layout_roles::Redundancy;
use layout_size::{LayoutFault, compute};
use std::alloc::Global;
use std::test::Fail;

// What is computed, or why nothing is.
#[derive(Clone, Copy, Debug, PartialEq, Eq)]
enum Outcome {
    // The redundancy, the size, and the weight of the cut for the next size.
    Layout(u8, u64, u32),
    TooFewNodes(u8),
    TooFewZones(u8, u8),
    // The weight of the cut for one byte.
    NoAssignment(u32),
}

// In at least so many zones, or in as many as there are.
fn wanted(r: u8) -> Redundancy
    ensures { IsRedundancy result }
{
    match r {
        1 => Redundancy::AtLeast(1),
        2 => Redundancy::AtLeast(2),
        3 => Redundancy::AtLeast(3),
        _ => Redundancy::Maximum,
    }
}

fn computed(alloc: Global, rows: &[Row], r: u8) -> Result<Outcome, Memory> {
    match compute(alloc, &roles_of(alloc, rows)?, wanted(r)) {
        Ok(certified) => Ok(Outcome::Layout(certified.r, certified.size, certified.cut.weight)),
        Err(LayoutFault::TooFewNodes(nodes)) => Ok(Outcome::TooFewNodes(nodes)),
        Err(LayoutFault::TooFewZones(zones, r)) => Ok(Outcome::TooFewZones(zones, r)),
        Err(LayoutFault::NoAssignment(cut)) => Ok(Outcome::NoAssignment(cut.weight)),
        Err(LayoutFault::Memory) => Err(Memory::Want),
    }
}

const MAXIMUM: u8 = 0;

const GATEWAY_IN_A_ZONE: [Row; 4] = [
    (1, b"a", 1000),
    (2, b"a", 1000),
    (3, b"b", 1000),
    (4, b"c", GATEWAY),
];

const TWO_NODES: [Row; 3] = [(1, b"a", 1000), (2, b"b", 1000), (3, b"c", GATEWAY)];

const LARGEST: [Row; 3] = [
    (1, b"a", u64::MAX),
    (2, b"a", u64::MAX),
    (3, b"a", u64::MAX),
];

#[test]
fn layouts_and_refusals(rt: HostRuntime) -> Result<(), Fail> {
    let rows: [(&[Row], u8, Outcome); 11] = [
        // 333 partitions of 3 bytes at each node, and 250 of 4.
        (&EQUAL, MAXIMUM, Outcome::Layout(3, 3, 750)),
        // 250 in a, 250 in b, and one copy of each partition in c.
        (&UNEQUAL, MAXIMUM, Outcome::Layout(3, 3, 756)),
        // Four times 150.
        (&TWO_ZONES, 2, Outcome::Layout(2, 1, 600)),
        (&TWO_ZONES, MAXIMUM, Outcome::Layout(2, 1, 600)),
        (&GATEWAY_IN_A_ZONE, 3, Outcome::TooFewZones(2, 3)),
        (&GATEWAY_IN_A_ZONE, MAXIMUM, Outcome::Layout(2, 3, 750)),
        (&TWO_NODES, 3, Outcome::TooFewNodes(2)),
        (&[], MAXIMUM, Outcome::TooFewNodes(0)),
        (&BELOW_256, MAXIMUM, Outcome::NoAssignment(765)),
        (&AT_256, MAXIMUM, Outcome::Layout(3, 1, 384)),
        // 2^56 - 1 bytes fit 256 times in 2^64 - 1, and 2^56 bytes 255 times.
        (
            &LARGEST,
            MAXIMUM,
            Outcome::Layout(1, 72_057_594_037_927_935, 765),
        ),
    ];
    for (rows, r, want) in rows {
        assert_eq!(rt; computed(rt.alloc(), rows, r)?, want);
    }
    Ok(())
}
