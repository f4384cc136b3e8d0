//! The fewest moves between layouts of few nodes; each number was worked out by hand.
ghost use Rattle.std.specs.Prelude.{◌<◌};

use crdt_core::{Bytes, List, Memory};
use layout_flow::{FlowOrCut, Network};
use layout_moves::{MoveFault, fewest};
use layout_roles::{Assignment, Kind, Role, Roles, Zone};
use std::alloc::Global;

// In how many zones each set lies.
const ZONES: u8 = 3;

// The roles of storage nodes: each with its zone and its capacity in bytes.
fn roles_of(alloc: Global, rows: &[(u8, &[u8], u64)]) -> Result<Option<Roles>, Memory> {
    let mut list = List::new(alloc);
    for (node, zone, capacity) in rows {
        list.push(Role {
            node: *node,
            zone: Zone(Bytes::from_slice(alloc, zone)?),
            kind: Kind::Storage(*capacity),
        })?;
    }
    Ok(Roles::from_list(list))
}

// Some assignment of the size.
fn assignment_of(alloc: Global, roles: &Roles, size: u64) -> Result<Option<Assignment>, Memory>
    requires { 0 < size }
{
    match Network::new(alloc, roles, ZONES, size)?.max_flow()? {
        FlowOrCut::Flow(assignment) => Ok(Some(assignment)),
        FlowOrCut::Cut(_) => Ok(None),
    }
}

// What a change of roles answers.
#[derive(Clone, Copy, Debug, PartialEq, Eq)]
enum Change {
    Moves(u32),
    NoAssignment,
    BadRows,
}

// Some assignment of the size to these roles; none where they are not in order, or none fits.
fn sets_of(
    alloc: Global,
    rows: &[(u8, &[u8], u64)],
    size: u64,
) -> Result<Option<Assignment>, Memory>
    requires { 0 < size }
{
    match roles_of(alloc, rows)? {
        Some(roles) => assignment_of(alloc, &roles, size),
        None => Ok(None),
    }
}

// The fewest moves from the sets to an assignment of these roles.
fn moves_to(roles: &Roles, size: u64, sets: &Assignment) -> Result<Change, Memory>
    requires { 0 < size }
{
    match fewest(roles, ZONES, size, sets) {
        Ok(moved) => Ok(Change::Moves(moved.moves)),
        Err(MoveFault::NoAssignment(_)) => Ok(Change::NoAssignment),
        Err(MoveFault::Memory) => Err(Memory::Want),
    }
}

// The fewest moves from an assignment of the old roles to one of the new roles, both of the size.
fn moves_between(
    alloc: Global,
    old: &[(u8, &[u8], u64)],
    new: &[(u8, &[u8], u64)],
    size: u64,
) -> Result<Change, Memory>
    requires { 0 < size }
{
    let Some(sets) = sets_of(alloc, old, size)? else {
        return Ok(Change::BadRows)
    };
    match roles_of(alloc, new)? {
        Some(roles) => moves_to(&roles, size, &sets),
        None => Ok(Change::BadRows),
    }
}

// Three nodes of equal capacity in three zones, which keep every partition.
const TRIO: [(u8, &[u8], u64); 3] = [(1, b"a", 1000), (2, b"b", 1000), (3, b"c", 1000)];

#[test]
fn nothing_moves_where_nothing_changes(rt: HostRuntime) {
    assert!(rt; moves_between(rt.alloc(), &TRIO, &TRIO, 3) == Ok(Change::Moves(0)));
}

// Node 4 takes the place of node 3, and each of the 256 copies of node 3.
#[test]
fn one_node_replaced(rt: HostRuntime) {
    let new: [(u8, &[u8], u64); 3] = [(1, b"a", 1000), (2, b"b", 1000), (4, b"c", 1000)];
    assert!(rt; moves_between(rt.alloc(), &TRIO, &new, 3) == Ok(Change::Moves(256)));
}

// Node 3 has room for 166 partitions of 3 bytes, so 90 of its 256 copies move.
#[test]
fn capacity_forces_moves(rt: HostRuntime) {
    let new: [(u8, &[u8], u64); 4] = [
        (1, b"a", 1000),
        (2, b"b", 1000),
        (3, b"c", 500),
        (4, b"c", 500),
    ];
    assert!(rt; moves_between(rt.alloc(), &TRIO, &new, 3) == Ok(Change::Moves(90)));
}

// A node of 500 bytes alone in its zone has no room for 256 partitions of 3 bytes.
#[test]
fn no_assignment_fits(rt: HostRuntime) {
    let new: [(u8, &[u8], u64); 3] = [(1, b"a", 1000), (2, b"b", 1000), (3, b"c", 500)];
    assert!(rt; moves_between(rt.alloc(), &TRIO, &new, 3) == Ok(Change::NoAssignment));
}
