//! The source's side of the printed cut.
ghost use Rattle.std.specs.Prelude.{◌≡◌, ◌<◌, ◌≤◌, ◌*◌, ◌++◌, ◌&&◌, ◌==◌, nat_lt, length, IfOk, OnOk};
ghost use Rattle.std.specs.List.{list_any};
ghost use Rattle.crdt_core.specs.Outcomes.{OnlyWant};
ghost use Rattle.layout_roles.specs.Fits.{room};
ghost use Rattle.layout_flow.specs.Closed.{zone_is_held, node_is_held, held_zones, held_in, held_in_all, held_nodes, held_list};

use crate::totals::copies_of_zone;
use crdt_core::{List, Memory};
use layout_roles::{PARTITIONS, Role, Vertex};
use std::alloc::Global;

// Whether keeping a zone out of the side would cost strictly more, where so many copies of each partition
// flow to a zone that is kept out.
fn holds_zone(zone: &[Role], size: u64, each: u8) -> bool
    requires some { 0 < size }
    requires few { each ≤ 3 }
    ensures { result ≡ zone_is_held 256 size each zone.now }
{
    copies_of_zone(zone, size) < u64::from(each) * u64::from(PARTITIONS)
}

// Whether the node is one of the zone's, and has room for fewer than all partitions.
fn has_little_room(zone: &[Role], size: u64, node: u8) -> bool
    requires { 0 < size }
    ensures { result ≡ list_any
        (λ role. (role.node == node) && nat_lt (room size role) 256) zone.now }
{
    zone.iter().any(|role| role.node == node && role.room(size) < u64::from(PARTITIONS))
}

// Whether the node is one of the zone's, and keeping it out of the side would cost strictly more.
fn holds_in_zone(zone: &[Role], size: u64, each: u8, node: u8) -> bool
    requires some { 0 < size }
    requires few { each ≤ 3 }
    ensures { result ≡ node_is_held 256 size each node zone.now }
{
    holds_zone(zone, size, each) && has_little_room(zone, size, node)
}

// Whether keeping a node out of the side would cost strictly more.
fn holds_node(zones: &[List<Role>], size: u64, each: u8, node: u8) -> bool
    requires some { 0 < size }
    requires few { each ≤ 3 }
    ensures { result ≡ list_any (node_is_held 256 size each node) zones.now }
{
    zones
        .iter()
        .any(|zone| holds_in_zone(zone.as_slice(), size, each, node))
}

// The numbers of the zones that the side has.
fn zones_held(alloc: Global, zones: &[List<Role>], size: u64, each: u8) -> Result<List<u8>, Memory>
    requires some { 0 < size }
    requires few { each ≤ 3 }
    requires numbered { length zones.now ≤ 256 }
    ensures numbers { IfOk result (λ numbers. numbers ≡ held_zones 256 size each zones.now) }
    ensures want { OnlyWant result }
{
    let mut numbers = List::new(alloc);
    for (i, zone) in zones.iter().enumerate() {
        if holds_zone(zone.as_slice(), size, each) {
            numbers.push(i as u8)?;
        }
    }
    Ok(numbers)
}

// Adds what the side has of a partition.
fn add_partition(side: &mut List<Vertex>, down: bool, zones: &[u8], p: u8) -> Result<(), Memory>
    ensures ok { OnOk result (side.new ≡ side.old ++ held_in down zones.now p) }
    ensures want { OnlyWant result }
{
    side.push(Vertex::Up(p))?;
    if down {
        side.push(Vertex::Down(p))?;
    }
    for zone in zones {
        side.push(Vertex::Zone(p, *zone))?;
    }
    Ok(())
}

// Adds what the side has of so many partitions.
fn add_partitions(
    side: &mut List<Vertex>,
    down: bool,
    zones: &[u8],
    count: u16,
) -> Result<(), Memory>
    requires { count ≤ 256 }
    ensures ok { OnOk result (side.new ≡ side.old ++ held_in_all count down zones.now) }
    ensures want { OnlyWant result }
{
    for p in 0..count {
        add_partition(side, down, zones, p as u8)?;
    }
    Ok(())
}

// Adds the nodes that the side has.
fn add_nodes(
    side: &mut List<Vertex>,
    zones: &[List<Role>],
    roles: &[Role],
    size: u64,
    each: u8,
) -> Result<(), Memory>
    requires some { 0 < size }
    requires few { each ≤ 3 }
    ensures ok { OnOk result (side.new ≡ side.old ++ held_nodes 256 size each zones.now roles.now) }
    ensures want { OnlyWant result }
{
    for role in roles {
        if role.is_storage() && holds_node(zones, size, each, role.node) {
            side.push(Vertex::Node(role.node))?;
        }
    }
    Ok(())
}

/// The source's side of the cut that is the same in each partition, where so many copies of each
/// partition flow to a zone that is kept out.
pub fn side_of(
    alloc: Global,
    zones: &[List<Role>],
    roles: &[Role],
    size: u64,
    each: u8,
    down: bool,
) -> Result<List<Vertex>, Memory>
    requires some { 0 < size }
    requires few { each ≤ 3 }
    requires numbered { length zones.now ≤ 256 }
    ensures side { IfOk result (λ side. side ≡ held_list 256 size each down zones.now roles.now) }
    ensures want { OnlyWant result }
{
    let numbers = zones_held(alloc, zones, size, each)?;
    let mut side = List::new(alloc);
    side.push(Vertex::Source)?;
    add_partitions(&mut side, down, numbers.as_slice(), PARTITIONS)?;
    add_nodes(&mut side, zones, roles, size, each)?;
    Ok(side)
}
