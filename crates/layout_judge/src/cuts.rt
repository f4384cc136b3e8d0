//! What a cut weighs.
ghost use Rattle.std.specs.Prelude.{◌≡◌, ◌<◌, ◌≤◌, ◌-◌, ◌^◌, ◌↔◌, ◌&&◌, ◌∷◌, [], not, cond, min, length, map, IsSome, IfSome, IfOk};
ghost use Rattle.std.specs.List.{flat_map, enumerate_from, range_with_len};
ghost use Rattle.crdt_core.specs.Outcomes.{OnlyWant};
ghost use Rattle.layout_roles.specs.Zones.{storage_nodes};
ghost use Rattle.layout_roles.specs.declared.vertex.Vertex.TheVariants.{Source, Sink};
ghost use Rattle.layout_roles.specs.Network.{edge, zone_edges, node_edge, network};
ghost use Rattle.layout_roles.specs.Cuts.{IsCut, leaves, weight};
ghost use Rattle.side_model.specs.Sides.{set_of};
ghost use Rattle.layout_judge.specs.Weights.{at_most, front_edges};

use crate::marks::Marked;
use crdt_core::{List, Memory};
use layout_flow::by_zone;
use layout_roles::{PARTITIONS, Role, Roles, Vertex};
use std::alloc::Global;

// What an edge adds to the weight: its capacity, where it leaves the side.
fn leaving(side: &Marked<'_>, from: Vertex, to: Vertex, capacity: u64) -> u64
    ensures { result ≡ cond (leaves (set_of side.now.vertices.now)
        (edge from to capacity)) capacity 0 }
{
    if side.has(from) && !side.has(to) {
        capacity
    } else {
        0
    }
}

// What the edges of a partition to and from a zone add.
fn zone_weight(side: &Marked<'_>, r: u8, p: u8, number: u8, zone: &[Role]) -> u64
    requires { r ≤ 3 }
    ensures { result ≡ at_most (weight (zone_edges r p (number, zone.now))
        (set_of side.now.vertices.now)) }
{
    let at = Vertex::Zone(p, number);
    let up = leaving(side, Vertex::Up(p), at, 1);
    let down = leaving(side, Vertex::Down(p), at, u64::from(3 - r));
    let mut total = up.saturating_add(down);
    for role in zone {
        total = total.saturating_add(leaving(side, at, Vertex::Node(role.node), 1));
    }
    total
}

// What the edges of a partition add.
fn partition_weight(side: &Marked<'_>, r: u8, p: u8, zones: &[List<Role>]) -> u64
    requires high { r ≤ 3 }
    requires few { length zones.now ≤ 256 }
    ensures { result ≡ at_most (weight (front_edges r p zones.now) (set_of side.now.vertices.now)) }
{
    let up = leaving(side, Vertex::Source, Vertex::Up(p), u64::from(r));
    let down = leaving(side, Vertex::Source, Vertex::Down(p), u64::from(3 - r));
    let mut total = up.saturating_add(down);
    for (i, zone) in zones.iter().enumerate() {
        total = total.saturating_add(zone_weight(side, r, p, i as u8, zone.as_slice()));
    }
    total
}

// What the edges of all partitions add.
fn front_weight(side: &Marked<'_>, r: u8, zones: &[List<Role>]) -> u64
    requires high { r ≤ 3 }
    requires few { length zones.now ≤ 256 }
    ensures { result ≡ at_most (weight (flat_map
        (λ p. front_edges r p zones.now) (range_with_len 0 256)) (set_of side.now.vertices.now)) }
{
    let mut total = 0u64;
    for p in 0..PARTITIONS {
        total = total.saturating_add(partition_weight(side, r, p as u8, zones));
    }
    total
}

// What the edges on which copies end add.
fn node_weight(side: &Marked<'_>, size: u64, roles: &[Role]) -> u64
    requires { 0 < size }
    ensures { result ≡ at_most (weight (map (node_edge size) (storage_nodes roles.now))
        (set_of side.now.vertices.now)) }
{
    let mut total = 0u64;
    for role in roles {
        if role.is_storage() {
            let room = leaving(side, Vertex::Node(role.node), Vertex::Sink, role.room(size));
            total = total.saturating_add(room);
        }
    }
    total
}

// Whether the vertices are a cut.
fn is_cut(side: &Marked<'_>) -> bool
    ensures { result ≡ (set_of side.now.vertices.now Source && not
        (set_of side.now.vertices.now Sink)) }
{
    side.has(Vertex::Source) && !side.has(Vertex::Sink)
}

/// What the cut of these vertices weighs in the network of the roles, the redundancy and the partition size in bytes, or
/// 2^64 - 1 where it weighs more; none where they are no cut.
pub fn weight(
    alloc: Global,
    roles: &Roles,
    r: u8,
    size: u64,
    side: &[Vertex],
) -> Result<Option<u64>, Memory>
    requires high { r ≤ 3 }
    requires some { 0 < size }
    ensures cut { IfOk result (λ found. IsSome found ↔ IsCut (set_of side.now)) }
    ensures weight { IfOk result
        (λ found. IfSome found (λ w. w ≡ min (weight (network roles.now.list r size)
        (set_of side.now)) (2 ^ 64 - 1))) }
    ensures want { OnlyWant result }
{
    let zones = by_zone(alloc, roles.list.as_slice())?;
    let side = Marked::new(side);
    if !is_cut(&side) {
        return Ok(None);
    }
    let front = front_weight(&side, r, zones.as_slice());
    let nodes = node_weight(&side, size, roles.list.as_slice());
    Ok(Some(front.saturating_add(nodes)))
}
