//! The vertices of a list that are the network's, each once and in order.
ghost use Rattle.std.specs.Prelude.{◌≡◌, ◌≤◌, ◌++◌, ◌∷◌, [], length, IfOk, OnOk};
ghost use Rattle.std.specs.List.{filter};
ghost use Rattle.crdt_core.specs.Outcomes.{OnlyWant};
ghost use Rattle.layout_roles.specs.Network.{vertices};
ghost use Rattle.side_model.specs.Sides.{set_of};
ghost use Rattle.layout_judge.specs.Places.{zone_vertices, front_vertices, all_fronts, node_vertices};

use crate::marks::Marked;
use crdt_core::{List, Memory};
use layout_flow::by_zone;
use layout_roles::{PARTITIONS, Role, Roles, Vertex};
use std::alloc::Global;

// Adds a vertex, where the side has it.
fn keep(kept: &mut List<Vertex>, side: &Marked<'_>, vertex: Vertex) -> Result<(), Memory>
    ensures ok { OnOk result (kept.new ≡ kept.old ++ filter (set_of side.now.vertices.now)
        (vertex ∷ [])) }
    ensures want { OnlyWant result }
{
    if side.has(vertex) {
        kept.push(vertex)?;
    }
    Ok(())
}

// Adds what the side has of a partition's zones.
fn keep_zones(
    kept: &mut List<Vertex>,
    side: &Marked<'_>,
    p: u8,
    zones: &[List<Role>],
) -> Result<(), Memory>
    requires few { length zones.now ≤ 256 }
    ensures ok { OnOk result (kept.new ≡ kept.old ++ filter (set_of side.now.vertices.now)
        (zone_vertices zones.now p)) }
    ensures want { OnlyWant result }
{
    for i in 0..zones.len() {
        keep(kept, side, Vertex::Zone(p, i as u8))?;
    }
    Ok(())
}

// Adds what the side has of a partition.
fn keep_partition(
    kept: &mut List<Vertex>,
    side: &Marked<'_>,
    p: u8,
    zones: &[List<Role>],
) -> Result<(), Memory>
    requires few { length zones.now ≤ 256 }
    ensures ok { OnOk result (kept.new ≡ kept.old ++ filter (set_of side.now.vertices.now)
        (front_vertices zones.now p)) }
    ensures want { OnlyWant result }
{
    keep(kept, side, Vertex::Up(p))?;
    keep(kept, side, Vertex::Down(p))?;
    keep_zones(kept, side, p, zones)
}

// Adds what the side has of all partitions.
fn keep_partitions(
    kept: &mut List<Vertex>,
    side: &Marked<'_>,
    zones: &[List<Role>],
) -> Result<(), Memory>
    requires few { length zones.now ≤ 256 }
    ensures ok { OnOk result (kept.new ≡ kept.old ++ filter (set_of side.now.vertices.now)
        (all_fronts zones.now)) }
    ensures want { OnlyWant result }
{
    for p in 0..PARTITIONS {
        keep_partition(kept, side, p as u8, zones)?;
    }
    Ok(())
}

// Adds the storage nodes that the side has.
fn keep_nodes(kept: &mut List<Vertex>, side: &Marked<'_>, roles: &[Role]) -> Result<(), Memory>
    ensures ok { OnOk result (kept.new ≡ kept.old ++ filter (set_of side.now.vertices.now)
        (node_vertices roles.now)) }
    ensures want { OnlyWant result }
{
    for role in roles {
        if role.is_storage() {
            keep(kept, side, Vertex::Node(role.node))?;
        }
    }
    Ok(())
}

/// The vertices of a list that the network of these roles has, each once and in order: the source, then by partitions,
/// then the nodes, as a printed cut names them.
pub fn listed(alloc: Global, roles: &Roles, side: &[Vertex]) -> Result<List<Vertex>, Memory>
    ensures listed { IfOk result
        (λ list. list ≡ filter (set_of side.now) (vertices roles.now.list)) }
    ensures want { OnlyWant result }
{
    let zones = by_zone(alloc, roles.list.as_slice())?;
    let side = Marked::new(side);
    let mut kept = List::new(alloc);
    keep(&mut kept, &side, Vertex::Source)?;
    keep_partitions(&mut kept, &side, zones.as_slice())?;
    keep_nodes(&mut kept, &side, roles.list.as_slice())?;
    keep(&mut kept, &side, Vertex::Sink)?;
    Ok(kept)
}
