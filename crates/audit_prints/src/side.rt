//! The vertices on a cut's side that lines print.
ghost use Rattle.std.specs.Prelude.{◌≡◌, ◌<◌, ◌≤◌, ◌+◌, ◌∷◌, ◌++◌, [], cond, List, length, map, IfSome, IfOk, OnOk};
ghost use Rattle.std.specs.List.{flat_map, range_with_len};
ghost use Rattle.crdt_core.specs.Outcomes.{OnlyWant};
ghost use Rattle.layout_roles.specs.declared.vertex.Vertex.TheVariants.{Source, Node};
ghost use Rattle.audit_model.specs.declared.said.Said.{Said as SaidLine};
ghost use Rattle.audit_model.specs.Printed.{zone_at, named_vertices, partitions_to, nodes_among, side_in};
ghost use Rattle.audit_prints.specs.Sides.{zone_numbers, partition_part};

use audit_model::Said;
use crdt_core::{Bytes, List, Memory};
use layout_roles::Vertex;
use std::alloc::Global;

// The number of a zone by its name.
fn zone_at(names: &[Bytes], name: &Bytes) -> Option<usize>
    ensures zone { result ≡ zone_at names.now name.now }
    ensures within { IfSome result (λ i. i < length names.now) }
{
    names.iter().position(|other| *name == *other)
}

// The numbers of the zones with these names, of those that there are.
fn zone_numbers(alloc: Global, names: &[Bytes], zones: &[Bytes]) -> Result<List<u8>, Memory>
    requires { length names.now ≤ 256 }
    ensures numbers { IfOk result (λ numbers. numbers ≡ zone_numbers names.now zones.now) }
    ensures want { OnlyWant result }
{
    let mut numbers = List::new(alloc);
    for name in zones {
        if let Some(number) = zone_at(names, name) {
            numbers.push(number as u8)?;
        }
    }
    Ok(numbers)
}

fn add_halves(side: &mut List<Vertex>, p: u8, up: bool, down: bool) -> Result<(), Memory>
    ensures ok { OnOk result (side.new ≡ side.old ++ partition_part up down [] p) }
    ensures want { OnlyWant result }
{
    if up {
        side.push(Vertex::Up(p))?;
    }
    if down {
        side.push(Vertex::Down(p))?;
    }
    Ok(())
}

// Adds the vertices of a partition.
fn add_partition(
    side: &mut List<Vertex>,
    p: u8,
    up: bool,
    down: bool,
    zones: &[u8],
) -> Result<(), Memory>
    ensures ok { OnOk result (side.new ≡ side.old ++ partition_part up down zones.now p) }
    ensures want { OnlyWant result }
{
    add_halves(side, p, up, down)?;
    for zone in zones {
        side.push(Vertex::Zone(p, *zone))?;
    }
    Ok(())
}

// Adds those of so many partitions.
fn add_partitions(
    side: &mut List<Vertex>,
    first: u64,
    count: u64,
    up: bool,
    down: bool,
    zones: &[u8],
) -> Result<(), Memory>
    requires { first + count ≤ 256 }
    ensures ok { OnOk result (side.new ≡ side.old ++ flat_map (partition_part up down zones.now)
        (range_with_len first count)) }
    ensures want { OnlyWant result }
{
    for k in 0..count {
        add_partition(side, (first + k) as u8, up, down, zones)?;
    }
    Ok(())
}

// Adds those of a line, whose zones have these names.
fn add_side(
    side: &mut List<Vertex>,
    names: &[Bytes],
    first: u64,
    last: u64,
    up: bool,
    down: bool,
    zones: &List<Bytes>,
) -> Result<(), Memory>
    requires { length names.now ≤ 256 }
    ensures ok { OnOk result (side.new ≡ side.old ++ flat_map
        (named_vertices names.now up down zones.now) (partitions_to first last)) }
    ensures want { OnlyWant result }
{
    if 255 < last || last < first {
        return Ok(());
    }
    let numbers = zone_numbers(side.allocator(), names, zones.as_slice())?;
    let count = last + 1 - first;
    add_partitions(side, first, count, up, down, numbers.as_slice())
}

// Adds the nodes of these numbers.
fn add_nodes(side: &mut List<Vertex>, nodes: &[u64]) -> Result<(), Memory>
    ensures ok { OnOk result (side.new ≡ side.old ++ map Node (nodes_among nodes.now)) }
    ensures want { OnlyWant result }
{
    for node in nodes {
        if *node <= 64 {
            side.push(Vertex::Node(*node as u8))?;
        }
    }
    Ok(())
}

// Adds the vertices of a line, and answers whether those of later lines count too.
fn add_line(side: &mut List<Vertex>, names: &[Bytes], said: &Said) -> Result<bool, Memory>
    requires { length names.now ≤ 256 }
    ensures more { IfOk result (λ more. (rest : List SaidLine) →
        side.old ++ side_in names.now (said.now ∷ rest) ≡ side.new ++ cond more (side_in names.now rest) []) }
    ensures want { OnlyWant result }
{
    match said {
        Said::Side {
            first,
            last,
            up,
            down,
            zones,
        } => {
            add_side(side, names, *first, *last, *up, *down, zones)?;
            Ok(true)
        }
        Said::Nodes(nodes) => {
            add_nodes(side, nodes.as_slice())?;
            Ok(false)
        }
        _ => Ok(true),
    }
}

/// The source, and the vertices on its side that the lines name.
pub fn side_of(alloc: Global, names: &[Bytes], saids: &[Said]) -> Result<List<Vertex>, Memory>
    requires { length names.now ≤ 256 }
    ensures side { IfOk result (λ side. side ≡ Source ∷ side_in names.now saids.now) }
    ensures want { OnlyWant result }
{
    let mut side = List::new(alloc);
    side.push(Vertex::Source)?;
    for said in saids {
        if !add_line(&mut side, names, said)? {
            return Ok(side);
        }
    }
    Ok(side)
}
