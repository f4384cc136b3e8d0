//! The potentials of prices, as a list.
ghost use Rattle.std.specs.Prelude.{◌≡◌, ℕ, pos, ◌-ℤ◌, ◌+◌, ◌<◌, ◌≤◌, ◌^◌, ◌++◌, length, IfOk, OnOk};
ghost use Rattle.std.specs.List.{filter};
ghost use Rattle.crdt_core.specs.Outcomes.{OnlyWant};
ghost use Rattle.layout_roles.specs.Zones.{zones};
ghost use Rattle.layout_roles.specs.Fits.{set_at};
ghost use Rattle.layout_moves.specs.Prices.{lies, asked, dearest, level, potential};
ghost use Rattle.layout_moves.specs.Listing.{partition_listing, node_listing, listing};

use crate::offers::{asked_by, price_of};
use crate::sets::{kept_in, lies_in};
use crdt_core::{List, Memory};
use layout_flow::Vertex;
use layout_roles::{PARTITIONS, Role, Roles};
use std::alloc::Global;

// What the dearest node of a set asks.
fn dearest_of(set: &[u8; 3], old: &[u8; 3], prices: &[u32]) -> u64
    ensures dearest { result ≡ dearest (asked 1 old.now prices.now) set.now }
    ensures small { result < 2 ^ 33 }
{
    let mut most = 0;
    for node in set {
        most = asked_by(1, old, prices, *node).max(most);
    }
    most
}

// What the dearest node of a set asks that lies in a zone.
fn dearest_in(zone: &[Role], set: &[u8; 3], old: &[u8; 3], prices: &[u32]) -> u64
    ensures dearest { result ≡ dearest (asked 1 old.now prices.now)
        (filter (lies zone.now) set.now) }
    ensures small { result < 2 ^ 33 }
{
    let mut most = 0;
    for node in set {
        if lies_in(zone, *node) {
            most = asked_by(1, old, prices, *node).max(most);
        }
    }
    most
}

// What a zone has to ask.
fn level_of(zone: &[Role], each: u8, set: &[u8; 3], old: &[u8; 3], prices: &[u32]) -> u64
    ensures level { result ≡ level each (asked 1 old.now prices.now) set.now zone.now }
    ensures small { result < 2 ^ 33 }
{
    if kept_in(set, zone) < usize::from(each) {
        dearest_of(set, old, prices)
    } else {
        dearest_in(zone, set, old, prices)
    }
}

/// What the dearest node of all sets asks.
pub fn top_of(sets: &[[u8; 3]], old: &[[u8; 3]], prices: &[u32]) -> u64
    requires { length old.now ≡ length sets.now }
    ensures topped { (p : ℕ) → p < length sets.now →
        dearest (asked 1 (set_at old.now p) prices.now) (set_at sets.now p) ≤ result }
    ensures small { result < 2 ^ 33 }
{
    let mut top = 0;
    for p in 0..sets.len() {
        top = dearest_of(&sets[p], &old[p], prices).max(top);
    }
    top
}

// A potential that lies below the top by a price.
fn below(top: u64, price: u64) -> i64
    requires top { top < 2 ^ 33 }
    requires price { price < 2 ^ 33 }
    ensures { result ≡ pos top -ℤ pos price }
{
    top as i64 - price as i64
}

// Adds the potentials of a partition's vertices.
fn add_partition(
    list: &mut List<(Vertex, i64)>,
    roles: &Roles,
    groups: &[List<Role>],
    each: u8,
    old: &[[u8; 3]],
    sets: &[[u8; 3]],
    prices: &[u32],
    top: u64,
    p: u8,
) -> Result<(), Memory>
    requires grouped { groups.now ≡ zones roles.now.list }
    requires few { length groups.now ≤ 256 }
    requires sets { length sets.now ≡ 256 }
    requires old { length old.now ≡ 256 }
    requires top { top < 2 ^ 33 }
    ensures ok { OnOk result (list.new ≡ list.old ++ partition_listing
        (potential roles.now.list each old.now sets.now prices.now top) roles.now.list p) }
    ensures want { OnlyWant result }
{
    let set = &sets[usize::from(p)];
    let old = &old[usize::from(p)];
    let partition = below(top, dearest_of(set, old, prices));
    list.push((Vertex::Up(p), partition))?;
    list.push((Vertex::Down(p), partition))?;
    for (i, zone) in groups.iter().enumerate() {
        let level = level_of(zone.as_slice(), each, set, old, prices);
        list.push((Vertex::Zone(p, i as u8), below(top, level)))?;
    }
    Ok(())
}

// Adds the potentials of the storage nodes.
fn add_nodes(
    list: &mut List<(Vertex, i64)>,
    roles: &Roles,
    each: u8,
    old: &[[u8; 3]],
    sets: &[[u8; 3]],
    prices: &[u32],
    top: u64,
) -> Result<(), Memory>
    requires top { top < 2 ^ 33 }
    ensures ok { OnOk result (list.new ≡ list.old ++ node_listing
        (potential roles.now.list each old.now sets.now prices.now top) roles.now.list) }
    ensures want { OnlyWant result }
{
    for role in roles.list.as_slice() {
        if role.is_storage() {
            let price = price_of(prices, role.node);
            list.push((Vertex::Node(role.node), below(top, price)))?;
        }
    }
    Ok(())
}

/// The potentials of prices: those of each partition's vertices, of the nodes and of the sink.
pub fn potentials_of(
    alloc: Global,
    roles: &Roles,
    groups: &[List<Role>],
    each: u8,
    old: &[[u8; 3]],
    sets: &[[u8; 3]],
    prices: &[u32],
    top: u64,
) -> Result<List<(Vertex, i64)>, Memory>
    requires grouped { groups.now ≡ zones roles.now.list }
    requires few { length groups.now ≤ 256 }
    requires sets { length sets.now ≡ 256 }
    requires old { length old.now ≡ 256 }
    requires top { top < 2 ^ 33 }
    ensures listed { IfOk result
        (λ list. list ≡ listing 256
        (potential roles.now.list each old.now sets.now prices.now top) roles.now.list) }
    ensures want { OnlyWant result }
{
    let mut list = List::new(alloc);
    for p in 0..PARTITIONS {
        add_partition(
            &mut list, roles, groups, each, old, sets, prices, top, p as u8,
        )?;
    }
    add_nodes(&mut list, roles, each, old, sets, prices, top)?;
    list.push((Vertex::Sink, below(top, 0)))?;
    Ok(list)
}
