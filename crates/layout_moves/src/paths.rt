//! Shortest paths on which copies could move on from node to node.
ghost use Rattle.std.specs.Prelude.{◌≡◌, length};

use crate::auction::FEE;
use crate::offers::asked_by;
use crate::sets::has;
use crdt_core::List;
use layout_roles::Role;

/// One more than the greatest number of a node.
pub const NODES: usize = 65;

// The zone of a node that has none.
const NO_ZONE: u8 = 255;

/// The cheapest way found so far on which a copy could come to a node.
#[derive(Clone, Copy, Debug)]
pub struct Way {
    /// How much more the nodes on the way ask, added up.
    pub cost: u64,
    /// Of how many moves it is.
    pub hops: u64,
    /// The node from which the last copy comes.
    pub from: u8,
    /// The partition of that copy.
    pub partition: usize,
    /// No cheaper way will be found.
    pub settled: bool,
}

/// The ways to all nodes, none where none was found.
pub type Ways = [Option<Way>; NODES];

/// The number of each node's zone.
pub fn zones_of(groups: &[List<Role>]) -> [u8; NODES] {
    let mut zones = [NO_ZONE; NODES];
    for (i, zone) in groups.iter().enumerate() {
        number_zone(
            &mut zones,
            zone.as_slice(),
            i.min(usize::from(NO_ZONE)) as u8,
        );
    }
    zones
}

// Gives the nodes of a zone its number.
fn number_zone(zones: &mut [u8; NODES], zone: &[Role], number: u8) {
    for role in zone {
        if let Some(place) = zones.get_mut(usize::from(role.node)) {
            *place = number;
        }
    }
}

fn zone_of(zones: &[u8; NODES], node: u8) -> u8 {
    match zones.get(usize::from(node)) {
        Some(zone) => *zone,
        None => NO_ZONE,
    }
}

// Whether a copy at one node of a set could go to another: their zone is one, or the other's has fewer than it may.
fn could_go(zones: &[u8; NODES], each: u8, set: &[u8; 3], out: u8, new: u8) -> bool {
    let zone = zone_of(zones, new);
    if zone_of(zones, out) == zone {
        return true;
    }
    let mut kept = 0u8;
    for node in set {
        if zone_of(zones, *node) == zone {
            kept = kept.saturating_add(1);
        }
    }
    kept < each
}

/// The way to a node.
pub fn way_to(ways: &Ways, node: u8) -> Option<Way> {
    match ways.get(usize::from(node)) {
        Some(way) => *way,
        None => None,
    }
}

fn is_before(way: &Way, other: &Way) -> bool {
    way.cost < other.cost || way.cost == other.cost && way.hops < other.hops
}

// Keeps a way where it is the first to its node, or better than the one so far.
fn keep_better(ways: &mut Ways, node: u8, way: Way) {
    if let Some(place) = ways.get_mut(usize::from(node)) {
        match place {
            Some(known) if known.settled || !is_before(&way, known) => {}
            _ => *place = Some(way),
        }
    }
}

// The ways that go on from a node by a copy of one partition.
fn extend_by(
    ways: &mut Ways,
    roles: &[Role],
    zones: &[u8; NODES],
    each: u8,
    old: &[u8; 3],
    set: &[u8; 3],
    prices: &[u32],
    partition: usize,
    node: u8,
    way: Way,
) {
    let asked = asked_by(FEE, old, prices, node);
    for role in roles {
        if role.is_storage()
            && !has(set, role.node)
            && could_go(zones, each, set, node, role.node)
        {
            let more = asked_by(FEE, old, prices, role.node).saturating_sub(asked);
            let next = Way {
                cost: way.cost.saturating_add(more),
                hops: way.hops.saturating_add(1),
                from: node,
                partition,
                settled: false,
            };
            keep_better(ways, role.node, next);
        }
    }
}

// The ways that go on from a node.
fn extend(
    ways: &mut Ways,
    roles: &[Role],
    zones: &[u8; NODES],
    each: u8,
    old: &[[u8; 3]],
    sets: &[[u8; 3]],
    prices: &[u32],
    node: u8,
    way: Way,
)
    requires { length old.now ≡ length sets.now }
{
    for p in 0..sets.len() {
        if has(&sets[p], node) {
            extend_by(
                ways, roles, zones, each, &old[p], &sets[p], prices, p, node, way,
            );
        }
    }
}

// The nearest node to which a cheaper way could still be found.
fn nearest(ways: &Ways) -> Option<(u8, Way)> {
    let mut best: Option<(u8, Way)> = None;
    for (node, place) in ways.iter().enumerate() {
        if let Some(way) = place {
            let closer = match &best {
                Some((_, other)) => is_before(way, other),
                None => true,
            };
            if !way.settled && closer {
                best = Some((node.min(NODES) as u8, *way));
            }
        }
    }
    best
}

fn settle(ways: &mut Ways, node: u8, way: Way) {
    if let Some(place) = ways.get_mut(usize::from(node)) {
        *place = Some(Way {
            settled: true,
            ..way
        });
    }
}

/// Finds the ways from a node to those that are at most as far as the nearest that has room, and answers that one.
pub fn ways_from(
    ways: &mut Ways,
    roles: &[Role],
    zones: &[u8; NODES],
    each: u8,
    old: &[[u8; 3]],
    sets: &[[u8; 3]],
    prices: &[u32],
    has_room: &[bool; NODES],
    start: u8,
) -> Option<(u8, Way)>
    requires { length old.now ≡ length sets.now }
{
    let first = Way {
        cost: 0,
        hops: 0,
        from: start,
        partition: 0,
        settled: false,
    };
    keep_better(ways, start, first);
    for _ in 0..NODES {
        let (node, way) = nearest(ways)?;
        if has_room.get(usize::from(node)) == Some(&true) {
            return Some((node, way));
        }
        settle(ways, node, way);
        extend(ways, roles, zones, each, old, sets, prices, node, way);
    }
    None
}
