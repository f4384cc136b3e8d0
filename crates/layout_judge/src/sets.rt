//! Whether the sets of an assignment fit.
ghost use Rattle.std.specs.Prelude.{◌≡◌, ◌↔◌, ◌<◌, ◌&&◌, not, length, take, IsTrue};
ghost use Rattle.std.specs.List.{list_all, list_any};
ghost use Rattle.layout_roles.specs.Zones.{is_storage, name_of, is_in_zone};
ghost use Rattle.layout_roles.specs.Fits.{has_node, zones_of, load, Fits};
ghost use Rattle.layout_judge.specs.Tests.{is_stored, are_apart, is_three, is_spread, has_room, passes};

use layout_roles::{PARTITIONS, Role, Roles};

// Whether a set has a node.
fn has(set: &[u8; 3], node: u8) -> bool
    ensures { result ≡ has_node node set.now }
{
    set.iter().any(|other| node == *other)
}

// Whether a node has a role with capacity.
fn is_stored(roles: &[Role], node: u8) -> bool
    ensures { result ≡ is_stored roles.now node }
{
    roles
        .iter()
        .any(|role| role.is_storage() && role.node == node)
}

// Whether the three nodes of a set differ.
fn are_apart(set: &[u8; 3]) -> bool
    ensures { result ≡ are_apart set.now }
{
    let [first, second, third] = *set;
    first != second && first != third && second != third
}

fn are_stored(roles: &[Role], set: &[u8; 3]) -> bool
    ensures { result ≡ list_all (is_stored roles.now) set.now }
{
    set.iter().all(|node| is_stored(roles, *node))
}

// Whether these are three different storage nodes.
fn is_three(roles: &[Role], set: &[u8; 3]) -> bool
    ensures { result ≡ is_three roles.now set.now }
{
    are_apart(set) && are_stored(roles, set)
}

// Whether a storage node of the set lies in the role's zone.
fn has_zone(roles: &[Role], set: &[u8; 3], role: &Role) -> bool
    ensures { result ≡ list_any
        (λ other. has_node other.node set.now &&
        (is_storage other && is_in_zone (name_of role.now) other)) roles.now }
{
    roles.iter().any(|other| {
        has(set, other.node) && other.is_storage() && other.zone.0 == role.zone.0
    })
}

// Whether this is a storage node of the set, and none before the place is one in its zone.
fn opens_zone(roles: &[Role], place: usize, set: &[u8; 3], role: &Role) -> bool
    requires { place < length roles.now }
    ensures { result ≡ (has_node role.now.node set.now && (is_storage role.now
        && not (list_any (λ other. has_node other.node set.now && (is_storage other && is_in_zone (name_of role.now) other)) (take place roles.now)))) }
{
    has(set, role.node) && role.is_storage() && !has_zone(&roles[..place], set, role)
}

// In how many zones the nodes of a set lie.
fn zone_count(roles: &[Role], set: &[u8; 3]) -> usize
    ensures { result ≡ length (zones_of roles.now set.now) }
{
    let mut count = 0;
    for (i, role) in roles.iter().enumerate() {
        if opens_zone(roles, i, set, role) {
            count += 1;
        }
    }
    count
}

// Whether these are three different storage nodes, in at least r zones.
fn is_spread(roles: &[Role], r: u8, set: &[u8; 3]) -> bool
    ensures { result ≡ is_spread roles.now r set.now }
{
    is_three(roles, set) && usize::from(r) <= zone_count(roles, set)
}

// How many partitions a node keeps.
fn load(sets: &[[u8; 3]], node: u8) -> usize
    ensures { result ≡ load sets.now node }
{
    sets.iter().filter(|set| has(set, node)).count()
}

// Whether the node is no storage node, or keeps no more partitions than it has room for.
fn has_room(sets: &[[u8; 3]], size: u64, role: &Role) -> bool
    requires { 0 < size }
    ensures { result ≡ has_room size sets.now role.now }
{
    !role.is_storage() || load(sets, role.node) as u64 <= role.room(size)
}

fn are_spread(roles: &[Role], r: u8, sets: &[[u8; 3]]) -> bool
    ensures { result ≡ list_all (is_spread roles.now r) sets.now }
{
    sets.iter().all(|set| is_spread(roles, r, set))
}

fn have_room(roles: &[Role], size: u64, sets: &[[u8; 3]]) -> bool
    requires { 0 < size }
    ensures { result ≡ list_all (has_room size sets.now) roles.now }
{
    roles.iter().all(|role| has_room(sets, size, role))
}

fn passes(roles: &[Role], r: u8, size: u64, sets: &[[u8; 3]]) -> bool
    requires { 0 < size }
    ensures { result ≡ passes roles.now r size sets.now }
{
    sets.len() == usize::from(PARTITIONS)
        && are_spread(roles, r, sets)
        && have_room(roles, size, sets)
}

/// Whether these are sets of 256 partitions that fit the roles, the redundancy and the partition size in bytes.
pub fn fits(roles: &Roles, r: u8, size: u64, sets: &[[u8; 3]]) -> bool
    requires { 0 < size }
    ensures { IsTrue result ↔ Fits roles.now.list r size sets.now }
{
    passes(roles.list.as_slice(), r, size, sets)
}
