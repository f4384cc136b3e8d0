//! Sets of three nodes, and the copies that nodes and zones keep of them.
ghost use Rattle.std.specs.Prelude.{◌≡◌, ℕ, IsTrue, false, nat_eq};
ghost use Rattle.std.specs.List.{IsDistinct};
ghost use Rattle.layout_roles.specs.Zones.{set_ascends};
ghost use Rattle.layout_roles.specs.Fits.{has_node, load};
ghost use Rattle.layout_moves.specs.Prices.{kept, lies, is_open, IsSwap};

use layout_roles::{Role, in_order};

/// Whether a set has a node.
pub fn has(set: &[u8; 3], node: u8) -> bool
    ensures { result ≡ has_node node set.now }
{
    set.iter().any(|other| node == *other)
}

/// How many partitions a node keeps.
pub fn load_of(sets: &[[u8; 3]], node: u8) -> usize
    ensures { result ≡ load sets.now node }
{
    let mut count = 0;
    for set in sets {
        if has(set, node) {
            count += 1;
        }
    }
    count
}

/// How many nodes of a set lie in a zone.
pub fn kept_in(set: &[u8; 3], zone: &[Role]) -> usize
    ensures { result ≡ kept set.now zone.now }
{
    let mut count = 0;
    for role in zone {
        if has(set, role.node) {
            count += 1;
        }
    }
    count
}

/// Whether a node is one of the zone's.
pub fn lies_in(zone: &[Role], node: u8) -> bool
    ensures { result ≡ lies zone.now node }
{
    zone.iter().any(|role| role.node == node)
}

/// Whether a copy that leaves a node of the set may go into the zone.
pub fn opens(each: u8, set: &[u8; 3], out: u8, zone: &[Role]) -> bool
    ensures { result ≡ is_open each set.now out zone.now }
{
    kept_in(set, zone) < usize::from(each) || lies_in(zone, out)
}

/// The set with one of its nodes in another's place.
pub fn swapped(set: [u8; 3], out: u8, new: u8) -> [u8; 3]
    requires { IsTrue (has_node out set) }
    ensures swap { IsSwap set out new result }
    ensures ascends { IsDistinct nat_eq set → has_node new set ≡ false →
        IsTrue (set_ascends result) }
{
    if set[0] == out {
        return in_order(new, set[1], set[2]);
    }
    if set[1] == out {
        return in_order(set[0], new, set[2]);
    }
    in_order(set[0], set[1], new)
}
