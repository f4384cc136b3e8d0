//! The auction: a node that keeps too many copies raises its price until one of them goes elsewhere.
ghost use Rattle.std.specs.Prelude.{◌≡◌, ℕ, ◌+◌, ◌<◌, ◌≤◌, ◌^◌, ◌-◌, ◌&&◌, nat_lt, IsTrue, IfSome, None, length, get_or, slice_set};
ghost use Rattle.std.specs.List.{All};
ghost use Rattle.layout_roles.specs.Zones.{is_storage, storage_nodes, zones};
ghost use Rattle.layout_roles.specs.Fits.{load, room, SomeFits};
ghost use Rattle.layout_moves.specs.Auction.{IsPriced, is_over, unrest};

use crate::bids::best_bid;
use crate::sets::{load_of, swapped};
use crdt_core::List;
use layout_roles::{Role, Roles};

/// What a move costs in units of prices: more than there are prices, so that they can be rounded.
pub const FEE: u32 = 66;

// Whether a storage node keeps more partitions than it has room for.
fn is_too_full(role: &Role, size: u64, sets: &[[u8; 3]]) -> bool
    requires { 0 < size }
    ensures { result ≡ (is_storage role.now && nat_lt (room size role.now)
        (load sets.now role.now.node)) }
{
    role.is_storage() && role.room(size) < load_of(sets, role.node) as u64
}

/// The first storage node that keeps more partitions than it has room for.
pub fn overloaded(roles: &Roles, size: u64, sets: &[[u8; 3]]) -> Option<u8>
    requires { 0 < size }
    ensures some { IfSome result (λ node. IsTrue (is_over roles.now.list size sets.now node)) }
    ensures none { result ≡ None →
        All (λ role. load sets.now role.node ≤ room size role) (storage_nodes roles.now.list) }
{
    for role in roles.list.as_slice() {
        if is_too_full(role, size, sets) {
            return Some(role.node);
        }
    }
    None
}

// Raises a node's price.
fn raise(prices: &mut List<u32>, node: u8, rise: u64)
    requires inside { node < length prices.old }
    requires fits { get_or prices.old node 0 + rise < 2 ^ 32 }
    ensures { prices.new ≡ slice_set prices.old node (get_or prices.old node 0 + rise) }
{
    let price = u64::from(*prices.at(usize::from(node))) + rise;
    prices.set(usize::from(node), price as u32);
}

// Raises the price of a node that keeps too many copies as far as none of them could go, and takes the first that
// can then go away.
fn relieve(
    roles: &Roles,
    r: u8,
    size: u64,
    groups: &[List<Role>],
    old: &[[u8; 3]],
    sets: &mut List<[u8; 3]>,
    prices: &mut List<u32>,
    node: u8,
)
    requires high { r ≤ 3 }
    requires some { SomeFits roles.now.list r size }
    requires grouped { groups.now ≡ zones roles.now.list }
    requires whole { length old.now ≡ 256 }
    requires priced { IsPriced roles.now.list r size old.now sets.old prices.old }
    requires over { IsTrue (is_over roles.now.list size sets.old node) }
    ensures priced { IsPriced roles.now.list r size old.now sets.new prices.new }
    ensures nearer { unrest roles.now.list old.now sets.new prices.new < unrest roles.now.list old.now sets.old prices.old }
{
    let Some(bid) = best_bid(
        groups,
        4 - r,
        FEE,
        old,
        sets.as_slice(),
        prices.as_slice(),
        node,
    ) else {
        raise(prices, node, 1);
        return
    };
    raise(prices, node, bid.rise);
    let set = swapped(*sets.at(bid.partition), node, bid.node);
    sets.set(bid.partition, set);
}

/// Raises prices and moves copies until no node keeps more partitions than it has room for.
pub fn hold_auction(
    roles: &Roles,
    r: u8,
    size: u64,
    groups: &[List<Role>],
    old: &[[u8; 3]],
    sets: &mut List<[u8; 3]>,
    prices: &mut List<u32>,
)
    requires high { r ≤ 3 }
    requires sized { 0 < size }
    requires some { SomeFits roles.now.list r size }
    requires grouped { groups.now ≡ zones roles.now.list }
    requires whole { length old.now ≡ 256 }
    requires priced { IsPriced roles.now.list r size old.now sets.old prices.old }
    ensures priced { IsPriced roles.now.list r size old.now sets.new prices.new }
    ensures within { All (λ role. load sets.new role.node ≤ room size role)
        (storage_nodes roles.now.list) }
{
    loop {
        match overloaded(roles, size, sets.as_slice()) {
            None => return,
            Some(node) => relieve(roles, r, size, groups, old, sets, prices, node),
        }
    }
}
