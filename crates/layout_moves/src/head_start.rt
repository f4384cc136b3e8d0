//! A head start for the auction: copies move on shortest paths to nodes with room, and prices rise with them.
ghost use Rattle.std.specs.Prelude.{◌≡◌, ℕ, ◌<◌, ◌≤◌, ◌-◌, ◌&&◌, IsTrue, length, OnOk};
ghost use Rattle.std.specs.List.{list_all, list_any};
ghost use Rattle.crdt_core.specs.Outcomes.{OnlyWant};
ghost use Rattle.layout_roles.specs.Zones.{zones};
ghost use Rattle.layout_roles.specs.Fits.{set_at};
ghost use Rattle.layout_moves.specs.Prices.{is_open, lies, may_take, asked, IsCheap};
ghost use Rattle.layout_moves.specs.Auction.{IsPriced, AreBases, is_fair};

use crate::auction::{FEE, overloaded};
use crate::offers::price_of;
use crate::paths::{NODES, Way, Ways, way_to, ways_from, zones_of};
use crate::sets::{has, lies_in, load_of, opens, swapped};
use crate::settle::gain;
use crdt_core::{List, Memory};
use layout_roles::{Role, Roles};

// As many copies as could have to move on.
const COPIES: usize = 768;

// No price of the auction rises above this.
const HIGHEST: u64 = 67_072;

// Whether a node lies in the zone, and a copy that leaves another may go there.
fn takes_in(zone: &[Role], each: u8, set: &[u8; 3], out: u8, new: u8) -> bool
    ensures { result ≡ (is_open each set.now out zone.now && lies zone.now new) }
{
    opens(each, set, out, zone) && lies_in(zone, new)
}

// Whether a node lies in a zone into which a copy that leaves another may go.
fn takes_any(groups: &[List<Role>], each: u8, set: &[u8; 3], out: u8, new: u8) -> bool
    ensures { result ≡ list_any
        (λ zone. is_open each set.now out zone && lies zone new) groups.now }
{
    groups
        .iter()
        .any(|zone| takes_in(zone.as_slice(), each, set, out, new))
}

// Whether a copy of a set may go from one node to another.
fn takes(groups: &[List<Role>], each: u8, set: &[u8; 3], out: u8, new: u8) -> bool
    ensures { result ≡ may_take each set.now out groups.now new }
{
    takes_any(groups, each, set, out, new) && !has(set, new)
}

// Moves a copy of a partition from one node to another, where it may go there.
fn exchange(
    roles: &Roles,
    groups: &[List<Role>],
    each: u8,
    sets: &mut List<[u8; 3]>,
    partition: usize,
    out: u8,
    new: u8,
) -> bool
    requires grouped { groups.now ≡ zones roles.now.list }
    requires bases { AreBases roles.now.list each sets.old }
    ensures bases { AreBases roles.now.list each sets.new }
{
    if sets.len() <= partition {
        return false;
    }
    let set = *sets.at(partition);
    if !has(&set, out) || !takes(groups, each, &set, out, new) {
        return false;
    }
    sets.set(partition, swapped(set, out, new));
    true
}

// Moves the copies on a way, the last one first.
fn follow(
    roles: &Roles,
    groups: &[List<Role>],
    each: u8,
    sets: &mut List<[u8; 3]>,
    ways: &Ways,
    start: u8,
    end: u8,
) -> bool
    requires grouped { groups.now ≡ zones roles.now.list }
    requires bases { AreBases roles.now.list each sets.old }
    ensures bases { AreBases roles.now.list each sets.new }
{
    let mut node = end;
    for _ in 0..NODES {
        if node == start {
            return true;
        }
        let Some(way) = way_to(ways, node) else {
            return false
        };
        if !exchange(roles, groups, each, sets, way.partition, way.from, node) {
            return false;
        }
        node = way.from;
    }
    false
}

// Raises the prices of the nodes that are nearer than the end of a way, so that all on it ask the same.
fn raise_nearer(prices: &mut List<u32>, ways: &Ways, end: Way)
    requires { length prices.old ≡ 65 }
    ensures { length prices.new ≡ 65 }
{
    for node in 0..NODES {
        if let Some(way) = way_to(ways, node as u8) {
            if way.settled {
                let rise = end.cost.saturating_sub(way.cost).min(HIGHEST) as u32;
                let price = prices.at(node).saturating_add(rise);
                prices.set(node, price);
            }
        }
    }
}

// Which nodes have room for another partition.
fn with_room(roles: &[Role], size: u64, sets: &[[u8; 3]]) -> [bool; NODES]
    requires { 0 < size }
{
    let mut has_room = [false; NODES];
    for role in roles {
        if let Some(place) = has_room.get_mut(usize::from(role.node)) {
            *place = role.is_storage() && (load_of(sets, role.node) as u64) < role.room(size);
        }
    }
    has_room
}

// Moves copies until no node keeps more partitions than it has room for, or no path is found.
fn move_on(
    roles: &Roles,
    groups: &[List<Role>],
    each: u8,
    size: u64,
    old: &[[u8; 3]],
    sets: &mut List<[u8; 3]>,
    prices: &mut List<u32>,
)
    requires sized { 0 < size }
    requires grouped { groups.now ≡ zones roles.now.list }
    requires whole { length old.now ≡ 256 }
    requires bases { AreBases roles.now.list each sets.old }
    requires rows { length prices.old ≡ 65 }
    ensures bases { AreBases roles.now.list each sets.new }
    ensures rows { length prices.new ≡ 65 }
{
    let zones = zones_of(groups);
    let list = roles.list.as_slice();
    for _ in 0..COPIES {
        let Some(start) = overloaded(roles, size, sets.as_slice()) else {
            return
        };
        let has_room = with_room(list, size, sets.as_slice());
        let mut ways: Ways = [None; NODES];
        let Some((end, way)) = ways_from(
            &mut ways,
            list,
            &zones,
            each,
            old,
            sets.as_slice(),
            prices.as_slice(),
            &has_room,
            start,
        ) else {
            return
        };
        raise_nearer(prices, &ways, way);
        if !follow(roles, groups, each, sets, &ways, start, end) {
            return;
        }
    }
}

// Whether no copy could move to a node that asks less by more than 1.
fn are_cheap(
    groups: &[List<Role>],
    each: u8,
    old: &[[u8; 3]],
    sets: &[[u8; 3]],
    prices: &[u32],
) -> bool
    requires { length old.now ≡ length sets.now }
    ensures { IsTrue result → (p : ℕ) → p < length sets.now →
        IsCheap 1 each groups.now (asked 66 (set_at old.now p) prices.now) (set_at sets.now p) }
{
    for p in 0..sets.len() {
        if gain(groups, each, &sets[p], FEE, &old[p], prices).is_some() {
            return false;
        }
    }
    true
}

#[tactic(auto, unfolding(crate::specs::Auction::highest))]
// Whether a node's price is none, or low enough and of a node without room left.
fn is_fair(role: &Role, size: u64, sets: &[[u8; 3]], prices: &[u32]) -> bool
    requires { 0 < size }
    ensures { result ≡ is_fair size sets.now prices.now role.now }
{
    let price = price_of(prices, role.node);
    price == 0 || price <= HIGHEST && role.room(size) <= load_of(sets, role.node) as u64
}

fn are_fair(roles: &[Role], size: u64, sets: &[[u8; 3]], prices: &[u32]) -> bool
    requires { 0 < size }
    ensures { result ≡ list_all (is_fair size sets.now prices.now) roles.now }
{
    roles.iter().all(|role| is_fair(role, size, sets, prices))
}

// Whether the auction could go on from these sets and prices.
fn could_go_on(
    roles: &Roles,
    r: u8,
    size: u64,
    groups: &[List<Role>],
    old: &[[u8; 3]],
    sets: &[[u8; 3]],
    prices: &[u32],
) -> bool
    requires high { r ≤ 3 }
    requires sized { 0 < size }
    requires grouped { groups.now ≡ zones roles.now.list }
    requires whole { length old.now ≡ 256 }
    requires bases { AreBases roles.now.list (4 - r) sets.now }
    requires rows { length prices.now ≡ 65 }
    ensures { IsTrue result → IsPriced roles.now.list r size old.now sets.now prices.now }
{
    are_cheap(groups, 4 - r, old, sets, prices)
        && are_fair(roles.list.as_slice(), size, sets, prices)
}

/// Takes the auction as far as copies can move on shortest paths: on to its end, as a rule. Where the paths end in
/// sets or prices from which it couldn't go on, it stays where it was.
pub fn head_start(
    roles: &Roles,
    r: u8,
    size: u64,
    groups: &[List<Role>],
    old: &[[u8; 3]],
    sets: &mut List<[u8; 3]>,
    prices: &mut List<u32>,
) -> Result<(), Memory>
    requires high { r ≤ 3 }
    requires sized { 0 < size }
    requires grouped { groups.now ≡ zones roles.now.list }
    requires whole { length old.now ≡ 256 }
    requires priced { IsPriced roles.now.list r size old.now sets.old prices.old }
    ensures priced { OnOk result (IsPriced roles.now.list r size old.now sets.new prices.new) }
    ensures want { OnlyWant result }
{
    let alloc = sets.allocator();
    let mut moved = List::from_vec(Vec::from_slice(alloc, sets.as_slice())?);
    let mut risen = List::from_vec(Vec::from_slice(alloc, prices.as_slice())?);
    move_on(roles, groups, 4 - r, size, old, &mut moved, &mut risen);
    if could_go_on(
        roles,
        r,
        size,
        groups,
        old,
        moved.as_slice(),
        risen.as_slice(),
    ) {
        *sets = moved;
        *prices = risen;
    }
    Ok(())
}
