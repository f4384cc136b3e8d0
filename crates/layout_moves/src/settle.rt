//! Sets that no single move makes cheaper.
ghost use Rattle.std.specs.Prelude.{◌≡◌, ℕ, ◌+◌, ◌<◌, ◌≤◌, IsTrue, IfSome, None, length, slice_get};
ghost use Rattle.std.specs.List.{All, list_all};
ghost use Rattle.layout_roles.specs.Zones.{zones, set_ascends};
ghost use Rattle.layout_roles.specs.Fits.{has_node, set_at};
ghost use Rattle.layout_moves.specs.Prices.{may_take, asked, IsBase, IsCheap};

use crate::offers::{asked_by, best_offer};
use crate::sets::swapped;
use crdt_core::List;
use layout_roles::{Role, Roles};

/// A copy that moves from one node to another.
#[derive(Clone, Copy, Debug)]
pub struct Swap {
    pub out: u8,
    pub new: u8,
}

// The node to which the copy at one moves where that is cheaper by more than 1.
fn gain_at(
    groups: &[List<Role>],
    each: u8,
    set: &[u8; 3],
    out: u8,
    fee: u32,
    old: &[u8; 3],
    prices: &[u32],
) -> Option<u8>
    ensures some { IfSome result (λ node. IsTrue (may_take each set.now out groups.now node) ×
        (asked fee old.now prices.now node + 1 < asked fee old.now prices.now out)) }
    ensures none { result ≡ None → (node : ℕ) → IsTrue (may_take each set.now out groups.now node) →
        asked fee old.now prices.now out ≤ asked fee old.now prices.now node + 1 }
{
    let Some(offer) = best_offer(groups, each, set, out, fee, old, prices) else {
        return None
    };
    if offer.price + 1 < asked_by(fee, old, prices, out) {
        return Some(offer.node);
    }
    None
}

/// A move within the set that is cheaper by more than 1.
pub fn gain(
    groups: &[List<Role>],
    each: u8,
    set: &[u8; 3],
    fee: u32,
    old: &[u8; 3],
    prices: &[u32],
) -> Option<Swap>
    ensures some { IfSome result (λ gain. IsTrue (has_node gain.out set.now) ×
        IsTrue (may_take each set.now gain.out groups.now gain.new) ×
        (asked fee old.now prices.now gain.new + 1 < asked fee old.now prices.now gain.out)) }
    ensures none { result ≡ None →
        IsCheap 1 each groups.now (asked fee old.now prices.now) set.now }
{
    for out in set {
        if let Some(new) = gain_at(groups, each, set, *out, fee, old, prices) {
            return Some(Swap { out: *out, new });
        }
    }
    None
}

/// The set after all moves within it that make it cheaper by more than 1.
pub fn settled(
    roles: &Roles,
    groups: &[List<Role>],
    each: u8,
    start: [u8; 3],
    fee: u32,
    old: &[u8; 3],
    prices: &[u32],
) -> [u8; 3]
    requires grouped { groups.now ≡ zones roles.now.list }
    requires base { IsBase roles.now.list each start }
    requires ascends { IsTrue (set_ascends start) }
    ensures base { IsBase roles.now.list each result }
    ensures ascends { IsTrue (set_ascends result) }
    ensures cheap { IsCheap 1 each groups.now (asked fee old.now prices.now) result }
{
    let mut set = start;
    loop {
        match gain(groups, each, &set, fee, old, prices) {
            None => return set,
            Some(gain) => set = swapped(set, gain.out, gain.new),
        }
    }
}

/// Settles the sets of all partitions.
pub fn settle_all(
    roles: &Roles,
    groups: &[List<Role>],
    each: u8,
    sets: &mut List<[u8; 3]>,
    fee: u32,
    old: &[[u8; 3]],
    prices: &[u32],
)
    requires grouped { groups.now ≡ zones roles.now.list }
    requires whole { length old.now ≡ length sets.old }
    requires bases { All (IsBase roles.now.list each) sets.old }
    requires ascending { IsTrue (list_all set_ascends sets.old) }
    ensures whole { length sets.new ≡ length sets.old }
    ensures bases { All (IsBase roles.now.list each) sets.new }
    ensures ascending { IsTrue (list_all set_ascends sets.new) }
    ensures cheap { (p : ℕ) → p < length sets.new →
        IsCheap 1 each groups.now (asked fee (set_at old.now p) prices.now) (set_at sets.new p) }
{
    for p in 0..old.len() {
        let set = settled(roles, groups, each, *sets.at(p), fee, &old[p], prices);
        sets.set(p, set);
    }
}
