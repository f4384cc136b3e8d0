//! What nodes ask for a copy.
ghost use Rattle.std.specs.Prelude.{◌≡◌, ℕ, ◌+◌, ◌<◌, ◌≤◌, Bool, ◌||◌, ◌&&◌, ◌==◌, not, nat_eq, IsTrue, get_or, ◌^◌};
ghost use Rattle.layout_roles.specs.Fits.{has_node};
ghost use Rattle.layout_moves.specs.Prices.{lies, is_open, may_take, asked};
ghost use Rattle.layout_moves.specs.Offers.{IsCheapest};

use crate::sets::{has, opens};
use crdt_core::List;
use layout_roles::Role;

/// A node that could take a copy, and what it asks.
#[derive(Clone, Copy, Debug)]
pub struct Offer {
    pub node: u8,
    pub price: u64,
}

/// A node's price.
pub fn price_of(prices: &[u32], node: u8) -> u64
    ensures price { result ≡ get_or prices.now node 0 }
    ensures small { result < 2 ^ 32 }
{
    match prices.get(usize::from(node)) {
        Some(price) => u64::from(*price),
        None => 0,
    }
}

/// What a node asks for a copy: its price, and the fee where the old set hasn't it.
pub fn asked_by(fee: u32, old: &[u8; 3], prices: &[u32], node: u8) -> u64
    ensures asked { result ≡ asked fee old.now prices.now node }
    ensures small { result < 2 ^ 33 }
{
    let price = price_of(prices, node);
    if has(old, node) {
        price
    } else {
        price + u64::from(fee)
    }
}

// The cheaper of the best offer so far and another.
fn cheaper(best: Option<Offer>, offer: Offer) -> Option<Offer>
    ensures { (test : ℕ → Bool) (asks : ℕ → ℕ) → IsCheapest test asks best →
        offer.price ≡ asks offer.node →
        IsCheapest (λ node. test node || nat_eq node offer.node) asks result }
{
    let Some(before) = best else {
        return Some(offer)
    };
    if offer.price < before.price {
        return Some(offer);
    }
    Some(before)
}

// The best offer so far, or a better one of a node that the set hasn't.
fn with_role(
    role: &Role,
    set: &[u8; 3],
    fee: u32,
    old: &[u8; 3],
    prices: &[u32],
    best: Option<Offer>,
) -> Option<Offer>
    ensures { (test : ℕ → Bool) → IsCheapest test (asked fee old.now prices.now) best →
        IsCheapest (λ node. test node || ((role.now.node == node) && not (has_node node set.now)))
        (asked fee old.now prices.now) result }
{
    if has(set, role.node) {
        return best;
    }
    let price = asked_by(fee, old, prices, role.node);
    cheaper(
        best,
        Offer {
            node: role.node,
            price,
        },
    )
}

// The best offer so far, or a better one of a zone into which the copy may go.
fn with_zone(
    zone: &[Role],
    each: u8,
    set: &[u8; 3],
    out: u8,
    fee: u32,
    old: &[u8; 3],
    prices: &[u32],
    start: Option<Offer>,
) -> Option<Offer>
    ensures { (test : ℕ → Bool) → IsCheapest test (asked fee old.now prices.now) start →
        IsCheapest (λ node. test node ||
        ((is_open each set.now out zone.now && lies zone.now node) && not (has_node node set.now)))
        (asked fee old.now prices.now) result }
{
    if !opens(each, set, out, zone) {
        return start;
    }
    let mut best = start;
    for role in zone {
        best = with_role(role, set, fee, old, prices, best);
    }
    best
}

/// The cheapest node to which the copy at a node of the set may move.
pub fn best_offer(
    groups: &[List<Role>],
    each: u8,
    set: &[u8; 3],
    out: u8,
    fee: u32,
    old: &[u8; 3],
    prices: &[u32],
) -> Option<Offer>
    ensures { IsCheapest (may_take each set.now out groups.now)
        (asked fee old.now prices.now) result }
{
    let mut best = None;
    for zone in groups {
        best = with_zone(zone.as_slice(), each, set, out, fee, old, prices, best);
    }
    best
}
