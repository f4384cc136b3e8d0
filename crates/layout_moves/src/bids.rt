//! The cheapest way to take a copy from a node.
ghost use Rattle.std.specs.Prelude.{◌≡◌, ℕ, ◌+◌, ◌<◌, ◌≤◌, IsTrue, IfSome, None, Some, ◌⊎◌, length, true};
ghost use Rattle.layout_roles.specs.Fits.{has_node, set_at};
ghost use Rattle.layout_moves.specs.Prices.{asked, IsCheap};
ghost use Rattle.layout_moves.specs.Offers.{RisesAtMost, IsLeastBid};

use crate::offers::{asked_by, best_offer};
use crate::sets::has;
use crdt_core::List;
use layout_roles::Role;

/// A copy of a partition that moves to a node, once the price of the node that it leaves has risen by so much.
#[derive(Clone, Copy, Debug)]
pub struct Bid {
    pub partition: usize,
    pub node: u8,
    pub rise: u64,
}

// The best bid so far, or another that takes less of a rise.
fn lesser(best: Option<Bid>, bid: Bid) -> Option<Bid>
    ensures kept { (low high : ℕ) → RisesAtMost best low high → RisesAtMost result low high }
    ensures new { (low high : ℕ) → low + bid.rise ≤ high + 1 → RisesAtMost result low high }
    ensures one { (result ≡ best) ⊎ (result ≡ Some bid) }
{
    let Some(before) = best else { return Some(bid) };
    if bid.rise < before.rise {
        return Some(bid);
    }
    Some(before)
}

// The best bid so far, or a better one in a partition.
fn with_partition(
    groups: &[List<Role>],
    each: u8,
    fee: u32,
    old: &[[u8; 3]],
    sets: &[[u8; 3]],
    prices: &[u32],
    out: u8,
    p: usize,
    best: Option<Bid>,
) -> Option<Bid>
    requires whole { length old.now ≡ length sets.now }
    requires inside { p < length sets.now }
    requires cheap { IsCheap 1 each groups.now (asked fee (set_at old.now p) prices.now)
        (set_at sets.now p) }
    ensures { IsLeastBid fee groups.now each old.now sets.now prices.now out p best →
        IsLeastBid fee groups.now each old.now sets.now prices.now out (p + 1) result }
{
    if !has(&sets[p], out) {
        return best;
    }
    let Some(offer) = best_offer(groups, each, &sets[p], out, fee, &old[p], prices) else {
        return best
    };
    let rise = offer.price + 1 - asked_by(fee, &old[p], prices, out);
    lesser(
        best,
        Bid {
            partition: p,
            node: offer.node,
            rise,
        },
    )
}

/// The move from a node that takes the least rise of its price.
pub fn best_bid(
    groups: &[List<Role>],
    each: u8,
    fee: u32,
    old: &[[u8; 3]],
    sets: &[[u8; 3]],
    prices: &[u32],
    out: u8,
) -> Option<Bid>
    requires whole { length old.now ≡ length sets.now }
    requires cheap { (p : ℕ) → p < length sets.now →
        IsCheap 1 each groups.now (asked fee (set_at old.now p) prices.now) (set_at sets.now p) }
    ensures { IsLeastBid fee groups.now each old.now sets.now prices.now out
        (length sets.now) result }
{
    let mut best = None;
    for p in 0..sets.len() {
        best = with_partition(groups, each, fee, old, sets, prices, out, p, best);
    }
    best
}
