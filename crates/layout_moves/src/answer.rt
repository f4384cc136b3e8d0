//! The assignment that moves the fewest copies.
ghost use Rattle.std.specs.Prelude.{ℕ, pos, ◌≡◌, ◌<◌, ◌≤◌, ◌∷◌, length, map, List, IsErr, IfOk, IfErr, get_or};
ghost use Rattle.crdt_core.specs.Outcomes.{OnlyWant};
ghost use Rattle.layout_roles.specs.Fits.{NodeSet, Fits, NoneFits};
ghost use Rattle.layout_roles.specs.Certificates.{IsPrintedCut};
ghost use Rattle.layout_roles.specs.Network.{vertices};
ghost use Rattle.layout_roles.specs.declared.vertex.Vertex.TheVariants.{Source};
ghost use Rattle.layout_moves.specs.Moves.{moves, bound, potentials};
ghost use Rattle.layout_moves.specs.Answers.{IfNoAssignment};

use crate::auction::{FEE, hold_auction};
use crate::count::count_moves;
use crate::fault::MoveFault;
use crate::head_start::head_start;
use crate::laws::potentials_bound;
use crate::moved::Moved;
use crate::potentials::{potentials_of, top_of};
use crate::rounding::{shift_of, whole_prices};
use crate::settle::settle_all;
use crdt_core::{List, Memory};
use layout_flow::{FlowOrCut, Network, by_zone};
use layout_roles::{Assignment, Roles};
use std::alloc::Global;

// One more than the greatest number of a node.
const PRICES: usize = 65;

/// The assignment of a partition size that moves the fewest copies from an old one, whose nodes need no role now,
/// with the potentials that show that none moves fewer. The nodes of each set lie in at least r zones.
pub fn fewest(roles: &Roles, r: u8, size: u64, old: &Assignment) -> Result<Moved, MoveFault>
    requires low { 1 ≤ r }
    requires high { r ≤ 3 }
    requires some { 0 < size }
    ensures fits { IfOk result (λ moved. Fits roles.now.list r size moved.sets.sets) }
    ensures moves { IfOk result (λ moved. moved.moves ≡ moves old.now.sets moved.sets.sets) }
    ensures bound { IfOk result
        (λ moved. bound roles.now.list r size old.now.sets (potentials moved.potentials) ≡
        pos moved.moves) }
    ensures fewest { IfOk result (λ moved. (sets : List NodeSet) → Fits roles.now.list r size sets →
        moved.moves ≤ moves old.now.sets sets) }
    ensures listed { IfOk result
        (λ moved. Source ∷ map (λ entry. entry.0) moved.potentials ≡ vertices roles.now.list) }
    ensures none { IfErr result
        (λ fault. IfNoAssignment fault (λ _. NoneFits roles.now.list r size)) }
    ensures none_cut { IfErr result
        (λ fault. IfNoAssignment fault (λ cut. IsPrintedCut roles.now.list r size cut)) }
    ensures none_light { IfErr result (λ fault. IfNoAssignment fault (λ cut. cut.weight < 768)) }
    ensures refused { NoneFits roles.now.list r size → IsErr result }
{
    let network = Network::new(roles.list.allocator(), roles, r, size)?;
    match network.max_flow()? {
        FlowOrCut::Flow(start) => {
            let moved = improved(roles, r, size, old, start)?;
            Ok(moved)
        }
        FlowOrCut::Cut(cut) => Err(MoveFault::NoAssignment(cut)),
    }
}

// As many prices of 0 as nodes could have.
fn no_prices(alloc: Global) -> Result<List<u32>, Memory>
    ensures rows { IfOk result (λ prices. length prices ≡ 65) }
    ensures zero { IfOk result (λ prices. (node : ℕ) → get_or prices node 0 ≡ 0) }
    ensures want { OnlyWant result }
{
    let mut prices = List::new(alloc);
    for _ in 0..PRICES {
        prices.push(0)?;
    }
    Ok(prices)
}

// The sets that move the fewest copies, from sets that fit.
fn improved(
    roles: &Roles,
    r: u8,
    size: u64,
    old: &Assignment,
    start: Assignment,
) -> Result<Moved, Memory>
    requires low { 1 ≤ r }
    requires high { r ≤ 3 }
    requires some { 0 < size }
    requires fits { Fits roles.now.list r size start.sets }
    ensures fits { IfOk result (λ moved. Fits roles.now.list r size moved.sets.sets) }
    ensures moves { IfOk result (λ moved. moved.moves ≡ moves old.now.sets moved.sets.sets) }
    ensures bound { IfOk result
        (λ moved. bound roles.now.list r size old.now.sets (potentials moved.potentials) ≡
        pos moved.moves) }
    ensures fewest { IfOk result (λ moved. (sets : List NodeSet) → Fits roles.now.list r size sets →
        moved.moves ≤ moves old.now.sets sets) }
    ensures listed { IfOk result
        (λ moved. Source ∷ map (λ entry. entry.0) moved.potentials ≡ vertices roles.now.list) }
    ensures want { OnlyWant result }
{
    potentials_bound();
    let alloc = roles.list.allocator();
    let zones = by_zone(alloc, roles.list.as_slice())?;
    let groups = zones.as_slice();
    let old = old.sets.as_slice();
    let mut sets = start.sets;
    let mut prices = no_prices(alloc)?;
    settle_all(roles, groups, 4 - r, &mut sets, FEE, old, prices.as_slice());
    head_start(roles, r, size, groups, old, &mut sets, &mut prices)?;
    hold_auction(roles, r, size, groups, old, &mut sets, &mut prices);
    let shift = shift_of(prices.as_slice());
    let prices = whole_prices(alloc, prices.as_slice(), shift)?;
    let top = top_of(sets.as_slice(), old, prices.as_slice());
    let potentials = potentials_of(
        alloc,
        roles,
        groups,
        4 - r,
        old,
        sets.as_slice(),
        prices.as_slice(),
        top,
    )?;
    let moves = count_moves(old, sets.as_slice());
    Ok(Moved {
        sets: Assignment { sets },
        moves,
        potentials,
    })
}
