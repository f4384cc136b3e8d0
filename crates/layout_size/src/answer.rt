//! The layout of roles.
ghost use Rattle.std.specs.Prelude.{ℕ, ◌≡◌, ◌<◌, ◌≤◌, ◌↔◌, ◌+◌, length, List, Result, Err, IsErr, IfOk, IfErr};
ghost use Rattle.crdt_core.specs.Outcomes.{OnlyWant};
ghost use Rattle.layout_roles.specs.declared.role.Role.{Role};
ghost use Rattle.layout_roles.specs.Zones.{storage_nodes, zone_names};
ghost use Rattle.layout_roles.specs.Fits.{Fits, SomeFits, NoneFits, IsGreatest};
ghost use Rattle.layout_roles.specs.Certificates.{IsPrintedCut, IsRedundancy, zones_wanted, IsCertified, ShowsNone};
ghost use Rattle.layout_size.specs.declared.fault.LayoutFault.{LayoutFault};
ghost use Rattle.layout_size.specs.Answers.{IfNoAssignment, IsLateFault};

use crate::fault::LayoutFault;
use crate::search::greatest_size;
use crdt_core::Memory;
use layout_flow::{FlowOrCut, Network};
use layout_roles::{Assignment, Certified, Cut, Redundancy, Roles};
use std::alloc::Global;

// How many nodes keep each partition.
const COPIES: usize = 3;

/// The greatest partition size of roles, an assignment that fits it, and the cut for the next size.
pub fn compute(alloc: Global, roles: &Roles, wanted: Redundancy) -> Result<Certified, LayoutFault>
    requires { IsRedundancy wanted }
    ensures certified { IfOk result (IsCertified roles.now.list wanted) }
    ensures nodes { (n : ℕ) → (result ≡ Err (LayoutFault.TooFewNodes n)) ↔
        ((length (storage_nodes roles.now.list) ≡ n) × (n < 3)) }
    ensures zones { (z r : ℕ) → (result ≡ Err (LayoutFault.TooFewZones z r)) ↔
        ((3 ≤ length (storage_nodes roles.now.list)) × (length (zone_names roles.now.list) ≡ z) ×
        (zones_wanted wanted roles.now.list ≡ r) × (z < r)) }
    ensures none { IfErr result
        (λ fault. IfNoAssignment fault
        (ShowsNone roles.now.list (zones_wanted wanted roles.now.list))) }
    ensures refused { NoneFits roles.now.list (zones_wanted wanted roles.now.list) 1 →
        IsErr result }
{
    let nodes = roles.storage_count();
    if nodes < COPIES {
        return Err(LayoutFault::TooFewNodes(nodes as u8));
    }
    let zones = roles.zone_count();
    let r = zones_of(wanted, zones);
    if zones < usize::from(r) {
        return Err(LayoutFault::TooFewZones(zones as u8, r));
    }
    certify(Network::new(alloc, roles, r, 1)?)
}

// In how many zones the nodes of a set have to lie, where so many zones have storage nodes.
fn zones_of(wanted: Redundancy, zones: usize) -> u8
    requires { IsRedundancy wanted }
    ensures wanted { (roles : List Role) → length (zone_names roles) ≡ zones →
        result ≡ zones_wanted wanted roles }
    ensures high { result ≤ 3 }
{
    match wanted {
        Redundancy::AtLeast(r) => r,
        Redundancy::Maximum => zones.min(3) as u8,
    }
}

// The greatest layout of a network for size 1.
fn certify(mut network: Network) -> Result<Certified, LayoutFault>
    requires { network.size ≡ 1 }
    ensures redundancy { IfOk result (λ certified. certified.r ≡ network.r) }
    ensures greatest { IfOk result
        (λ certified. IsGreatest network.roles.list network.r certified.size certified.sets.sets) }
    ensures above { IfOk result (λ certified. (size : ℕ) → certified.size < size →
        NoneFits network.roles.list certified.r size) }
    ensures some { IfOk result (λ certified. 0 < certified.size) }
    ensures cut { IfOk result
        (λ certified. IsPrintedCut network.roles.list network.r
        (certified.size + 1) certified.cut) }
    ensures light { IfOk result (λ certified. certified.cut.weight < 768) }
    ensures fits { IfOk result (λ _. SomeFits network.roles.list network.r 1) }
    ensures fault { IfErr result (IsLateFault network.roles.list network.r) }
{
    if !network.has_flow() {
        return Err(LayoutFault::NoAssignment(cut_of(&network)?));
    }
    let size = greatest_size(&mut network);
    network.resize(size);
    let sets = assignment_of(&network)?;
    network.resize(size + 1);
    let cut = cut_of(&network)?;
    Ok(Certified {
        r: network.r,
        size,
        sets,
        cut,
    })
}

// The assignment of a network for a size that some assignment fits.
fn assignment_of(network: &Network) -> Result<Assignment, Memory>
    requires { SomeFits network.now.roles.list network.now.r network.now.size }
    ensures fits { IfOk result
        (λ assignment. Fits network.now.roles.list network.now.r network.now.size assignment.sets) }
    ensures want { OnlyWant result }
{
    match network.max_flow()? {
        FlowOrCut::Flow(assignment) => Ok(assignment),
        FlowOrCut::Cut(_) => unreachable!(),
    }
}

// The printed cut of a network for a size that no assignment fits.
fn cut_of(network: &Network) -> Result<Cut, Memory>
    requires { NoneFits network.now.roles.list network.now.r network.now.size }
    ensures printed { IfOk result
        (λ cut. IsPrintedCut network.now.roles.list network.now.r network.now.size cut) }
    ensures light { IfOk result (λ cut. cut.weight < 768) }
    ensures want { OnlyWant result }
{
    match network.max_flow()? {
        FlowOrCut::Flow(_) => unreachable!(),
        FlowOrCut::Cut(cut) => Ok(cut),
    }
}
