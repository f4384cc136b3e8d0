//! The layout of the staged roles, or why there is none.
ghost use Rattle.std.specs.Prelude.{◌≡◌, IfOk};
ghost use Rattle.crdt_core.specs.Outcomes.{OnlyWant};
ghost use Rattle.layout_roles.specs.Certificates.{IsRedundancy};
ghost use Rattle.change_model.specs.Given.{layout_of};
ghost use Rattle.world_core.specs.Given.{IsDecided};

use cluster_machine::applied::{Applied, Refusal};
use crdt_core::Memory;
use layout_roles::{Layout, Redundancy, Roles};
use layout_size::{LayoutFault, compute};
use std::alloc::Global;

/// What an apply is given.
#[derive(Drop)]
pub enum Decided {
    /// A layout of the greatest partition size.
    Given(Applied),
    /// Why there is none.
    Refused(Refusal),
}

/// The layout of these roles, or why there is none.
pub fn decide(alloc: Global, roles: &Roles, wanted: Redundancy) -> Result<Decided, Memory>
    requires { IsRedundancy wanted }
    ensures decided { IfOk result (λ decided. IsDecided roles.now wanted decided) }
    ensures want { OnlyWant result }
{
    match compute(alloc, roles, wanted) {
        Ok(certified) => {
            let roles = roles.copy()?;
            Ok(Decided::Given(Applied { certified, roles }))
        }
        Err(LayoutFault::TooFewNodes(nodes)) => {
            Ok(Decided::Refused(Refusal::TooFewNodes(nodes)))
        }
        Err(LayoutFault::TooFewZones(zones, r)) => {
            Ok(Decided::Refused(Refusal::TooFewZones(zones, r)))
        }
        Err(LayoutFault::NoAssignment(cut)) => Ok(Decided::Refused(Refusal::NoAssignment(cut))),
        Err(LayoutFault::Memory) => Err(Memory::Want),
    }
}

/// The layout that is shown, as this version.
pub fn layout_of(version: u32, shown: &Applied) -> Result<Layout, Memory>
    ensures is { IfOk result (λ layout. layout ≡ layout_of version shown.now) }
    ensures want { OnlyWant result }
{
    Ok(Layout {
        version,
        roles: shown.roles.copy()?,
        r: shown.certified.r,
        size: shown.certified.size,
        sets: shown.certified.sets.copy()?,
    })
}
