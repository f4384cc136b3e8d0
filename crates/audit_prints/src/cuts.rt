//! The cut that lines print, and in how many zones sets have to lie.
ghost use Rattle.std.specs.Prelude.{◌≡◌, ◌<◌, ◌≤◌, IsTrue, IfSome, IfNone, IfOk};
ghost use Rattle.crdt_core.specs.Outcomes.{OnlyWant};
ghost use Rattle.layout_roles.specs.Certificates.{zones_wanted};
ghost use Rattle.audit_prints.specs.Roles.{is_meant};
ghost use Rattle.audit_prints.specs.Sides.{side_read, IsLight, IsCutOf};

use crate::side::side_of;
use audit_model::Said;
use crdt_core::Memory;
use layout_judge::{listed, weight};
use layout_roles::{Cut, Redundancy, Roles, zone_names};
use std::alloc::Global;

// Three copies of each partition.
const COPIES: u64 = 768;

/// In how many zones the nodes of a set have to lie.
pub fn zones_wanted(roles: &Roles, wanted: Redundancy) -> u8
    requires { IsTrue (is_meant wanted) }
    ensures wanted { result ≡ zones_wanted wanted roles.now.list }
    ensures high { result ≤ 3 }
{
    match wanted {
        Redundancy::AtLeast(r) => r,
        Redundancy::Maximum => roles.zone_count().min(3) as u8,
    }
}

/// The cut of the vertices that the lines name, of the network for this size, where it weighs less than three copies of each
/// partition.
pub fn light_cut(
    alloc: Global,
    roles: &Roles,
    r: u8,
    size: u64,
    saids: &[Said],
) -> Result<Option<Cut>, Memory>
    requires high { r ≤ 3 }
    requires some { 0 < size }
    ensures light { IfOk result
        (λ found. IfSome found (λ _. IsLight roles.now.list r size
        (side_read roles.now.list saids.now))) }
    ensures cut { IfOk result
        (λ found. IfSome found (λ cut. IsCutOf roles.now.list r size
        (side_read roles.now.list saids.now) cut)) }
    ensures none { IfOk result
        (λ found. IfNone found (IsLight roles.now.list r size (side_read roles.now.list saids.now) →
        ⊥)) }
    ensures want { OnlyWant result }
{
    let names = zone_names(alloc, roles.list.as_slice())?;
    let side = side_of(alloc, names.as_slice(), saids)?;
    match weight(alloc, roles, r, size, side.as_slice())? {
        Some(weight) if weight < COPIES => Ok(Some(Cut {
            size,
            weight: weight as u32,
            side: listed(alloc, roles, side.as_slice())?,
        })),
        _ => Ok(None),
    }
}
