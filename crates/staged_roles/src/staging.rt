//! The staged roles.
ghost use Rattle.std.specs.Prelude.{◌≡◌, ◌≤◌, IfOk};
ghost use Rattle.crdt_core.specs.Outcomes.{OnlyWant};
ghost use Rattle.cluster_machine.specs.World.{staged as staged_model};
ghost use Rattle.cluster_machine.specs.Trio.{zone, stage_trio};

use crdt_core::{Bytes, List, Memory};
use layout_roles::{Kind, Role, Roles, Zone};
use std::alloc::Global;

/// The roles with this one of a node, or with none of it.
pub fn staged(
    alloc: Global,
    roles: &Roles,
    node: u8,
    role: Option<(Zone, Kind)>,
) -> Result<Roles, Memory>
    requires low { 1 ≤ node }
    requires high { node ≤ 64 }
    ensures staged { IfOk result (λ new. new.list ≡ staged_model node role roles.now.list) }
    ensures want { OnlyWant result }
{
    let others = roles.list.as_slice();
    let mut list = List::new(alloc);
    for other in others {
        if other.node < node {
            list.push(other.copy()?)?;
        }
    }
    if let Some((zone, kind)) = role {
        list.push(Role { node, zone, kind })?;
    }
    for other in others {
        if node < other.node {
            list.push(other.copy()?)?;
        }
    }
    match Roles::from_list(list) {
        Some(roles) => Ok(roles),
        None => unreachable!(),
    }
}

// The zone whose name is one letter.
fn zone_of(alloc: Global, letter: u8) -> Result<Zone, Memory>
    ensures named { IfOk result (λ z. z ≡ zone letter) }
    ensures want { OnlyWant result }
{
    Ok(Zone(Bytes::from_slice(alloc, &[letter])?))
}

// 1000 bytes.
const TRIO_CAPACITY: u64 = 1000;

/// Stages nodes 1, 2 and 3 in zones a, b and c beside the roles that are staged.
pub fn with_trio(alloc: Global, roles: &Roles) -> Result<Roles, Memory>
    ensures staged { IfOk result (λ new. new.list ≡ stage_trio roles.now.list) }
    ensures want { OnlyWant result }
{
    let kind = Kind::Storage(TRIO_CAPACITY);
    let third = staged(alloc, roles, 3, Some((zone_of(alloc, b'c')?, kind)))?;
    let second = staged(alloc, &third, 2, Some((zone_of(alloc, b'b')?, kind)))?;
    staged(alloc, &second, 1, Some((zone_of(alloc, b'a')?, kind)))
}
