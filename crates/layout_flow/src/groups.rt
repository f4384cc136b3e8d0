//! Storage nodes, zone by zone in order of names.
ghost use Rattle.std.specs.Prelude.{◌≡◌, IfOk};
ghost use Rattle.crdt_core.specs.Outcomes.{OnlyWant};
ghost use Rattle.layout_roles.specs.Zones.{nodes_in, zones};

use crdt_core::{Bytes, List, Memory, Value};
use layout_roles::{Role, zone_names};
use std::alloc::Global;

// The storage nodes of a zone.
fn nodes_of(alloc: Global, roles: &[Role], name: &Bytes) -> Result<List<Role>, Memory>
    ensures nodes { IfOk result (λ nodes. nodes ≡ nodes_in roles.now name.now) }
    ensures want { OnlyWant result }
{
    let mut nodes = List::new(alloc);
    for role in roles {
        if role.is_storage() && role.zone.0 == *name {
            nodes.push(role.copy()?)?;
        }
    }
    Ok(nodes)
}

/// The storage nodes of each zone, zones in order of names and nodes in order of numbers.
pub fn by_zone(alloc: Global, roles: &[Role]) -> Result<List<List<Role>>, Memory>
    ensures groups { IfOk result (λ groups. groups ≡ zones roles.now) }
    ensures want { OnlyWant result }
{
    let names = zone_names(alloc, roles)?;
    let names = names.as_slice();
    let mut groups = List::new(alloc);
    for name in names {
        groups.push(nodes_of(alloc, roles, name)?)?;
    }
    Ok(groups)
}
