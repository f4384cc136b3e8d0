//! The roles of all nodes.
ghost use Rattle.std.specs.Prelude.{◌≡◌, ◌↔◌, ◌&&◌, ◌<◌, not, take, length, IsTrue, IsSome, IfSome, IfOk};
ghost use Rattle.std.specs.List.{list_all, list_any};
ghost use Rattle.crdt_core.specs.Outcomes.{OnlyWant};
ghost use Rattle.layout_roles.specs.Zones.{nodes_ascend, is_numbered, is_storage, storage_nodes, name_of, zone_names, is_in_zone};

use crate::role::{Role, Zone};
use crdt_core::{List, Memory};

/// The roles of all nodes that have one, in order of nodes, each once. Nodes are 1 to 64.
#[derive(Debug, Drop)]
pub struct Roles {
    pub list: List<Role>,
    pub ghost ascending: { IsTrue (nodes_ascend list) },
    pub ghost numbered: { IsTrue (list_all is_numbered list) },
}

impl Roles {
    /// The roles of a list, where they are in order of nodes, each once, and the nodes are 1 to 64.
    pub fn from_list(list: List<Role>) -> Option<Roles>
        ensures some { IsSome result ↔
            (IsTrue (nodes_ascend list) × IsTrue (list_all is_numbered list)) }
        ensures same { IfSome result (λ roles. roles.list ≡ list) }
    {
        if are_in_order(list.as_slice()) {
            Some(Roles { list })
        } else {
            None
        }
    }

    /// How many storage nodes there are.
    pub fn storage_count(&self) -> usize
        ensures { result ≡ length (storage_nodes self.now.list) }
    {
        self.list
            .as_slice()
            .iter()
            .filter(|role| role.is_storage())
            .count()
    }

    /// How many zones have a storage node.
    pub fn zone_count(&self) -> usize
        ensures { result ≡ length (zone_names self.now.list) }
    {
        let roles = self.list.as_slice();
        let mut count = 0;
        for (i, role) in roles.iter().enumerate() {
            if opens_zone(roles, i, role) {
                count += 1;
            }
        }
        count
    }

    pub fn copy(&self) -> Result<Roles, Memory>
        ensures same { IfOk result (λ roles. roles ≡ self.now) }
        ensures want { OnlyWant result }
    {
        let mut list = List::new(self.list.allocator());
        let roles = self.list.as_slice();
        for role in roles {
            list.push(role.copy()?)?;
        }
        Ok(Roles { list })
    }
}

// Whether the nodes are 1 to 64, in order, each once.
fn are_in_order(roles: &[Role]) -> bool
    ensures { result ≡ (nodes_ascend roles.now && list_all is_numbered roles.now) }
{
    let mut last = 0;
    for role in roles {
        if role.node <= last || role.node > 64 {
            return false;
        }
        last = role.node;
    }
    true
}

// Whether this is a storage node, and none before the place is one in its zone.
fn opens_zone(roles: &[Role], place: usize, role: &Role) -> bool
    requires { place < length roles.now }
    ensures { result ≡ (is_storage role.now && not (list_any
        (λ other. is_storage other && is_in_zone (name_of role.now) other)
        (take place roles.now))) }
{
    role.is_storage() && !has_zone(&roles[..place], &role.zone)
}

// Whether one of these is a storage node in the zone.
fn has_zone(roles: &[Role], zone: &Zone) -> bool
    ensures { result ≡ list_any (λ role. is_storage role && is_in_zone zone.now.0 role) roles.now }
{
    roles
        .iter()
        .any(|role| role.is_storage() && role.zone.0 == zone.0)
}
