//! What is staged: the roles and the redundancy of the layout that is computed next.
ghost use Rattle.std.specs.Prelude.{◌≡◌, IsTrue, IfOk};
ghost use Rattle.crdt_core.specs.Outcomes.{OnlyWant};
ghost use Rattle.text_model.specs.Grammar.{IsAllowed};
ghost use Rattle.audit_prints.specs.Roles.{are_bounded, is_meant};

use crdt_core::{List, Memory};
use layout_roles::{Kind, Redundancy, Roles, Zone};
use staged_roles::{staged, with_trio};
use std::alloc::Global;
use store_model::Event;

/// The staged roles, with capacities of at most 1 PiB, and the staged redundancy.
#[derive(Drop)]
pub struct Stage {
    pub roles: Roles,
    pub wanted: Redundancy,
    pub ghost bounded: { IsTrue (are_bounded roles.list) },
    pub ghost meant: { IsTrue (is_meant wanted) },
}

// A copy of a node's new role.
fn copy_role(role: &Option<(Zone, Kind)>) -> Result<Option<(Zone, Kind)>, Memory>
    ensures same { IfOk result (λ copied. copied ≡ role.now) }
    ensures want { OnlyWant result }
{
    match role {
        Some((zone, kind)) => Ok(Some((zone.copy()?, *kind))),
        None => Ok(None),
    }
}

impl Stage {
    ghost use Rattle.audit_model.specs.Printed.{nothing_staged, stages};
    ghost use Rattle.audit_prints.specs.Stages.{staged_of};

    /// Before the first event.
    pub fn new(alloc: Global) -> Stage
        ensures { staged_of result ≡ nothing_staged }
    {
        let none = Roles {
            list: List::new(alloc),
        };
        Stage {
            roles: none,
            wanted: Redundancy::Maximum,
        }
    }

    /// After an event that was accepted.
    pub fn after(self, alloc: Global, event: &Event) -> Result<Stage, Memory>
        requires { IsAllowed event.now }
        ensures staged { IfOk result (λ next. staged_of next ≡ stages (staged_of self) event.now) }
        ensures want { OnlyWant result }
    {
        match event {
            Event::Trio => Ok(Stage {
                roles: with_trio(alloc, &self.roles)?,
                wanted: self.wanted,
            }),
            Event::Role { node, role } => Ok(Stage {
                roles: staged(alloc, &self.roles, *node, copy_role(role)?)?,
                wanted: self.wanted,
            }),
            Event::Redundancy(wanted) => Ok(Stage {
                roles: self.roles,
                wanted: *wanted,
            }),
            _ => Ok(self),
        }
    }
}
