//! A change of the layout while it is served.
ghost use Rattle.std.specs.Coded.{×_prop, Unit-prop, le_prop};
ghost use Rattle.layout_roles.specs.declared.redundancy.Redundancy.TheVariants.{AtLeast, Maximum};
ghost use Rattle.layout_roles.specs.Certificates.{IsRedundancy};

use layout_roles::{Redundancy, Roles};

/// A change of the layout, once so many requests have reached the cluster.
#[derive(Debug, Drop)]
pub struct Change {
    pub after: u32,
    /// In how many zones the nodes of a partition have to be from then on.
    pub redundancy: Redundancy,
    /// All roles from then on.
    pub roles: Roles,
    pub ghost in_range: { IsRedundancy redundancy } by { elim redundancy as (λ r. IsProp (IsRedundancy r)) [ AtLeast zones ↦ ×_prop le_prop le_prop | Maximum ↦ Unit-prop ] },
}
