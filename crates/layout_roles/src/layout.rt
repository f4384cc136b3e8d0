//! A layout version.
ghost use Rattle.std.specs.Prelude.{◌≡◌, IfOk};
ghost use Rattle.crdt_core.specs.Outcomes.{OnlyWant};

use crate::assignment::Assignment;
use crate::roles::Roles;
use crdt_core::Memory;

/// One version of the layout: who has which role, and who keeps which partition.
#[derive(Debug, Drop)]
pub struct Layout {
    pub version: u32,
    pub roles: Roles,
    /// In how many zones each set of three lies at least, 1 to 3.
    pub r: u8,
    /// The partition size in bytes.
    pub size: u64,
    pub sets: Assignment,
}

impl Layout {
    pub fn copy(&self) -> Result<Layout, Memory>
        ensures same { IfOk result (λ layout. layout ≡ self.now) }
        ensures want { OnlyWant result }
    {
        Ok(Layout {
            version: self.version,
            roles: self.roles.copy()?,
            r: self.r,
            size: self.size,
            sets: self.sets.copy()?,
        })
    }
}
