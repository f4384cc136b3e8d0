//! What one node does in a layout.
ghost use Rattle.std.specs.Prelude.{◌≡◌, ◌<◌, IfOk};
ghost use Rattle.crdt_core.specs.Outcomes.{OnlyWant};

use crdt_core::{Bytes, Memory, Value};

/// The name of a place whose nodes fail together, as a data centre.
#[derive(Debug, Drop, PartialEq, Eq, PartialOrd, Ord)]
pub struct Zone(pub Bytes);

impl Zone {
    pub fn copy(&self) -> Result<Zone, Memory>
        ensures same { IfOk result (λ zone. zone ≡ self.now) }
        ensures want { OnlyWant result }
    {
        Ok(Zone(self.0.copy()?))
    }
}

/// Whether a node keeps copies.
#[derive(Clone, Copy, Debug, PartialEq, Eq)]
pub enum Kind {
    /// It keeps copies, up to this capacity in bytes.
    Storage(u64),
    /// It takes requests and keeps no copy.
    Gateway,
}

/// What one node does.
#[derive(Debug, Drop)]
pub struct Role {
    pub node: u8,
    pub zone: Zone,
    pub kind: Kind,
}

impl Role {
    ghost use Rattle.layout_roles.specs.Zones.{is_storage, capacity_of};
    ghost use Rattle.layout_roles.specs.Fits.{room};

    pub fn is_storage(&self) -> bool
        ensures { result ≡ is_storage self.now }
    {
        matches!(self.kind, Kind::Storage(_))
    }

    /// The capacity in bytes, 0 for a gateway.
    pub fn capacity(&self) -> u64
        ensures { result ≡ capacity_of self.now }
    {
        match self.kind {
            Kind::Storage(capacity) => capacity,
            Kind::Gateway => 0,
        }
    }

    /// How many partitions of this size in bytes the node has room for.
    pub fn room(&self, size: u64) -> u64
        requires { 0 < size }
        ensures { result ≡ room size self.now }
    {
        self.capacity() / size
    }

    pub fn copy(&self) -> Result<Role, Memory>
        ensures same { IfOk result (λ role. role ≡ self.now) }
        ensures want { OnlyWant result }
    {
        Ok(Role {
            node: self.node,
            zone: self.zone.copy()?,
            kind: self.kind,
        })
    }
}
