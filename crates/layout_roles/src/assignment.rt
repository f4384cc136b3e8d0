//! Which nodes keep each partition.
ghost use Rattle.std.specs.Prelude.{◌≡◌, length, slice_get, Some, IsTrue, IfOk};
ghost use Rattle.crdt_core.specs.Outcomes.{OnlyWant};
ghost use Rattle.std.specs.List.{list_all};
ghost use Rattle.layout_roles.specs.Zones.{set_ascends};

use crdt_core::{List, Memory};

/// How many partitions there are.
pub const PARTITIONS: u16 = 256;

/// The set of three nodes of each of the 256 partitions, in order of partitions; each set ascends.
#[derive(Debug, Drop)]
pub struct Assignment {
    pub sets: List<[u8; 3]>,
    pub ghost whole: { length sets ≡ 256 },
    pub ghost ascending: { IsTrue (list_all set_ascends sets) },
}

impl Assignment {
    /// The nodes of a partition, ascending.
    pub fn set(&self, partition: u8) -> [u8; 3]
        ensures { slice_get self.now.sets partition ≡ Some result }
    {
        *self.sets.at(usize::from(partition))
    }

    pub fn copy(&self) -> Result<Assignment, Memory>
        ensures same { IfOk result (λ assignment. assignment ≡ self.now) }
        ensures want { OnlyWant result }
    {
        let sets = Vec::from_slice(self.sets.allocator(), self.sets.as_slice())?;
        Ok(Assignment {
            sets: List::from_vec(sets),
        })
    }
}
