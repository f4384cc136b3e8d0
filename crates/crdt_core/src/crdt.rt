//! Values that merge.
ghost use Rattle.std.specs.Prelude.{◌≡◌, IfOk, OnOk, OnErr};
ghost use Rattle.crdt_core.specs.Outcomes.{OnlyWant};
ghost use Rattle.crdt_core.specs.Laws.{JoinLaws};

use crate::memory::Memory;

/// A value that merges with others of its type, in any order and any number of times: a join
/// semilattice.
pub trait Crdt: Drop {
    ghost join: { Self → Self → Self };

    /// An equal value of its own.
    fn copy(&self) -> Result<Self, Memory>
        ensures same { IfOk result (λ x. x ≡ self.now) }
        ensures want { OnlyWant result };

    /// Takes in all that the other value holds.
    fn merge(&mut self, other: &Self) -> Result<(), Memory>
        ensures joined { OnOk result (self.new ≡ join self.old other.now) }
        ensures unchanged { OnErr result (self.new ≡ self.old) }
        ensures want { OnlyWant result };

    ghost join_laws: { JoinLaws join };
}
