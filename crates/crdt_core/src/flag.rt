//! A flag that stays up once it is raised.
ghost use Rattle.std.specs.Prelude.{◌≡◌, IsOk};
ghost use Rattle.crdt_core.specs.Flag.{or_join};
ghost use Rattle.crdt_core.specs.TypeLaws.{or_laws};

use crate::crdt::Crdt;
use crate::memory::Memory;

/// A flag that stays up once it is raised.
#[derive(Clone, Copy, Debug, PartialEq, Eq)]
pub struct Bool(pub bool);

impl Crdt for Bool {
    ghost join = { or_join };

    ghost join_laws = { or_laws };

    /// Takes no memory.
    fn copy(&self) -> Result<Bool, Memory>
        ensures { result ≡ Ok self.now }
    {
        Ok(*self)
    }

    /// Takes no memory.
    fn merge(&mut self, other: &Bool) -> Result<(), Memory>
        ensures done { IsOk result }
        ensures joined { self.new ≡ or_join self.old other.now }
    {
        self.0 |= other.0;
        Ok(())
    }
}
