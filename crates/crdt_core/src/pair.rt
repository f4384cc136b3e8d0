//! Two values that merge side by side.
ghost use Rattle.crdt_core.specs.Pair.{pair_join};
ghost use Rattle.crdt_core.specs.TypeLaws.{pair_laws};

use crate::crdt::Crdt;
use crate::memory::Memory;

/// Two values that merge side by side.
#[derive(Debug, Drop, PartialEq, Eq)]
pub struct Pair<A: Crdt, B: Crdt> {
    pub a: A,
    pub b: B,
}

impl<A: Crdt, B: Crdt> Crdt for Pair<A, B> {
    ghost join = { pair_join A.join B.join };

    ghost join_laws = { pair_laws A.join_laws B.join_laws };

    fn copy(&self) -> Result<Pair<A, B>, Memory> {
        Ok(Pair {
            a: self.a.copy()?,
            b: self.b.copy()?,
        })
    }

    fn merge(&mut self, other: &Pair<A, B>) -> Result<(), Memory> {
        // The first part merges in a copy and the second in place, last: where either fails, nothing
        // has changed.
        let mut a = self.a.copy()?;
        a.merge(&other.a)?;
        self.b.merge(&other.b)?;
        self.a = a;
        Ok(())
    }
}
