//! A value that may be deleted for good.
ghost use Rattle.crdt_core.specs.Deletable.{deletable_join};
ghost use Rattle.crdt_core.specs.TypeLaws.{deletable_laws};

use crate::crdt::Crdt;
use crate::memory::Memory;

/// A value that may be deleted for good.
#[derive(Debug, Drop, PartialEq, Eq)]
pub enum Deletable<V: Crdt> {
    Present(V),
    Deleted,
}

impl<V: Crdt> Crdt for Deletable<V> {
    ghost join = { deletable_join V.join };

    ghost join_laws = { deletable_laws V.join_laws };

    fn copy(&self) -> Result<Deletable<V>, Memory> {
        match self {
            Deletable::Present(value) => Ok(Deletable::Present(value.copy()?)),
            Deletable::Deleted => Ok(Deletable::Deleted),
        }
    }

    fn merge(&mut self, other: &Deletable<V>) -> Result<(), Memory> {
        match other {
            Deletable::Present(theirs) => match self {
                Deletable::Present(ours) => ours.merge(theirs),
                Deletable::Deleted => Ok(()),
            },
            Deletable::Deleted => {
                *self = Deletable::Deleted;
                Ok(())
            }
        }
    }
}
