//! The greatest value seen.
ghost use Rattle.crdt_core.specs.Max.{max_join};
ghost use Rattle.crdt_core.specs.TypeLaws.{max_laws};

use crate::crdt::Crdt;
use crate::memory::Memory;
use crate::value::Value;
use std::cmp::Ordering;

/// The greatest value seen.
#[derive(Debug, Drop, PartialEq, Eq)]
pub struct Max<T: Value>(pub T);

impl<T: Value> Crdt for Max<T> {
    ghost join = { max_join T.cmp };

    ghost join_laws = { max_laws T.total T.identical };

    fn copy(&self) -> Result<Max<T>, Memory> {
        Ok(Max(self.0.copy()?))
    }

    fn merge(&mut self, other: &Max<T>) -> Result<(), Memory> {
        match self.0.cmp(&other.0) {
            Ordering::Less => {
                self.0 = other.0.copy()?;
                Ok(())
            }
            Ordering::Equal | Ordering::Greater => Ok(()),
        }
    }
}
