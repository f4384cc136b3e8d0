//! The value that was written last.
ghost use Rattle.crdt_core.specs.Lww.{lww_join};
ghost use Rattle.crdt_core.specs.TypeLaws.{lww_laws};

use crate::crdt::Crdt;
use crate::memory::Memory;
use std::cmp::Ordering;

/// The value that was written last. Two that were written at one time merge.
#[derive(Debug, Drop, PartialEq, Eq)]
pub struct Lww<V: Crdt> {
    /// When it was written, in milliseconds or any other unit that its writers share.
    pub ts: u64,
    pub v: V,
}

impl<V: Crdt> Crdt for Lww<V> {
    ghost join = { lww_join V.join };

    ghost join_laws = { lww_laws V.join_laws };

    fn copy(&self) -> Result<Lww<V>, Memory> {
        Ok(Lww {
            ts: self.ts,
            v: self.v.copy()?,
        })
    }

    fn merge(&mut self, other: &Lww<V>) -> Result<(), Memory> {
        match self.ts.cmp(&other.ts) {
            Ordering::Less => {
                *self = other.copy()?;
                Ok(())
            }
            Ordering::Equal => self.v.merge(&other.v),
            Ordering::Greater => Ok(()),
        }
    }
}
