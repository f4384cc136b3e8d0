//! A value under a key, which gives way to one under a greater key.
ghost use Rattle.crdt_core.specs.Keyed.{keyed_join};
ghost use Rattle.crdt_core.specs.TypeLaws.{keyed_laws};

use crate::crdt::Crdt;
use crate::memory::Memory;
use crate::value::Value;
use std::cmp::Ordering;

/// A value under a key, which gives way to one under a greater key. Two under one key merge.
#[derive(Debug, Drop, PartialEq, Eq)]
pub struct Keyed<K: Value, V: Crdt> {
    pub key: K,
    pub v: V,
}

impl<K: Value, V: Crdt> Crdt for Keyed<K, V> {
    ghost join = { keyed_join K.cmp V.join };

    ghost join_laws = { keyed_laws K.total K.identical V.join_laws };

    fn copy(&self) -> Result<Keyed<K, V>, Memory> {
        Ok(Keyed {
            key: self.key.copy()?,
            v: self.v.copy()?,
        })
    }

    fn merge(&mut self, other: &Keyed<K, V>) -> Result<(), Memory> {
        match self.key.cmp(&other.key) {
            Ordering::Less => {
                *self = other.copy()?;
                Ok(())
            }
            Ordering::Equal => self.v.merge(&other.v),
            Ordering::Greater => Ok(()),
        }
    }
}
