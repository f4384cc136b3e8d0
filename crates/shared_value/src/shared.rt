//! A value with several owners.
ghost use Rattle.std.specs.Prelude.{◌≡◌, IfOk};
ghost use Rattle.crdt_core.specs.Outcomes.{OnlyWant};

use crdt_core::{Crdt, Memory};
use std::alloc::Global;
use std::marker::Model;
use std::rc::Rc;

/// A value that may have several owners.
#[derive(Debug, Drop)]
pub struct Shared<T> {
    value: Rc<T, Global>,
    alloc: Global,
}

impl<T> Model for Shared<T> {
    ghost Value = { T };

    ghost view = { λ s. s.value.value };
}

impl<T> Shared<T> {
    /// The value.
    pub fn get(&self) -> &T
        ensures { result.now ≡ self.now }
    {
        self.value.as_ref()
    }
}

impl<T: Drop> Shared<T> {
    /// A value that has one owner yet.
    pub fn new(alloc: Global, value: T) -> Result<Shared<T>, Memory>
        ensures same { IfOk result (λ shared. shared ≡ value) }
        ensures want { OnlyWant result }
    {
        let value = Rc::new(alloc, value)?;
        Ok(Shared { value, alloc })
    }

    /// The same value for another owner. Copies none of it.
    pub fn share(&self) -> Result<Shared<T>, Memory>
        ensures same { IfOk result (λ shared. shared ≡ self.now) }
        ensures want { OnlyWant result }
    {
        let value = self.value.clone()?;
        Ok(Shared {
            value,
            alloc: self.alloc,
        })
    }
}

impl<T: PartialEq> PartialEq for Shared<T> {
    ghost eq = { T.eq };

    ghost laws = { T.laws };

    fn eq(&self, other: &Shared<T>) -> bool {
        self.get() == other.get()
    }
}

impl<T: Eq> Eq for Shared<T> {
    ghost laws = { T.Eq.laws };
}

impl<V: Crdt> Crdt for Shared<V> {
    ghost join = { V.join };

    ghost join_laws = { V.join_laws };

    /// Copies a pointer alone.
    fn copy(&self) -> Result<Shared<V>, Memory> {
        self.share()
    }

    /// A value with one owner merges where it is. Of one with more this owner gets a merged value of its own.
    fn merge(&mut self, other: &Shared<V>) -> Result<(), Memory> {
        if let Some(own) = Rc::get_mut(&mut self.value) {
            return own.merge(other.get());
        }
        let mut own = self.get().copy()?;
        own.merge(other.get())?;
        *self = Shared::new(self.alloc, own)?;
        Ok(())
    }
}
