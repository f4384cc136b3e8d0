//! Names, and the set in which they are found.
ghost use Rattle.std.specs.Prelude.{◌≡◌, ◌++◌, [], ◌∷◌, ◌||◌, ℕ, List, nat_eq, OnOk, OnErr};
ghost use Rattle.std.specs.Cmp.Lexicographic.{pointwise};
ghost use Rattle.crdt_core.specs.Outcomes.{OnlyWant};
ghost use Rattle.name_set.specs.Found.{has_name, finds};

use crdt_core::{Bytes, List, Memory};
use std::alloc::Global;
use std::collections::BTreeSet;
use std::marker::Model;

/// Names in the order in which they came.
#[derive(Debug, Drop)]
pub struct Names {
    list: List<Bytes>,
    known: BTreeSet<Vec<u8>>,
}

impl Model for Names {
    ghost use Rattle.std.specs.Prelude.{List, ℕ};
    ghost use Rattle.name_set.specs.Found.{AreFound};

    ghost Value = { List (List ℕ) };

    ghost view = { λ n. n.list };

    ghost invariant = { λ n. AreFound n.known n.list };
}

// Adds a name to those that are known.
fn add(alloc: Global, known: &mut BTreeSet<Vec<u8>>, name: &[u8]) -> Result<(), Memory>
    ensures added { OnOk result ((other : List ℕ) →
        finds other known.new ≡ (pointwise nat_eq other name.now || finds other known.old)) }
    ensures unchanged { OnErr result (known.new.keys ≡ known.old.keys) }
    ensures want { OnlyWant result }
{
    let name = Vec::from_slice(alloc, name)?;
    let _ = known.insert(name)?;
    Ok(())
}

impl Names {
    /// No name.
    pub fn new(alloc: Global) -> Names
        ensures { result ≡ [] }
    {
        Names {
            list: List::new(alloc),
            known: BTreeSet::new(alloc),
        }
    }

    /// The name is one of these. Looks at as many names as the logarithm of their number.
    pub fn has(&self, name: &[u8]) -> bool
        ensures { result ≡ has_name name.now self.now }
    {
        self.known.contains(name)
    }

    /// Adds a name at the end.
    pub fn push(&mut self, name: &[u8]) -> Result<(), Memory>
        ensures pushed { OnOk result (self.new ≡ self.old ++ name.now ∷ []) }
        ensures unchanged { OnErr result (self.new ≡ self.old) }
        ensures want { OnlyWant result }
    {
        let alloc = self.list.allocator();
        self.list.push(Bytes::from_slice(alloc, name)?)?;
        match add(alloc, &mut self.known, name) {
            Ok(()) => Ok(()),
            Err(want) => {
                let _ = self.list.pop();
                Err(want)
            }
        }
    }

    /// The names, the first first.
    pub fn list(&self) -> &List<Bytes>
        ensures { result.now ≡ self.now }
    {
        &self.list
    }
}
