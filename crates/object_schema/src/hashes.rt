//! A block's hash as a value in a set.
ghost use Rattle.std.specs.Prelude.{◌≡◌};
ghost use Rattle.object_schema.specs.NameLaws.{name_identical};

use blake2_hash::Hash32;
use crdt_core::{Memory, Value};

/// A block's hash as a value in a set.
#[derive(Clone, Copy, Debug, PartialEq, Eq, PartialOrd, Ord)]
pub struct BlockName(pub Hash32);

impl Value for BlockName {
    ghost identical = { name_identical };

    /// Takes no memory.
    fn copy(&self) -> Result<BlockName, Memory>
        ensures { result ≡ Ok self.now }
    {
        Ok(*self)
    }
}
