//! The name of one version of an object.
ghost use Rattle.std.specs.Prelude.{◌≡◌};
ghost use Rattle.crdt_rows.specs.FieldLaws.{version_identical};

use crdt_core::{Memory, Value};

/// One version of an object. Of two, the one with the later timestamp is newer, and at a tie the one with the
/// greater identifier.
#[derive(Clone, Copy, Debug, PartialEq, Eq, PartialOrd, Ord)]
pub struct Version {
    /// Milliseconds since 1970.
    pub ts: u64,
    /// The number of the request that writes the version.
    pub id: u64,
}

impl Value for Version {
    ghost identical = { version_identical };

    /// Takes no memory.
    fn copy(&self) -> Result<Version, Memory>
        ensures { result ≡ Ok self.now }
    {
        Ok(*self)
    }
}
