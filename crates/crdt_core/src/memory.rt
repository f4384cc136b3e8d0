//! Why a call that takes memory, or that counts, gave up.
ghost use Rattle.std.specs.Prelude.{◌≡◌};
ghost use Rattle.crdt_core.specs.declared.memory.Memory.TheVariants.{Want};

use std::alloc::{AllocError, AllocFailed};

/// Why a call that takes memory, or that counts, gave up.
#[derive(Clone, Copy, Debug, PartialEq, Eq)]
pub enum Memory {
    /// The allocator had none to give.
    Want,
    /// A number would pass its type's greatest value, or a row to be encoded has a length or count of
    /// 2^32 or more.
    Full,
}

impl From<AllocError> for Memory {
    ghost from_gives = { λ _ r. r ≡ Want };

    fn from(_: AllocError) -> Memory {
        Memory::Want
    }
}

impl<T: Drop> From<AllocFailed<T>> for Memory {
    ghost from_gives = { λ _ r. r ≡ Want };

    fn from(_: AllocFailed<T>) -> Memory {
        Memory::Want
    }
}
