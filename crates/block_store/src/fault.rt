//! Why a block store refuses.

use blake2_hash::Hash32;

/// Why a block isn't put or deleted. The store is then as it was.
#[derive(Clone, Copy, Debug, PartialEq, Eq)]
pub enum BlockFault {
    /// The bytes were put under a name that isn't their BLAKE2b-256.
    WrongHash { named: Hash32, found: Hash32 },
    /// The block has so many live references.
    InUse(u64),
    /// The allocator had none to give.
    Memory,
}
