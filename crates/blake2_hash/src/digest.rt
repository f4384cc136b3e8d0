//! A digest of 32 bytes.

/// A BLAKE2b digest of 32 bytes. Digests are ordered by their bytes.
#[derive(Clone, Copy, Debug, PartialEq, Eq, PartialOrd, Ord)]
pub struct Hash32(pub [u8; 32]);
