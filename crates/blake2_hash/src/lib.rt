//! The hash function BLAKE2b without a key (RFC 7693).
//!
//! A message is bytes, and its digest has 1 to 64 bytes. Positions, bucket identifiers, block names
//! and the nodes of tries are digests of 32 bytes, a `Hash32`. `blake2b_256` gives it for bytes that
//! lie in one slice, a `Blake2b` for bytes that come in pieces, and `blake2b` has any length.
//!
//! Each digest is the standard's, which `specs/Blake2b.antt` has as a fold of the compression
//! function over the blocks of the padded message. A `Blake2b` holds the message so far, so any
//! cutting into pieces gives one digest. No call takes memory, and only the last block, or one that
//! is split between pieces, is copied.
#![tactic(auto)]

ghost use Rattle.std.specs.Prelude.{◌≡◌, ◌≤◌, length};
ghost use Rattle.blake2_hash.specs.Blake2b.{blake2b};

mod compress;
mod digest;
mod hasher;

pub use digest::Hash32;
pub use hasher::Blake2b;

/// Fills `out` with the digest of `bytes` that has its length, 1 to 64 bytes.
pub fn blake2b(bytes: &[u8], out: &mut [u8])
    requires some { 1 ≤ length out.old }
    requires at_most_64 { length out.old ≤ 64 }
    ensures { out.new ≡ blake2b (length out.old) bytes.now }
{
    let mut hasher = Blake2b::start(out.len());
    hasher.absorb(bytes);
    hasher.digest_into(out);
}

/// The digest of `bytes` that has 32 bytes.
pub fn blake2b_256(bytes: &[u8]) -> Hash32
    ensures { result.0 ≡ blake2b 32 bytes.now }
{
    let mut hasher = Blake2b::new();
    hasher.update(bytes);
    hasher.finish()
}
