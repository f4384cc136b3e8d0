//! The keyed digest of a text.
ghost use Rattle.std.specs.Prelude.{◌≡◌, ◌≤◌, length};
ghost use Rattle.sig_v4.specs.Hmac.{masked, short_hmac as short_hmac_of, hmac};

use sha2::{Digest, Sha256};

/// How many bytes a block has.
const BLOCK_SIZE: usize = 64;

/// A hasher that has taken the key, filled with zeros up to a block and masked.
fn masked_hash(key: &[u8], mask: u8) -> Sha256
    requires { length key.now ≤ 64 }
    ensures { ⟦<Sha256 as Digest>⟧.holds result (masked mask key.now) }
{
    let mut hash = Sha256::new();
    for b in key {
        let byte = [*b ^ mask];
        hash.update(byte.as_slice());
    }
    let rest = [mask; BLOCK_SIZE];
    hash.update(&rest[key.len()..]);
    hash
}

/// HMAC under a key of a block at most.
fn short_hmac(key: &[u8], text: &[u8]) -> [u8; 32]
    requires { length key.now ≤ 64 }
    ensures { result ≡ short_hmac_of key.now text.now }
{
    let mut inner = masked_hash(key, 0x36);
    inner.update(text);
    let inner = inner.finalize();
    let mut outer = masked_hash(key, 0x5c);
    outer.update(inner.as_slice());
    outer.finalize()
}

/// HMAC-SHA-256 (RFC 2104). Takes no memory.
pub fn hmac_sha256(key: &[u8], text: &[u8]) -> [u8; 32]
    ensures { result ≡ hmac key.now text.now }
{
    if key.len() > BLOCK_SIZE {
        let digest = Sha256::digest(key);
        short_hmac(&digest, text)
    } else {
        short_hmac(key, text)
    }
}
