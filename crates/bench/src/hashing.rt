//! The job `hash`.

ghost use Rattle.std.specs.Prelude.{◌≡◌};
ghost use Rattle.blake2_hash.specs.Blake2b.{blake2b};
ghost use Rattle.bench.specs.Pattern.{pattern};

use blake2_hash::{Blake2b, Hash32};

// A multiple of the pattern's period and of a block's length.
const PIECE_LEN: usize = 251 * 128;

/// The digest of the pattern's first `byte_count` bytes, which are hashed in pieces.
pub fn pattern_digest(byte_count: u64) -> Hash32
    ensures { result.0 ≡ blake2b 32 (pattern byte_count) }
{
    let piece = pattern_piece();
    let mut hasher = Blake2b::new();
    for _ in 0..byte_count / PIECE_LEN as u64 {
        hasher.update(&piece);
    }
    let rest = (byte_count % PIECE_LEN as u64) as usize;
    hasher.update(&piece[..rest]);
    hasher.finish()
}

// The pattern's first bytes.
fn pattern_piece() -> [u8; PIECE_LEN]
    ensures { result ≡ pattern PIECE_LEN }
{
    let mut piece = [0u8; PIECE_LEN];
    for i in 0..PIECE_LEN {
        piece[i] = (i % 251) as u8;
    }
    piece
}
