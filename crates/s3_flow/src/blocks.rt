//! The blocks that bytes are cut into.
ghost use Rattle.std.specs.Prelude.{◌≡◌, ◌*◌, true, false, MatchOption, length};
ghost use Rattle.flow_model.specs.Blocks.{has_piece, is_long};

use object_bytes::Pieces;

// Objects of so many bytes and more are kept in blocks.
const INLINE_LIMIT: usize = 3072;

/// The bytes are kept in blocks.
pub fn is_long(body: &[u8]) -> bool
    ensures { result ≡ is_long body.now }
{
    body.len() >= INLINE_LIMIT
}

/// Bytes in pieces are kept in blocks.
pub fn are_long(body: &Pieces) -> bool
    ensures { result ≡ is_long body.now }
{
    body.len() >= INLINE_LIMIT
}

/// Where block `i` begins, in bytes from 0; none where there is no such block.
pub fn offset_of(block: u32, body: &[u8], i: u64) -> Option<u64>
    ensures { MatchOption result (has_piece block body.now i ≡ false)
        (λ offset. (has_piece block body.now i ≡ true) × (offset ≡ i * block)) }
{
    let offset = i.checked_mul(u64::from(block))?;
    if offset < body.len() as u64 {
        return Some(offset);
    }
    None
}
