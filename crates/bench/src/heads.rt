//! The job `http`: heads that come in pieces.

ghost use Rattle.std.specs.Prelude.{◌≡◌, ◌<◌, length, IfOk};

use http_wire::{HeadEnd, Kept, read_head};
use lab_outside::{Link, PieceLink};
use std::alloc::{AllocError, Global};

// As many bytes as a head may have.
const HEAD_LEN: usize = 16_384;

/// Reads `count` heads, each of a connection whose bytes come `size` at a time, and says how many bytes
/// their targets have.
pub fn targets_read(alloc: Global, size: usize, count: u64) -> Result<u64, HeadEnd>
    requires { 0 < size }
{
    let mut sum = 0u64;
    for _ in 0..count {
        let link = PieceLink::new(head(alloc)?, size, Vec::new(alloc));
        sum = sum.saturating_add(target_read(alloc, link)?);
    }
    Ok(sum)
}

// How many bytes the target has of the head that the first connection begins with.
fn target_read<L: Link + Drop>(alloc: Global, link: L) -> Result<u64, HeadEnd> {
    let mut link = link;
    match link.next() {
        Ok(true) => {
            let head = read_head(alloc, &mut link, &mut Kept::new(alloc))?;
            Ok(head.target.len() as u64)
        }
        _ => Err(HeadEnd::Failed),
    }
}

// A head with a long target.
fn head(alloc: Global) -> Result<Vec<u8>, AllocError>
    ensures { IfOk result (λ bytes. length bytes.items ≡ 16384) }
{
    let line_end = b" HTTP/1.1\r\n\r\n";
    let mut bytes = Vec::with_capacity(alloc, HEAD_LEN)?;
    bytes.extend_from_slice(b"GET /")?;
    bytes.resize(HEAD_LEN - line_end.len(), b'a')?;
    bytes.extend_from_slice(line_end)?;
    Ok(bytes)
}
