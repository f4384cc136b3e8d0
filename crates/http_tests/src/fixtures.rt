//! Connections that come in pieces, and heads as text.
ghost use Rattle.std.specs.Prelude.{◌<◌, IfOk, IsSome};

use http_wire::{Head, HeadEnd, Kept, read_body, read_head};
use lab_outside::{Failed, Link, PieceLink};
use std::alloc::{AllocError, Global};
use std::test::Fail;

/// The link with its first connection, which is there.
fn present<L: Link + Drop>(link: L) -> Result<L, Failed>
    ensures { IfOk result (λ link. IsSome (L.present link)) }
{
    let mut link = link;
    match link.next() {
        Ok(true) => Ok(link),
        _ => Err(Failed),
    }
}

/// A connection that is present and gives these bytes, `size` at a time. The reads of these numbers fail.
pub fn connection(
    alloc: Global,
    bytes: &[u8],
    size: usize,
    fails: &[u64],
) -> Result<PieceLink, Fail>
    requires { 0 < size }
    ensures { IfOk result (λ link. IsSome (⟦<PieceLink as Link>⟧.present link)) }
{
    let bytes = bytes.to_vec(alloc)?;
    let fails = fails.to_vec(alloc)?;
    let link = present(PieceLink::new(bytes, size, fails))?;
    Ok(link)
}

/// A word for each answer that isn't a head.
fn word(end: HeadEnd) -> &'static [u8] {
    match end {
        HeadEnd::Closed => b"closed",
        HeadEnd::TooLong => b"too long",
        HeadEnd::Bad => b"bad",
        HeadEnd::Failed => b"failed",
        HeadEnd::Memory => b"memory",
    }
}

/// A head as `METHOD TARGET MINOR`, then `[NAME=VALUE]` for each header; a word for another answer.
pub fn text(alloc: Global, answer: &Result<Head, HeadEnd>) -> Result<Vec<u8>, AllocError> {
    let mut text = Vec::new(alloc);
    match answer {
        Ok(head) => {
            text.extend_from_slice(head.method.as_slice())?;
            text.extend_from_slice(b" ")?;
            text.extend_from_slice(head.target.as_slice())?;
            text.extend_from_slice(if head.minor == 0 { b" 0" } else { b" 1" })?;
            for (name, value) in head.headers.as_slice() {
                text.extend_from_slice(b"[")?;
                text.extend_from_slice(name.as_slice())?;
                text.extend_from_slice(b"=")?;
                text.extend_from_slice(value.as_slice())?;
                text.extend_from_slice(b"]")?;
            }
        }
        Err(end) => text.extend_from_slice(word(*end))?,
    }
    Ok(text)
}

/// Whether the next head, as text, is this.
pub fn next_head<L: Link>(
    alloc: Global,
    link: &mut L,
    kept: &mut Kept,
    said: &[u8],
) -> Result<bool, AllocError>
    requires { IsSome (L.present link.old) }
    ensures present { IsSome (L.present link.new) }
{
    let head = text(alloc, &read_head(alloc, link, kept))?;
    Ok(head.as_slice() == said)
}

/// Whether the body of so many bytes is these.
pub fn next_body<L: Link>(alloc: Global, link: &mut L, kept: &mut Kept, bytes: &[u8]) -> bool
    requires { IsSome (L.present link.old) }
    ensures present { IsSome (L.present link.new) }
{
    let body = read_body(alloc, link, kept, bytes.len() as u64);
    body.is_ok_and(|body| body.as_slice() == bytes)
}

/// Whether the next head, as text, is this: where a read fails, at the second try.
pub fn head_at_last<L: Link>(
    alloc: Global,
    link: &mut L,
    kept: &mut Kept,
    said: &[u8],
) -> Result<bool, AllocError>
    requires { IsSome (L.present link.old) }
    ensures present { IsSome (L.present link.new) }
{
    let mut head = text(alloc, &read_head(alloc, link, kept))?;
    if head.as_slice() == b"failed".as_slice() {
        head = text(alloc, &read_head(alloc, link, kept))?;
    }
    Ok(head.as_slice() == said)
}

/// Whether the body of so many bytes is these: where a read fails, at the second try.
pub fn body_at_last<L: Link>(alloc: Global, link: &mut L, kept: &mut Kept, bytes: &[u8]) -> bool
    requires { IsSome (L.present link.old) }
    ensures present { IsSome (L.present link.new) }
{
    let mut body = read_body(alloc, link, kept, bytes.len() as u64);
    if body.is_err() {
        body = read_body(alloc, link, kept, bytes.len() as u64);
    }
    body.is_ok_and(|body| body.as_slice() == bytes)
}
