//! An object in few words, which the tests share.
use blake2_hash::Hash32;
use crdt_core::{Bytes, List, Memory};
use crdt_rows::{Body, Meta, ObjectRow, State, Version};
use shared_value::Shared;
use std::alloc::Global;

/// The MD5 digest of `abc` (RFC 1321).
pub const ETAG: [u8; 16] = [
    0x90, 0x01, 0x50, 0x98, 0x3c, 0xd2, 0x4f, 0xb0, 0xd6, 0x96, 0x3f, 0x7d, 0x28, 0xe1, 0x7f, 0x72,
];

/// The last millisecond of the first second of 29 February 2000.
pub const WRITTEN: Version = Version {
    ts: 951_782_400_999,
    id: 1,
};

/// What is said of `abc`, stored with an own header in front of its Content-Type.
pub fn meta(alloc: Global) -> Result<Meta, Memory> {
    let mut headers = List::new(alloc);
    let name = Bytes::from_slice(alloc, b"x-amz-meta-owner")?;
    headers.push((name, Bytes::from_slice(alloc, b"me")?))?;
    let name = Bytes::from_slice(alloc, b"content-type")?;
    headers.push((name, Bytes::from_slice(alloc, b"text/plain")?))?;
    Ok(Meta {
        size: 3,
        etag: ETAG,
        headers,
    })
}

/// The row of `abc` under a key, or of a key that was deleted.
pub fn row(alloc: Global, key: &[u8], there: bool) -> Result<Shared<ObjectRow>, Memory> {
    let body = if there {
        Body::Inline(meta(alloc)?, Bytes::from_slice(alloc, b"abc")?)
    } else {
        Body::Marker
    };
    let state = State::Complete(body);
    if !state.is_sized() {
        return Err(Memory::Full);
    }
    let key = Bytes::from_slice(alloc, key)?;
    let row = ObjectRow::single(alloc, Hash32([0x22; 32]), key, WRITTEN, state)?;
    Shared::new(alloc, row)
}
