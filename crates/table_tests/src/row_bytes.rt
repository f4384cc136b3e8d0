//! Rows of each shape with their bytes, written by hand from the table, and bytes that no row has.
use crate::made::{Made, Shape, merged};
use crdt_core::{Bytes, Memory};
use row_codec::{decode, encode, rows_are_read_back, states_are_ordered_as_bytes};
use std::alloc::Global;
use std::test::Fail;
use table_schema::RowFault;

// Table 1, thirty-two bytes 22, the key "k", and two versions.
const OBJECT: [u8; 42] = *b"\x01\
\x22\x22\x22\x22\x22\x22\x22\x22\x22\x22\x22\x22\x22\x22\x22\x22\
\x22\x22\x22\x22\x22\x22\x22\x22\x22\x22\x22\x22\x22\x22\x22\x22\
\0\0\0\x01k\0\0\0\x02";

// The versions of that object.
const FIRST: [u8; 16] = *b"\0\0\0\0\0\0\0\x04\0\0\0\0\0\0\0\x02";

const SECOND: [u8; 16] = *b"\0\0\0\0\0\0\0\x05\0\0\0\0\0\0\0\x01";

// Table 3, thirty-two bytes 11, and the version 5.
const REFERENCE: [u8; 41] = *b"\x03\
\x11\x11\x11\x11\x11\x11\x11\x11\x11\x11\x11\x11\x11\x11\x11\x11\
\x11\x11\x11\x11\x11\x11\x11\x11\x11\x11\x11\x11\x11\x11\x11\x11\
\0\0\0\0\0\0\0\x05";

fn joined(alloc: Global, parts: &[&[u8]]) -> Result<Bytes, Memory> {
    let mut all = Bytes::new(alloc);
    for part in parts {
        all.extend_from_slice(*part)?;
    }
    Ok(all)
}

// Whether the merged rows are written as these bytes, and read from them.
fn is_spelled(alloc: Global, first: Made, other: Made, parts: &[&[u8]]) -> Result<bool, Memory> {
    let bytes = joined(alloc, parts)?;
    let row = merged(alloc, first, &[other])?;
    let is_read = match decode(alloc, bytes.as_slice()) {
        Ok(read) => read == row,
        Err(_) => false,
    };
    Ok(is_read && encode(alloc, &row)? == bytes)
}

fn is_not_a_row(alloc: Global, parts: &[&[u8]]) -> Result<bool, Memory> {
    let bytes = joined(alloc, parts)?;
    Ok(matches!(decode(alloc, bytes.as_slice()), Err(RowFault::NotARow)))
}

const LIVE: Made = Made::Reference(0x11, 5, false);

const GONE: Made = Made::Reference(0x11, 5, true);

#[test]
fn reference_row_bytes(rt: HostRuntime) -> Result<(), Fail> {
    assert!(rt; is_spelled(rt.alloc(), LIVE, LIVE, &[&REFERENCE, b"\0"])?);
    assert!(rt; is_spelled(rt.alloc(), LIVE, GONE, &[&REFERENCE, b"\x01"])?);
    for last in [b"\x02".as_slice(), b"\0\0", b""] {
        assert!(rt; is_not_a_row(rt.alloc(), &[&REFERENCE, last])?);
    }
    rows_are_read_back();
    states_are_ordered_as_bytes();
    Ok(())
}

// The etag, and one header: `a` with the value `bc`.
const META: [u8; 31] = *b"\x33\x33\x33\x33\x33\x33\x33\x33\x33\x33\x33\x33\x33\x33\x33\x33\
\0\0\0\x01\0\0\0\x01a\0\0\0\x02bc";

const INLINE: [u8; 9] = *b"\x03\0\0\0\0\0\0\0\x03";

const INLINE_OF_FOUR: [u8; 9] = *b"\x03\0\0\0\0\0\0\0\x04";

const KEPT: [u8; 9] = *b"\x04\0\0\0\0\0\0\x10\0";

const HASH: [u8; 32] = [0x55; 32];

fn version(ts: u64, id: u64, shape: Shape) -> Made {
    Made::Object(b"k", ts, id, shape)
}

#[test]
fn object_row_bytes(rt: HostRuntime) -> Result<(), Fail> {
    let rows: [(Shape, Shape, &[&[u8]]); 3] = [
        (
            Shape::Marker,
            Shape::Uploading,
            &[&OBJECT, &FIRST, b"\x02", &SECOND, b"\0"],
        ),
        (
            Shape::Inline,
            Shape::Aborted,
            &[
                &OBJECT,
                &FIRST,
                &INLINE,
                &META,
                b"\0\0\0\x03def",
                &SECOND,
                b"\x01",
            ],
        ),
        (
            Shape::Kept,
            Shape::Uploading,
            &[&OBJECT, &FIRST, &KEPT, &META, &HASH, &SECOND, b"\0"],
        ),
    ];
    for (first, second, parts) in rows {
        let (first, second) = (version(4, 2, first), version(5, 1, second));
        assert!(rt; is_spelled(rt.alloc(), first, second, parts)?);
    }
    Ok(())
}

#[test]
fn bytes_of_no_object_row(rt: HostRuntime) -> Result<(), Fail> {
    let rows: [&[&[u8]]; 3] = [
        // The entries descend.
        &[&OBJECT, &SECOND, b"\0", &FIRST, b"\x01"],
        // The second is complete.
        &[&OBJECT, &FIRST, b"\0", &SECOND, b"\x02"],
        // Inline bytes that are not as many as their size says.
        &[
            &OBJECT,
            &FIRST,
            &INLINE_OF_FOUR,
            &META,
            b"\0\0\0\x03def",
            &SECOND,
            b"\x01",
        ],
    ];
    for parts in rows {
        assert!(rt; is_not_a_row(rt.alloc(), parts)?);
    }
    Ok(())
}

#[test]
fn version_row_bytes(rt: HostRuntime) -> Result<(), Fail> {
    let blocks = Made::Blocks(7, &[(9, 0x55)]);
    let place = b"\x02\0\0\0\0\0\0\0\x07\0\0\0\0\x01\0\0\0\x01\0\0\0\0\0\0\0\x09";
    assert!(rt; is_spelled(rt.alloc(), blocks, blocks, &[place, &HASH, b"\0\0\x10\0"])?);
    let deleted = b"\x02\0\0\0\0\0\0\0\x07\x01";
    assert!(rt; is_spelled(rt.alloc(), blocks, Made::Deleted(7), &[deleted])?);
    Ok(())
}
