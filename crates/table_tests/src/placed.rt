//! Rows as the cluster sees them: their places, their bytes, and what their changes call for.
use crate::made::{Made, Shape, merged, row};
use blake2_hash::blake2b_256;
use crdt_core::Memory;
use crdt_rows::AnyRow;
use object_schema::S3Schema;
use std::alloc::Global;
use std::test::Fail;
use table_schema::{RowFault, Schema, partition};

fn calls_for<S: Schema>(alloc: Global, old: &S::Row, new: &S::Row) -> Result<Vec<S::Row>, Memory> {
    S::triggers(alloc, old, new)
}

// What a change to a row calls for.
fn changed(alloc: Global, old: &[Made; 2], change: Made) -> Result<Vec<AnyRow>, Memory> {
    let before = merged(alloc, old[0], &[old[1]])?;
    let after = merged(alloc, old[0], &[old[1], change])?;
    calls_for::<S3Schema>(alloc, &before, &after)
}

// Whether it calls for exactly these two rows.
fn change_calls_for(
    alloc: Global,
    old: &[Made; 2],
    change: Made,
    want: &[Made; 2],
) -> Result<bool, Memory> {
    let want = [row(alloc, want[0])?, row(alloc, want[1])?];
    Ok(changed(alloc, old, change)?.as_slice() == want.as_slice())
}

#[test]
fn versions_and_blocks_that_are_given_up(rt: HostRuntime) -> Result<(), Fail> {
    for (old, change, want) in [
        (
            [
                Made::Object(b"k", 1, 9, Shape::Uploading),
                Made::Object(b"k", 2, 3, Shape::Uploading),
            ],
            Made::Object(b"k", 3, 7, Shape::Kept),
            [Made::Deleted(9), Made::Deleted(3)],
        ),
        (
            [
                Made::Blocks(7, &[(0, 0x33), (16, 0x11)]),
                Made::Blocks(7, &[(32, 0x33)]),
            ],
            Made::Deleted(7),
            [
                Made::Reference(0x11, 7, true),
                Made::Reference(0x33, 7, true),
            ],
        ),
    ] {
        assert!(rt; change_calls_for(rt.alloc(), &old, change, &want)?);
    }
    Ok(())
}

fn reads_back<S: Schema>(alloc: Global, row: &S::Row) -> Result<S::Row, RowFault> {
    match S::row_bytes(alloc, row) {
        Ok(bytes) => S::row_from(alloc, bytes.as_slice()),
        Err(_) => Err(RowFault::Memory),
    }
}

// How long an object's row key is, and whether the row is read back from its bytes.
fn key_and_bytes(alloc: Global) -> Result<(usize, bool), Memory> {
    let marker = row(alloc, Made::Object(b"k", 8, 5, Shape::Marker))?;
    let is_read_back = match reads_back::<S3Schema>(alloc, &marker) {
        Ok(read) => read == marker,
        Err(_) => false,
    };
    Ok((S3Schema::key(alloc, &marker)?.len(), is_read_back))
}

#[test]
fn keys_and_bytes_of_rows(rt: HostRuntime) -> Result<(), Fail> {
    assert_eq!(rt; key_and_bytes(rt.alloc())?, (33, true));
    Ok(())
}

// Whether the row of version 5 lies at the digest of its number, and a reference in the partition of its block.
fn are_placed(alloc: Global) -> Result<bool, Memory> {
    let version = row(alloc, Made::Deleted(5))?;
    let reference = row(alloc, Made::Reference(0x11, 5, false))?;
    Ok(
        S3Schema::position(&version) == blake2b_256(b"\0\0\0\0\0\0\0\x05")
            && partition::<S3Schema>(&reference) == 0x11,
    )
}

#[test]
fn places_of_rows(rt: HostRuntime) -> Result<(), Fail> {
    assert!(rt; are_placed(rt.alloc())?);
    Ok(())
}
