//! What the tries of a table have after merges, changes of rows and drops, against values from outside. The values were
//! computed by the Python of tables.rt, `value` of the pairs (H(key), H(bytes)) of the rows of one table and partition.
use crate::made::{Made, Shape, row};
use crate::tables::table;
use blake2_hash::{Hash32, blake2b_256};
use crdt_core::Memory;
use merkle_sync::{Walk, WalkEnd};
use object_schema::S3Schema;
use std::alloc::Global;
use std::test::Fail;
use table_schema::Schema;
use table_store::Table;

// References to block 0x11 of versions 5 and 6, and that of version 5 when it is deleted.
const FIRST: Made = Made::Reference(0x11, 5, false);

const SECOND: Made = Made::Reference(0x11, 6, false);

const GONE: Made = Made::Reference(0x11, 5, true);

// The value of no row, of the first reference, of both, of both where the first is deleted, and of the deleted one.
const NOTHING: &str = "0000000000000000000000000000000000000000000000000000000000000000";

const LIVE: &str = "7f14e1436e99cdae90013aade548d438de9510b9e92ea8959f811e2103e9ccad";

const BOTH: &str = "822e2219db0b994d3bb64ff9bfb15bae3aa1b63e673d0cbaec28b717a9787aa8";

const BOTH_ONE_GONE: &str = "a2d1ff2d8ff49afebdf5d91c520a2fbd4386d67aa089a24517240b469a7c8cc0";

const DELETED: &str = "6f443c2dd3ea8beddb670982b7c0417209aeb657194bbc5a5fc29f8f56f5ed2c";

// Whether the trie of the references in partition 0x11 has this value.
fn has_value(alloc: Global, table: &mut Table<S3Schema>, value: &str) -> Result<bool, Memory> {
    let found = table.value(3, 0x11, &[])?;
    Ok(hex::encode(alloc, &found.0)?.as_str() == value)
}

#[test]
fn values_after_merges(rt: HostRuntime) -> Result<(), Fail> {
    let alloc = rt.alloc();
    let mut table: Table<S3Schema> = Table::new(alloc)?;
    assert!(rt; has_value(alloc, &mut table, NOTHING)?);
    for (made, value) in [
        (FIRST, LIVE),
        (SECOND, BOTH),
        (GONE, BOTH_ONE_GONE),
        (FIRST, BOTH_ONE_GONE),
    ] {
        table.take_in(row(alloc, made)?)?;
        assert!(rt; has_value(alloc, &mut table, value)?);
    }
    Ok(())
}

// The row changes twice before the trie takes it in.
#[test]
fn value_of_a_row_that_changed_twice(rt: HostRuntime) -> Result<(), Fail> {
    let alloc = rt.alloc();
    let mut table = table(alloc, &[FIRST, GONE, FIRST])?;
    table.settle()?;
    assert!(rt; has_value(alloc, &mut table, DELETED)?);
    Ok(())
}

#[test]
fn values_after_a_drop(rt: HostRuntime) -> Result<(), Fail> {
    let alloc = rt.alloc();
    let mut table = table(alloc, &[FIRST, SECOND])?;
    assert!(rt; has_value(alloc, &mut table, BOTH)?);
    table.drop_partition(0x11)?;
    assert!(rt; has_value(alloc, &mut table, NOTHING)?);
    table.take_in(row(alloc, GONE)?)?;
    assert!(rt; has_value(alloc, &mut table, DELETED)?);
    Ok(())
}

// Three markers of one partition, whose key hashes begin with 0x88, 0x26 and 0xda.
const MARKERS: [Made; 3] = [
    Made::Object(b"a", 1, 1, Shape::Marker),
    Made::Object(b"b", 1, 1, Shape::Marker),
    Made::Object(b"c", 1, 1, Shape::Marker),
];

const CHILDREN: [(u8, &str); 3] = [
    (
        0x26,
        "211d1026cea6954438ffe308dcbae922054e4c2b44ba0e33329d2a468b5752f3",
    ),
    (
        0x88,
        "667a4611d896252a54787d5bf35672ebe92cb82c97a3164d326b1b3025e86f6f",
    ),
    (
        0xda,
        "8b015a41d3030c33257e7836527a576683378be3bd9c391c0aebdc3e4c36aba3",
    ),
];

#[test]
fn children_of_a_partition(rt: HostRuntime) -> Result<(), Fail> {
    let alloc = rt.alloc();
    let mut table = table(alloc, &MARKERS)?;
    let children = table.children(1, 0x22, &[])?;
    assert_eq!(rt; children.len(), 3);
    for (child, (byte, value)) in children.iter().zip(CHILDREN.iter()) {
        assert_eq!(rt; child.0, *byte);
        assert_eq!(rt; hex::encode(alloc, &child.1.0)?.as_str(), *value);
    }
    Ok(())
}

// Whether there are markers in their partition, in another one, references there, and rows of no table.
fn there(table: &Table<S3Schema>) -> [bool; 4] {
    [
        table.has_rows(1, 0x22),
        table.has_rows(1, 0x23),
        table.has_rows(3, 0x22),
        table.has_rows(0, 0x22),
    ]
}

#[test]
fn partitions_that_have_rows(rt: HostRuntime) -> Result<(), Fail> {
    let mut table = table(rt.alloc(), &MARKERS)?;
    assert_eq!(rt; there(&table), [true, false, false, false]);
    table.drop_partition(0x22)?;
    assert_eq!(rt; there(&table), [false; 4]);
    Ok(())
}

// The hash of the row's key.
fn key_hash(alloc: Global, made: Made) -> Result<Hash32, Memory> {
    let key = S3Schema::key(alloc, &row(alloc, made)?)?;
    Ok(blake2b_256(key.as_slice()))
}

#[test]
fn rows_that_are_noted(rt: HostRuntime) -> Result<(), Fail> {
    let alloc = rt.alloc();
    let mut table = table(alloc, &MARKERS)?;
    let noted = [
        (1, key_hash(alloc, MARKERS[1])?),
        (3, key_hash(alloc, MARKERS[2])?),
    ];
    let found = table.noted_rows(0x22, &noted)?;
    assert_eq!(rt; found.len(), 1);
    for kept in &found {
        assert!(rt; *kept == row(alloc, MARKERS[1])?);
    }
    table.settle()?;
    assert_eq!(rt; table.noted_rows(0x22, &noted)?.len(), 1);
    assert_eq!(rt; table.noted_rows(0x23, &noted)?.len(), 0);
    Ok(())
}

// How many keys a walk over the markers notes after the other node told that it has these children.
fn pushed(alloc: Global, theirs: &[(u8, Hash32)]) -> Result<usize, Memory> {
    let mut table = table(alloc, &MARKERS)?;
    let mut walk = Walk::start(alloc, 0x22, &[1])?;
    match table.answer(&mut walk, 1, &[], theirs)? {
        WalkEnd::Same => Ok(0),
        WalkEnd::Ask(_) => Ok(usize::MAX),
        WalkEnd::Push(keys) => Ok(keys.len()),
    }
}

#[test]
fn walks_note_what_differs(rt: HostRuntime) -> Result<(), Fail> {
    let alloc = rt.alloc();
    let own = table(alloc, &MARKERS)?.children(1, 0x22, &[])?;
    for (told, count) in [(0, 3), (1, 2), (3, 0)] {
        let theirs: Vec<(u8, Hash32)> = own.iter().take(told).copied().collect(alloc)?;
        assert_eq!(rt; pushed(alloc, theirs.as_slice())?, count);
    }
    Ok(())
}
