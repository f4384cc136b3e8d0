//! What merging, reading and dropping rows gives with ample memory, and `top` against values from outside. Those
//! were computed by this Python, where a row is (table, partition, key, bytes):
//!
//!     H = lambda b: hashlib.blake2b(b, digest_size=32).digest()
//!     def value(pairs, depth=0):
//!         if not pairs: return bytes(32)
//!         if len(pairs) == 1: return H(b'\1' + pairs[0][0] + pairs[0][1])
//!         out = b'\2'
//!         for byte in range(256):
//!             some = [p for p in pairs if p[0][depth] == byte]
//!             if some: out += bytes([byte]) + value(some, depth + 1)
//!         return H(out)
//!     def top(rows): return H(b''.join(value([(H(k), H(r)) for t, q, k, r in rows if (t, q) == (table, p)])
//!         for table in (1, 2, 3) for p in range(256)))
use crate::made::{BUCKET, Made, Shape, row};
use blake2_hash::Hash32;
use crdt_core::Memory;
use crdt_rows::AnyRow;
use object_schema::S3Schema;
use std::alloc::Global;
use std::collections::BTreeSet;
use std::test::Fail;
use table_schema::{Schema, partition};
use table_store::Table;

// The markers of `a`, `b` and `c`, and a reference.
const ROWS: [Made; 4] = [
    Made::Object(b"a", 1, 1, Shape::Marker),
    Made::Object(b"b", 1, 1, Shape::Marker),
    Made::Object(b"c", 1, 1, Shape::Marker),
    Made::Reference(0x11, 6, false),
];

pub fn table(alloc: Global, rows: &[Made]) -> Result<Table<S3Schema>, Memory> {
    let mut table = Table::new(alloc)?;
    for made in rows {
        table.take_in(row(alloc, *made)?)?;
    }
    Ok(table)
}

// What was needed before the table takes a reference in, and whether the reference that stands there then is live.
fn taken(
    alloc: Global,
    table: &mut Table<S3Schema>,
    deleted: bool,
) -> Result<(Option<Hash32>, bool), Memory> {
    let taken = table.take_in(row(alloc, Made::Reference(0x11, 6, deleted))?)?;
    Ok((taken.before, taken.change.is_live))
}

// References to one block and of one version stand at one place.
#[test]
fn rows_that_are_taken_in_tell_what_was_needed(rt: HostRuntime) -> Result<(), Fail> {
    let block = Hash32([0x11; 32]);
    let mut table: Table<S3Schema> = Table::new(rt.alloc())?;
    for (deleted, before, is_live) in [
        (false, None, true),
        (false, Some(block), true),
        (true, Some(block), false),
        (false, None, false),
    ] {
        assert_eq!(rt; taken(rt.alloc(), &mut table, deleted)?, (before, is_live));
    }
    assert_eq!(rt; table.len(), 1);
    Ok(())
}

// How many rows of the bucket come first past a key, at most two, and whether there are more.
fn past(alloc: Global, key: &[u8]) -> Result<(usize, bool), Memory> {
    let mut after = Vec::from_slice(alloc, &BUCKET.0)?;
    after.extend_from_slice(key)?;
    let (rows, more) = table(alloc, &ROWS)?.range(1, &BUCKET.0, after.as_slice(), 2)?;
    Ok((rows.len(), more))
}

#[test]
fn rows_past_a_key(rt: HostRuntime) -> Result<(), Fail> {
    for (key, count, more) in [(b"A", 2, true), (b"a", 2, false), (b"b", 1, false)] {
        assert_eq!(rt; past(rt.alloc(), key)?, (count, more));
    }
    Ok(())
}

// How many rows a partition has, how many blocks were live in it when it is dropped, and how many rows are left.
fn dropped(alloc: Global, p: u8) -> Result<(usize, usize, usize), Memory> {
    let mut table = table(alloc, &ROWS)?;
    let rows = table.rows_of(p)?.len();
    let blocks = table.drop_partition(p)?.len();
    Ok((rows, blocks, table.len()))
}

#[test]
fn partitions_are_dropped(rt: HostRuntime) -> Result<(), Fail> {
    assert_eq!(rt; dropped(rt.alloc(), 0x22)?, (3, 0, 1));
    assert_eq!(rt; dropped(rt.alloc(), 0x11)?, (1, 1, 3));
    Ok(())
}

// Version 6 lies in partition 0x8e by the digest of its identifier, as references to a block do by its hash.
const SCATTERED: [Made; 6] = [
    Made::Reference(0x8e, 7, false),
    Made::Deleted(7),
    Made::Reference(0x11, 6, false),
    Made::Reference(0x8e, 6, true),
    Made::Deleted(6),
    Made::Reference(0x8e, 7, false),
];

const GATHERED: [Made; 3] = [
    Made::Deleted(6),
    Made::Reference(0x8e, 6, true),
    Made::Reference(0x8e, 7, false),
];

// The bytes of rows, one after the other.
fn spelled(alloc: Global, rows: &[AnyRow]) -> Result<Vec<u8>, Memory> {
    let mut bytes = Vec::new(alloc);
    for row in rows {
        bytes.extend_from_slice(S3Schema::row_bytes(alloc, row)?.as_slice())?;
    }
    Ok(bytes)
}

// The bytes that the rows of partition 0x8e have in their order, one after the other.
fn gathered(alloc: Global) -> Result<Vec<u8>, Memory> {
    let mut rows = Vec::new(alloc);
    for made in GATHERED {
        rows.push(row(alloc, made)?)?;
    }
    spelled(alloc, rows.as_slice())
}

// Whether the table gives these rows in that order.
fn are_gathered(alloc: Global, table: &Table<S3Schema>) -> Result<bool, Memory> {
    let given = spelled(alloc, table.rows_of(0x8e)?.as_slice())?;
    Ok(given == gathered(alloc)?)
}

// How many blocks were live in the partition when it is dropped, and how many rows it and the whole table have then.
fn emptied(table: &mut Table<S3Schema>) -> Result<(usize, usize, usize), Memory> {
    let blocks = table.drop_partition(0x8e)?.len();
    Ok((blocks, table.rows_of(0x8e)?.len(), table.len()))
}

// The rows of the partition once more.
fn merge_gathered(alloc: Global, table: &mut Table<S3Schema>) -> Result<(), Memory> {
    for made in GATHERED {
        table.merge_in(&row(alloc, made)?)?;
    }
    Ok(())
}

#[test]
fn rows_of_a_partition_are_in_order(rt: HostRuntime) -> Result<(), Fail> {
    let mut table = table(rt.alloc(), &SCATTERED)?;
    assert!(rt; are_gathered(rt.alloc(), &table)?);
    assert_eq!(rt; emptied(&mut table)?, (1, 0, 2));
    merge_gathered(rt.alloc(), &mut table)?;
    assert!(rt; are_gathered(rt.alloc(), &table)?);
    Ok(())
}

const MERGED: [Made; 3] = [
    Made::Reference(0x11, 5, false),
    Made::Reference(0x11, 6, false),
    Made::Deleted(5),
];

const BACKWARDS: [Made; 3] = [
    Made::Deleted(5),
    Made::Reference(0x11, 6, false),
    Made::Reference(0x11, 5, false),
];

const TOPS: [&str; 4] = [
    "7e1c26a17bd3d7fa395f34897712e0533bd0d69b934e542d6a4a4fb3ce779cda",
    "f962725a6d977e2d26f99325409bb5a37fe72eb3afd207e47b172394302d7a39",
    "b7b6989d30f17d17c49276a8d80171528bfc447636c8ad5ce9a8fe8177c12ff5",
    "778347b0c5f063e5857163bf0559b1c690cdf9bace1175991d698a7050b66462",
];

fn top_of(alloc: Global, rows: &[Made]) -> Result<Hash32, Memory> {
    table(alloc, rows)?.top()
}

// The key of an object in its table.
fn object_key(alloc: Global, key: &[u8]) -> Result<Vec<u8>, Memory> {
    let mut whole = Vec::from_slice(alloc, &BUCKET.0)?;
    whole.extend_from_slice(key)?;
    Ok(whole)
}

// How many rows have nothing but a delete marker up to a timestamp.
fn marked(alloc: Global, table: &Table<S3Schema>, limit: u64) -> Result<usize, Memory> {
    let mut keys = BTreeSet::new(alloc);
    table.add_marked(limit, &mut keys)?;
    Ok(keys.len())
}

// How many these are up to 0, 1 and 3.
fn marked_up_to(alloc: Global, table: &Table<S3Schema>) -> Result<(usize, usize, usize), Memory> {
    Ok((
        marked(alloc, table, 0)?,
        marked(alloc, table, 1)?,
        marked(alloc, table, 3)?,
    ))
}

// The markers of `a`, `b` and `c`, the last one later, all of them settled.
fn with_markers(alloc: Global) -> Result<Table<S3Schema>, Memory> {
    let mut table = table(alloc, &ROWS)?;
    table.take_in(row(alloc, Made::Object(b"c", 3, 3, Shape::Marker))?)?;
    table.settle()?;
    Ok(table)
}

// The same without that of `a`.
fn without_first(alloc: Global) -> Result<Table<S3Schema>, Memory> {
    let left = [
        Made::Object(b"b", 1, 1, Shape::Marker),
        Made::Object(b"c", 3, 3, Shape::Marker),
        Made::Reference(0x11, 6, false),
    ];
    table(alloc, &left)
}

// Whether there was a row of an object, which is removed.
fn remove(alloc: Global, table: &mut Table<S3Schema>, key: &[u8]) -> Result<bool, Memory> {
    let key = object_key(alloc, key)?;
    Ok(table.remove(1, key.as_slice())?.is_some())
}

#[test]
fn rows_are_removed(rt: HostRuntime) -> Result<(), Fail> {
    let alloc = rt.alloc();
    let mut table = with_markers(alloc)?;
    assert!(rt; remove(alloc, &mut table, b"a")?);
    assert!(rt; !remove(alloc, &mut table, b"a")?);
    let mut left = without_first(alloc)?;
    assert_eq!(rt; table.len(), left.len());
    assert!(rt; table.top()? == left.top()?);
    let p = partition::<S3Schema>(&row(alloc, ROWS[0])?);
    assert!(rt; table.value(1, p, &[])? == left.value(1, p, &[])?);
    Ok(())
}

#[test]
fn markers_are_found_by_their_timestamps(rt: HostRuntime) -> Result<(), Fail> {
    let alloc = rt.alloc();
    let mut table = with_markers(alloc)?;
    assert_eq!(rt; marked_up_to(alloc, &table)?, (0, 2, 3));
    let _ = remove(alloc, &mut table, b"a")?;
    assert_eq!(rt; marked_up_to(alloc, &table)?, (0, 1, 2));
    Ok(())
}

#[test]
fn top_from_outside(rt: HostRuntime) -> Result<(), Fail> {
    let rows: [(&[Made], &str); 5] = [
        (&[], TOPS[0]),
        (&MERGED[..1], TOPS[1]),
        (&MERGED[..2], TOPS[2]),
        (&MERGED, TOPS[3]),
        (&BACKWARDS, TOPS[3]),
    ];
    for (made, top) in rows {
        let found = top_of(rt.alloc(), made)?;
        assert_eq!(rt; hex::encode(rt.alloc(), &found.0)?.as_str(), top);
    }
    Ok(())
}
