//! Rows of items, with ample memory: a write and what is seen of it, two writes side by side, and a row's bytes, key and
//! position. The bytes and the key were written by hand from the table of row bytes; the position is Python's hashlib's.
use blake2_hash::Hash32;
use crdt_core::{Bytes, Crdt, Map};
use k2v_rows::{K2vRow, K2vValue};
use k2v_schema::{K2vSchema, decode, encode};
use shared_value::Shared;
use std::alloc::Global;
use std::test::Fail;
use table_schema::{RowFault, Schema};

const BUCKET: Hash32 = Hash32([0x22; 32]);

// Table 4, the bucket, the keys "p" and "s", one node: node 1, which has discarded nothing, with one value: at time 1 the
// byte 97.
const FIRST_BYTES: &[u8] = b"\
    \x04\
    \x22\x22\x22\x22\x22\x22\x22\x22\x22\x22\x22\x22\x22\x22\x22\x22\
    \x22\x22\x22\x22\x22\x22\x22\x22\x22\x22\x22\x22\x22\x22\x22\x22\
    \0\0\0\x01p\0\0\0\x01s\0\0\0\x01\
    \x01\0\0\0\0\0\0\0\0\0\0\0\x01\
    \0\0\0\0\0\0\0\x01\x01\0\0\0\x01a";

// The same with two nodes: node 1 has discarded up to time 1 and has no value, and node 2 has discarded nothing and
// deleted at time 2.
const DELETED_BYTES: &[u8] = b"\
    \x04\
    \x22\x22\x22\x22\x22\x22\x22\x22\x22\x22\x22\x22\x22\x22\x22\x22\
    \x22\x22\x22\x22\x22\x22\x22\x22\x22\x22\x22\x22\x22\x22\x22\x22\
    \0\0\0\x01p\0\0\0\x01s\0\0\0\x02\
    \x01\0\0\0\0\0\0\0\x01\0\0\0\0\
    \x02\0\0\0\0\0\0\0\0\0\0\0\x01\
    \0\0\0\0\0\0\0\x02\0";

// The first bytes, but that node 1 has discarded up to time 1, at which its value stands.
const DISCARDED_BYTES: &[u8] = b"\
    \x04\
    \x22\x22\x22\x22\x22\x22\x22\x22\x22\x22\x22\x22\x22\x22\x22\x22\
    \x22\x22\x22\x22\x22\x22\x22\x22\x22\x22\x22\x22\x22\x22\x22\x22\
    \0\0\0\x01p\0\0\0\x01s\0\0\0\x01\
    \x01\0\0\0\0\0\0\0\x01\0\0\0\x01\
    \0\0\0\0\0\0\0\x01\x01\0\0\0\x01a";

// The bucket, "p" behind its length, and "s".
const KEY: &[u8] = b"\
    \x22\x22\x22\x22\x22\x22\x22\x22\x22\x22\x22\x22\x22\x22\x22\x22\
    \x22\x22\x22\x22\x22\x22\x22\x22\x22\x22\x22\x22\x22\x22\x22\x22\
    \0\0\0\x01ps";

// The BLAKE2b-256 digest of the bucket and "p".
const POSITION: [u8; 32] = *b"\
    \xb2\x38\x9e\x18\x3e\xde\x48\x2d\xcf\xd9\x02\xec\x89\xa3\xa4\x9a\
    \x9c\x6b\x7b\xac\xda\x9c\x93\xd3\x75\x76\xd6\x3c\x32\x31\x6c\x60";

// A row without writes.
fn unwritten(alloc: Global) -> Result<K2vRow, Fail> {
    let pk = Bytes::from_slice(alloc, b"p")?;
    let sk = Bytes::from_slice(alloc, b"s")?;
    match K2vRow::new(alloc, BUCKET, pk, sk) {
        Some(row) => Ok(row),
        None => Err(Fail::new("a long key")),
    }
}

// A row with one byte, written by this node at 1.
fn write_at(alloc: Global, node: u8, byte: u8) -> Result<K2vRow, Fail> {
    let mut row = unwritten(alloc)?;
    let none = Map::new(alloc);
    if !row.can_put(node, 1, &none) {
        return Err(Fail::new("no write"));
    }
    let byte = Shared::new(alloc, Bytes::from_slice(alloc, &[byte])?)?;
    let value = K2vValue::Value(byte);
    row.put(node, 1, value, &none)?;
    Ok(row)
}

// How many nodes the row's token names.
fn token_len(row: &K2vRow) -> Result<usize, Fail> {
    Ok(row.token()?.len())
}

#[test]
fn a_write_is_seen(rt: HostRuntime) -> Result<(), Fail> {
    let row = write_at(rt.alloc(), 1, b'a')?;
    assert_eq!(rt; token_len(&row)?, 1);
    Ok(())
}

// A copy of the first row, which is as the row is, with the second merged in.
fn merged(first: &K2vRow, second: &K2vRow) -> Result<K2vRow, Fail> {
    let mut row = first.copy()?;
    if row != *first {
        return Err(Fail::new("no copy"));
    }
    row.merge(second)?;
    Ok(row)
}

// Whether the same comes of it whichever row takes the other in, and whether it is another row than the first; and how
// many nodes its token names.
fn merged_both_ways(first: &K2vRow, second: &K2vRow) -> Result<(bool, bool, usize), Fail> {
    let row = merged(first, second)?;
    let is_same = merged(second, first)? == row;
    Ok((is_same, row != *first, token_len(&row)?))
}

// The same of the writes of two nodes.
fn side_by_side(alloc: Global) -> Result<(bool, bool, usize), Fail> {
    let first = write_at(alloc, 1, b'a')?;
    let second = write_at(alloc, 2, b'b')?;
    merged_both_ways(&first, &second)
}

// Two nodes wrote without having seen each other: both values stay, whichever row takes the other in.
#[test]
fn writes_of_two_nodes_stand_side_by_side(rt: HostRuntime) -> Result<(), Fail> {
    assert_eq!(rt; side_by_side(rt.alloc())?, (true, true, 2));
    Ok(())
}

// Whether the row has these bytes, and whether it is read from them.
fn is_spelled(alloc: Global, row: &K2vRow, bytes: &[u8]) -> Result<(bool, bool), Fail> {
    let has_them = encode(alloc, row)?.as_slice() == bytes;
    match decode(alloc, bytes) {
        Ok(read) => Ok((has_them, read == *row)),
        Err(_) => Err(Fail::new("not read")),
    }
}

// Node 2 deletes at time 2 what it has read of the row.
fn delete_read(row: &mut K2vRow) -> Result<(), Fail> {
    let token = row.token()?;
    if !row.can_put(2, 2, &token) {
        return Err(Fail::new("no write"));
    }
    row.put(2, 2, K2vValue::Deleted, &token)?;
    Ok(())
}

// A row of a write by node 1, which node 2 has read and deleted.
fn deleted(alloc: Global) -> Result<K2vRow, Fail> {
    let mut row = write_at(alloc, 1, b'a')?;
    delete_read(&mut row)?;
    Ok(row)
}

// Node 2 deletes what it has read of node 1.
#[test]
fn a_write_replaces_what_its_token_saw(rt: HostRuntime) -> Result<(), Fail> {
    let row = deleted(rt.alloc())?;
    assert_eq!(rt; is_spelled(rt.alloc(), &row, DELETED_BYTES)?, (true, true));
    Ok(())
}

#[test]
fn a_value_at_its_discard_time_is_no_row(rt: HostRuntime) -> Result<(), Fail> {
    assert!(rt;
        match decode(rt.alloc(), DISCARDED_BYTES) {
            Err(RowFault::NotARow) => true,
            _ => false,
        }
    );
    Ok(())
}

#[test]
fn a_write_has_its_bytes(rt: HostRuntime) -> Result<(), Fail> {
    let row = write_at(rt.alloc(), 1, b'a')?;
    assert_eq!(rt; is_spelled(rt.alloc(), &row, FIRST_BYTES)?, (true, true));
    Ok(())
}

// Whether the schema gives the row these bytes, and whether it reads the row from them.
fn is_kept_as(alloc: Global, row: &K2vRow, bytes: &[u8]) -> Result<(bool, bool), Fail> {
    let has_them = K2vSchema::row_bytes(alloc, row)?.as_slice() == bytes;
    match K2vSchema::row_from(alloc, bytes) {
        Ok(read) => Ok((has_them, read == *row)),
        Err(_) => Err(Fail::new("not read")),
    }
}

// The row's table; whether its position and its key are the ones above; and whether it calls for no other rows.
fn place_of(alloc: Global, row: &K2vRow) -> Result<(u8, bool, bool, bool), Fail> {
    let is_there = K2vSchema::position(row).0 == POSITION;
    let is_named = K2vSchema::key(alloc, row)?.as_slice() == KEY;
    let is_alone = K2vSchema::triggers(alloc, row, row)?.is_empty();
    Ok((K2vSchema::table(row), is_there, is_named, is_alone))
}

#[test]
fn a_row_has_its_place(rt: HostRuntime) -> Result<(), Fail> {
    let row = write_at(rt.alloc(), 1, b'a')?;
    assert_eq!(rt; place_of(rt.alloc(), &row)?, (1, true, true, true));
    assert_eq!(rt; is_kept_as(rt.alloc(), &row, FIRST_BYTES)?, (true, true));
    Ok(())
}
