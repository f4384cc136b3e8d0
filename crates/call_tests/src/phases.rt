//! A store, a read and a range as their answers come, with ample memory.
use blake2_hash::Hash32;
use crdt_core::{Bool, Bytes, Memory};
use crdt_rows::{AnyRow, Body, ObjectRow, State, Version};
use object_schema::S3Schema;
use quorum_tally::Tally;
use read_call::{RangeCall, ReadCall};
use std::alloc::Global;
use std::test::Fail;
use write_call::WriteCall;

// A store of two rows, the first in the sets of two versions.
fn store(alloc: Global) -> Result<WriteCall, Memory> {
    let mut slots = Vec::new(alloc);
    slots.push(Tally::new(alloc, 5, &[[1, 2, 3], [3, 4, 5]])?)?;
    slots.push(Tally::new(alloc, 6, &[[1, 2, 6]])?)?;
    Ok(WriteCall::new(slots))
}

#[test]
fn kept_when_both_slots_are(rt: HostRuntime) -> Result<(), Fail> {
    let mut call = store(rt.alloc())?;
    for (slot, node, kept) in [
        (0, 3, false),
        (0, 4, false),
        (1, 6, false),
        (1, 6, false),
        (1, 9, false),
        (1, 1, false),
        (0, 1, true),
    ] {
        assert_eq!(rt; call.confirm(slot, node, 5), kept, "after {node}");
    }
    Ok(())
}

#[test]
fn row_comes_with_the_second_node(rt: HostRuntime) -> Result<(), Fail> {
    let mut call = ReadCall::new([1, 2, 3]);
    for (node, row, value) in [
        (1, Some(Bool(false)), None),
        (1, Some(Bool(true)), None),
        (4, Some(Bool(true)), None),
        (3, None, Some(Some(Bool(false)))),
        (2, Some(Bool(true)), None),
    ] {
        assert_eq!(rt; call.answer(node, row)?, value, "after {node}");
    }
    Ok(())
}

// The markers of objects of one bucket with these keys.
fn markers(alloc: Global, keys: &[&[u8]]) -> Result<Vec<AnyRow>, Memory> {
    let mut rows = Vec::new(alloc);
    for key in keys {
        rows.push(marker(alloc, key)?)?;
    }
    Ok(rows)
}

fn marker(alloc: Global, key: &[u8]) -> Result<AnyRow, Memory> {
    let state = State::Complete(Body::Marker);
    if !state.is_sized() {
        return Err(Memory::Full);
    }
    let (bucket, version) = (Hash32([7; 32]), Version { ts: 1, id: 1 });
    let key = Bytes::from_slice(alloc, key)?;
    AnyRow::object(
        alloc,
        ObjectRow::single(alloc, bucket, key, version, state)?,
    )
}

fn is_a(end: &Option<Bytes>) -> bool {
    match end {
        Some(end) => end.as_slice() == b"a".as_slice(),
        None => false,
    }
}

// The window of the first node's answer, `a` and perhaps more, and the third's, `a` and `b`: whether it comes with the
// second answer, has `a` alone, and ends there.
fn window_ends_at_a(alloc: Global) -> Result<bool, Memory> {
    let mut call: RangeCall<S3Schema> = RangeCall::new([1, 2, 3]);
    if call
        .answer(alloc, 1, markers(alloc, &[b"a"])?, true)?
        .is_some()
    {
        return Ok(false);
    }
    match call.answer(alloc, 3, markers(alloc, &[b"a", b"b"])?, false)? {
        Some((rows, end)) => Ok(rows.len() == 1 && is_a(&end)),
        None => Ok(false),
    }
}

#[test]
fn window_comes_with_the_second_node(rt: HostRuntime) -> Result<(), Fail> {
    assert!(rt; window_ends_at_a(rt.alloc())?);
    Ok(())
}
