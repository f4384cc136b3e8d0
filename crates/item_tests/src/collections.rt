//! Collections of delete markers, with ample memory: which nodes are waited for, and where answers lead.
use crdt_core::Bytes;
use gc_model::GcEnd;
use std::alloc::Global;
use std::test::Fail;
use table_gc::Collections;

// A list with one collection by node 1, whose newest layout version is 5.
fn with_one(alloc: Global) -> Result<Collections, Fail> {
    let mut open = Collections::new(alloc);
    open.begin(Bytes::new(alloc), Bytes::new(alloc), 1, 5)?;
    Ok(open)
}

// The same in round 2, after all nodes have given version 5 in round 1.
fn in_second(alloc: Global) -> Result<Collections, Fail> {
    let mut open = with_one(alloc)?;
    for node in 2..17u8 {
        open.tombed(1, 1, node, 5, 70)?;
    }
    if !open.is_ready(1) {
        return Err(Fail::new("not ready"));
    }
    open.second(1)?;
    Ok(open)
}

// The number of the first open collection with this key, 0 without one.
fn number_of(open: &Collections, key: &[u8]) -> u64 {
    match open.of(key) {
        Some(collection) => collection.number,
        None => 0,
    }
}

// Collection 1 waits for these nodes.
fn waits_for(open: &Collections, nodes: &[u8]) -> Result<bool, Fail> {
    Ok(open.missing(1)?.as_slice() == nodes)
}

// How many nodes collection 1 waits for.
fn missing_count(open: &Collections) -> Result<usize, Fail> {
    Ok(open.missing(1)?.len())
}

// Where the answer of node 2 leads in round 1, and how many nodes were waited for before it and are after it.
fn after_node_2(alloc: Global) -> Result<(GcEnd, usize, usize), Fail> {
    let mut open = with_one(alloc)?;
    let before = missing_count(&open)?;
    let end = open.tombed(1, 1, 2, 5, 60)?;
    Ok((end, before, missing_count(&open)?))
}

#[test]
fn nodes_are_waited_for(rt: HostRuntime) -> Result<(), Fail> {
    assert_eq!(rt; after_node_2(rt.alloc())?, (GcEnd::Wait, 15, 14));
    Ok(())
}

#[test]
fn another_newest_version_closes_a_collection(rt: HostRuntime) -> Result<(), Fail> {
    let mut open = in_second(rt.alloc())?;
    assert!(rt; open.tombed(1, 2, 3, 6, 80)? == GcEnd::Closed);
    assert_eq!(rt; open.all().len(), 0);
    Ok(())
}

// Round 2 after version 5 of nodes 2 to 15, after each of which others are waited for.
fn before_node_16(alloc: Global) -> Result<Collections, Fail> {
    let mut open = in_second(alloc)?;
    for node in 2..16u8 {
        if open.tombed(1, 2, node, 5, 80)? != GcEnd::Wait {
            return Err(Fail::new("not waiting"));
        }
    }
    Ok(open)
}

// Where two answers of node 16 lead, the first one of round 1, and whether it alone is waited for between them.
fn ends_of_node_16(alloc: Global) -> Result<(GcEnd, bool, GcEnd), Fail> {
    let mut open = before_node_16(alloc)?;
    // An answer of round 1 neither counts now nor closes.
    let late = open.tombed(1, 1, 16, 6, 80)?;
    let waits = waits_for(&open, &[16])?;
    let last = open.tombed(1, 2, 16, 5, 80)?;
    Ok((late, waits, last))
}

#[test]
fn round_2_is_complete_with_its_16th_node(rt: HostRuntime) -> Result<(), Fail> {
    let others = [2, 3, 4, 5, 6, 7, 8, 9, 10, 11, 12, 13, 14, 15, 16];
    assert!(rt; waits_for(&in_second(rt.alloc())?, &others)?);
    assert_eq!(rt;
        ends_of_node_16(rt.alloc())?,
        (GcEnd::Wait, true, GcEnd::Complete)
    );
    Ok(())
}

// The number of a new collection by node 1 with this key, whose newest layout version is 5.
fn begun(open: &mut Collections, alloc: Global, key: &[u8]) -> Result<u64, Fail> {
    let key = Bytes::from_slice(alloc, key)?;
    Ok(open.begin(key, Bytes::new(alloc), 1, 5)?)
}

// The numbers of the first open collections with an empty key and with "k".
fn numbers_of_two(open: &Collections) -> (u64, u64) {
    (number_of(open, b""), number_of(open, b"k"))
}

// Two collections, one with an empty key and then one with "k", which is number 2.
fn with_two(alloc: Global) -> Result<Collections, Fail> {
    let mut open = with_one(alloc)?;
    if begun(&mut open, alloc, b"k")? != 2 {
        return Err(Fail::new("not number 2"));
    }
    Ok(open)
}

// Their numbers by their keys, at first and after the first is closed.
fn numbers_after_close(open: &mut Collections) -> ((u64, u64), (u64, u64)) {
    let both = numbers_of_two(open);
    open.close(1);
    (both, numbers_of_two(open))
}

// After all are closed, their numbers by their keys; and the number of the next one.
fn numbers_after_clear(open: &mut Collections, alloc: Global) -> Result<((u64, u64), u64), Fail> {
    open.clear();
    Ok((numbers_of_two(open), begun(open, alloc, b"")?))
}

#[test]
fn collections_are_found_by_key_until_they_are_closed(rt: HostRuntime) -> Result<(), Fail> {
    let alloc = rt.alloc();
    let mut open = with_two(alloc)?;
    assert_eq!(rt; numbers_after_close(&mut open), ((1, 2), (0, 2)));
    assert_eq!(rt; numbers_after_clear(&mut open, alloc)?, ((0, 0), 3));
    Ok(())
}

// The numbers of the first open collection with key "k", with two of them, after one is closed, and after both are.
fn numbers_with_one_key(open: &mut Collections, alloc: Global) -> Result<(u64, u64, u64), Fail> {
    begun(open, alloc, b"k")?;
    let first = number_of(open, b"k");
    open.close(2);
    let second = number_of(open, b"k");
    open.close(3);
    Ok((first, second, number_of(open, b"k")))
}

#[test]
fn two_collections_with_one_key_are_found_one_after_the_other(rt: HostRuntime) -> Result<(), Fail> {
    let alloc = rt.alloc();
    let mut open = with_two(alloc)?;
    assert_eq!(rt; numbers_with_one_key(&mut open, alloc)?, (2, 3, 0));
    assert!(rt; open.numbered(1).is_some());
    assert!(rt; open.numbered(2).is_none());
    Ok(())
}
