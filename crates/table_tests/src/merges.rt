//! Two values of each kind merged in both orders, and each call that takes memory once with enough of it.
use crdt_core::{
    Bool, Bytes, Crdt, Deletable, Keyed, List, Lww, LwwMap, Map, Max, Memory, Pair, Value,
    copy_rows, join, lists_join, maps_join_by_key, rows_are_ordered,
};
use std::alloc::Global;
use std::test::Fail;

// Whether each of two merged with the other gives what is wanted.
fn merge_to<R: Crdt + PartialEq>(a: &R, b: &R, want: &R) -> Result<bool, Memory> {
    let mut left = a.copy()?;
    left.merge(b)?;
    let mut right = b.copy()?;
    right.merge(a)?;
    Ok(left == *want && right == *want)
}

fn written(ts: u64, v: u64) -> Lww<Max<u64>> {
    Lww { ts, v: Max(v) }
}

fn keyed(key: u8, v: u64) -> Keyed<u8, Max<u64>> {
    Keyed { key, v: Max(v) }
}

fn pair(a: u64, b: bool) -> Pair<Max<u64>, Bool> {
    Pair {
        a: Max(a),
        b: Bool(b),
    }
}

// Whether each kind merges as it should.
fn kinds_merge() -> Result<bool, Memory> {
    Ok(
        merge_to(&Bool(false), &Bool(true), &Bool(true))?
            && merge_to(&Max(7u64), &Max(5), &Max(7))?
            && merge_to(
                &Deletable::Present(Max(9u64)),
                &Deletable::Deleted,
                &Deletable::Deleted,
            )?
            && merge_to(&written(5, 1), &written(5, 4), &written(5, 4))?
            && merge_to(&keyed(1, 9), &keyed(2, 3), &keyed(2, 3))?
            && merge_to(&pair(1, true), &pair(2, false), &pair(2, true))?,
    )
}

#[test]
fn each_kind_merges(rt: HostRuntime) -> Result<(), Fail> {
    assert!(rt; kinds_merge()?);
    Ok(())
}

type Cells = Map<u8, Max<u64>>;

type Sheet = LwwMap<Bytes, Cells>;

fn sheet(alloc: Global, name: &str, entries: &[(u8, u64)]) -> Result<Sheet, Memory> {
    let mut v = Map::new(alloc);
    for (key, cell) in entries {
        v.join_at(*key, &Max(*cell))?;
    }
    let mut sheet = Map::new(alloc);
    sheet.join_at(
        Bytes::from_slice(alloc, name.as_bytes())?,
        &Lww { ts: 5, v },
    )?;
    Ok(sheet)
}

// Whether two sheets merge to the third.
fn sheets_merge(alloc: Global) -> Result<bool, Memory> {
    let first = sheet(alloc, "b", &[(2, 4), (1, 10)])?;
    let second = sheet(alloc, "b", &[(1, 3), (3, 6)])?;
    let want = sheet(alloc, "b", &[(1, 10), (2, 4), (3, 6)])?;
    merge_to(&first, &second, &want)
}

// How many entries the join of two sheets has.
fn joined(alloc: Global) -> Result<usize, Memory> {
    let rows = [sheet(alloc, "b", &[(1, 10)])?, sheet(alloc, "a", &[])?];
    match join(copy_rows(alloc, &rows)?.as_slice())? {
        Some(all) => Ok(all.len()),
        None => Ok(0),
    }
}

#[test]
fn nested_maps_merge(rt: HostRuntime) -> Result<(), Fail> {
    assert!(rt; sheets_merge(rt.alloc())?);
    assert_eq!(rt; joined(rt.alloc())?, 2);
    rows_are_ordered::<Sheet>();
    lists_join::<Sheet>();
    maps_join_by_key::<Bytes, Lww<Cells>>();
    Ok(())
}

fn grown_bytes(alloc: Global) -> Result<Bytes, Memory> {
    let mut text = Bytes::from_slice(alloc, b"ab")?;
    text.push(b'c')?;
    text.extend_from_slice(b"de")?;
    text.copy()
}

fn grown_list(alloc: Global) -> Result<List<u8>, Memory> {
    let mut list = List::new(alloc);
    list.push(3)?;
    list.insert(0, 1)?;
    let mut more = list.copy()?;
    list.append(&mut more)?;
    Ok(list)
}

#[test]
fn bytes_and_lists_grow(rt: HostRuntime) -> Result<(), Fail> {
    assert_eq!(rt; grown_bytes(rt.alloc())?.as_slice(), b"abcde".as_slice());
    assert_eq!(rt; grown_list(rt.alloc())?.as_slice(), [1, 3, 1, 3].as_slice());
    Ok(())
}
