//! Walks down two tries, to their ends.
use blake2_hash::Hash32;
use merkle_sync::{Walk, WalkEnd};
use merkle_trie::{Blake, Trie};
use std::alloc::Global;
use std::test::Fail;

// The key hash that begins with these bytes, with zeros behind them.
fn key(first: u8, second: u8) -> Hash32 {
    let mut bytes = [0; 32];
    bytes[0] = first;
    bytes[1] = second;
    Hash32(bytes)
}

// Puts these pairs into the trie, each with a row hash that is its byte throughout.
fn put_all(trie: &mut Trie, pairs: &[(Hash32, u8)]) -> Result<(), Fail> {
    for (key, row) in pairs {
        trie.put(*key, Hash32([*row; 32]))?;
    }
    trie.settle(&mut Blake::new())?;
    Ok(())
}

// A trie of these pairs.
fn trie(alloc: Global, pairs: &[(Hash32, u8)]) -> Result<Trie, Fail> {
    let mut trie: Trie = Trie::new(alloc);
    put_all(&mut trie, pairs)?;
    Ok(trie)
}

// How many prefixes are to be asked, and how many keys pushed.
fn told(end: &WalkEnd) -> (usize, usize) {
    match end {
        WalkEnd::Same => (0, 0),
        WalkEnd::Ask(prefixes) => (prefixes.len(), 0),
        WalkEnd::Push(keys) => (0, keys.len()),
    }
}

// Whether the walk is over with these keys, each of its table, to be pushed.
fn pushes(end: &WalkEnd, keys: &[(u8, Hash32)]) -> bool {
    match end {
        WalkEnd::Push(pushed) => pushed.as_slice() == keys,
        _ => false,
    }
}

// What comes of the other trie's answer about table 2 at this prefix. Both tries are settled.
fn answered(walk: &mut Walk, prefix: &[u8], other: &Trie, own: &Trie) -> Result<WalkEnd, Fail> {
    if !(own.settled() && other.settled()) {
        return Err(Fail::new("not settled"));
    }
    let theirs = other.children(prefix)?;
    Ok(walk.answer(2, prefix, theirs.as_slice(), own)?)
}

// How many prefixes are to be asked, and how many keys pushed, after this answer.
fn told_after(
    walk: &mut Walk,
    prefix: &[u8],
    other: &Trie,
    own: &Trie,
) -> Result<(usize, usize), Fail> {
    Ok(told(&answered(walk, prefix, other, own)?))
}

// The same after the answer that the table's value at the prefix is the same.
fn told_after_same(walk: &mut Walk, table: u8, prefix: &[u8]) -> Result<(usize, usize), Fail> {
    Ok(told(&walk.same(table, prefix)?))
}

// Whether the walk is over after this answer, with the row of this key of table 2 to be pushed.
fn pushes_after(
    walk: &mut Walk,
    prefix: &[u8],
    other: &Trie,
    own: &Trie,
    key: Hash32,
) -> Result<bool, Fail> {
    Ok(pushes(&answered(walk, prefix, other, own)?, &[(2, key)]))
}

// Of a walk of table 2 of partition 5, where a row differs: its partition and how many prefixes are open; what it tells
// at the top, at the top once more, and at the prefix below which the row is; and how many prefixes are open then.
fn told_of_one_row(alloc: Global) -> Result<((u8, usize), [(usize, usize); 3], usize), Fail> {
    let mut walk = Walk::start(alloc, 5, &[2])?;
    let first = (walk.partition(), walk.open().len());
    let own = trie(alloc, &[(key(1, 1), 1), (key(1, 2), 2), (key(7, 0), 3)])?;
    let other = trie(alloc, &[(key(1, 1), 1), (key(1, 2), 9), (key(7, 0), 3)])?;
    let top = told_after(&mut walk, &[], &other, &own)?;
    let idle = told_after_same(&mut walk, 2, &[])?;
    let below = told_after(&mut walk, &[1], &other, &own)?;
    Ok((first, [top, idle, below], walk.open().len()))
}

#[test]
fn one_other_row_is_pushed(rt: HostRuntime) -> Result<(), Fail> {
    assert_eq!(rt;
        told_of_one_row(rt.alloc())?,
        ((5, 1), [(1, 0), (0, 0), (0, 1)], 0)
    );
    Ok(())
}

// What a walk of two tables tells after the same value at the top of one, and how many prefixes are open then; and
// whether it is over, with nothing to be pushed, after the same value at the top of the other.
fn told_of_equal(alloc: Global) -> Result<((usize, usize), usize, bool), Fail> {
    let mut walk = Walk::start(alloc, 5, &[1, 3])?;
    let told = told_after_same(&mut walk, 1, &[])?;
    let open_count = walk.open().len();
    let is_over = match walk.same(3, &[])? {
        WalkEnd::Same => true,
        _ => false,
    };
    Ok((told, open_count, is_over))
}

#[test]
fn equal_tables_push_nothing(rt: HostRuntime) -> Result<(), Fail> {
    assert_eq!(rt; told_of_equal(rt.alloc())?, ((0, 0), 1, true));
    Ok(())
}

// Whether of two own rows the one that the other lacks is pushed.
fn pushes_lacking(alloc: Global) -> Result<bool, Fail> {
    let own = trie(alloc, &[(key(1, 1), 1), (key(7, 0), 3)])?;
    let other = trie(alloc, &[(key(1, 1), 1)])?;
    let mut walk = Walk::start(alloc, 5, &[2])?;
    pushes_after(&mut walk, &[], &other, &own, key(7, 0))
}

#[test]
fn a_row_that_the_other_lacks_is_pushed(rt: HostRuntime) -> Result<(), Fail> {
    assert!(rt; pushes_lacking(rt.alloc())?);
    Ok(())
}

// What comes of the answer that the other has nothing of this table, where the own trie has this one pair.
fn answered_nothing(
    walk: &mut Walk,
    alloc: Global,
    table: u8,
    pair: (Hash32, u8),
) -> Result<WalkEnd, Fail> {
    let own = trie(alloc, &[pair])?;
    if !own.settled() {
        return Err(Fail::new("not settled"));
    }
    Ok(walk.answer(table, &[], &[], &own)?)
}

// What a walk of two tables tells after such an answer about one, and how many prefixes are open then; and whether it is
// over, with both keys to be pushed, after such an answer about the other.
fn told_of_two_tables(alloc: Global) -> Result<((usize, usize), usize, bool), Fail> {
    let mut walk = Walk::start(alloc, 5, &[1, 3])?;
    let told = told(&answered_nothing(&mut walk, alloc, 1, (key(1, 1), 1))?);
    let open_count = walk.open().len();
    let end = answered_nothing(&mut walk, alloc, 3, (key(8, 0), 2))?;
    let both = [(1, key(1, 1)), (3, key(8, 0))];
    Ok((told, open_count, pushes(&end, &both)))
}

// Each table's answer notes the one own key; the walk ends with the second answer.
#[test]
fn rows_of_two_tables_are_pushed(rt: HostRuntime) -> Result<(), Fail> {
    assert_eq!(rt; told_of_two_tables(rt.alloc())?, ((0, 0), 1, true));
    Ok(())
}

// What the walk tells at the top, and whether the new row is pushed after the own trie changes.
fn told_around_change(
    alloc: Global,
    own: &mut Trie,
    other: &Trie,
) -> Result<((usize, usize), bool), Fail> {
    let mut walk = Walk::start(alloc, 5, &[2])?;
    let told = told_after(&mut walk, &[], other, own)?;
    put_all(own, &[(key(1, 2), 9), (key(1, 3), 3)])?;
    let pushes = pushes_after(&mut walk, &[1], other, own, key(1, 3))?;
    Ok((told, pushes))
}

// The same of two tries that differ in the row of one key.
fn told_of_changed(alloc: Global) -> Result<((usize, usize), bool), Fail> {
    let mut own = trie(alloc, &[(key(1, 1), 1), (key(1, 2), 2)])?;
    let other = trie(alloc, &[(key(1, 1), 1), (key(1, 2), 9)])?;
    told_around_change(alloc, &mut own, &other)
}

// The row for which the walk goes down becomes as the other's, and one comes beside it: this one is pushed.
#[test]
fn the_own_trie_changes_between_two_answers(rt: HostRuntime) -> Result<(), Fail> {
    assert_eq!(rt; told_of_changed(rt.alloc())?, ((1, 0), true));
    Ok(())
}
