//! Merges of rows, and each call that takes memory once with enough of it.
use crate::made::{Made, Shape, merged};
use crdt_core::{Crdt, Memory};
use crdt_rows::{
    AnyRow, Version, object_rows_join_as_facts, reference_rows_join_as_facts,
    version_rows_join_as_facts,
};
use std::alloc::Global;
use std::test::Fail;

const UPLOAD: Made = Made::Object(b"a", 5, 1, Shape::Uploading);

const MARKER: Made = Made::Object(b"a", 4, 2, Shape::Marker);

const INLINE: Made = Made::Object(b"a", 6, 3, Shape::Inline);

const ABORTED: Made = Made::Object(b"a", 9, 4, Shape::Aborted);

// How many versions the merged rows of an object have, the greatest timestamp of those that aren't aborted, and the newest
// complete version.
fn versions(
    alloc: Global,
    first: Made,
    other: Made,
) -> Result<(usize, u64, Option<Version>), Memory> {
    match merged(alloc, first, &[other])? {
        AnyRow::Object(row) => {
            let row = row.get();
            Ok((
                row.versions.len(),
                row.greatest_ts(),
                row.newest().map(|(version, _)| version),
            ))
        }
        _ => Ok((0, 0, None)),
    }
}

#[test]
fn marker_below_upload(rt: HostRuntime) -> Result<(), Fail> {
    let newest = Some(Version { ts: 4, id: 2 });
    assert!(rt; versions(rt.alloc(), UPLOAD, MARKER)? == (2, 5, newest));
    assert!(rt; versions(rt.alloc(), MARKER, UPLOAD)? == (2, 5, newest));
    object_rows_join_as_facts();
    Ok(())
}

#[test]
fn aborted_versions_have_no_timestamp(rt: HostRuntime) -> Result<(), Fail> {
    let newest = Some(Version { ts: 6, id: 3 });
    let earlier = Made::Object(b"a", 7, 5, Shape::Aborted);
    assert!(rt; versions(rt.alloc(), ABORTED, INLINE)? == (2, 6, newest));
    assert!(rt; versions(rt.alloc(), ABORTED, UPLOAD)? == (2, 5, None));
    assert!(rt; versions(rt.alloc(), ABORTED, earlier)? == (2, 0, None));
    Ok(())
}

// Whether the three are the last one, merged in this order and in the opposite one.
fn merge_to(
    alloc: Global,
    first: Made,
    second: Made,
    third: Made,
    want: Made,
) -> Result<bool, Memory> {
    let want = merged(alloc, want, &[])?.copy()?;
    let forth = merged(alloc, first, &[second, third])?;
    let back = merged(alloc, third, &[second, first])?;
    Ok(forth == want && back == want)
}

const LIVE: Made = Made::Reference(3, 9, false);

const GONE: Made = Made::Reference(3, 9, true);

#[test]
fn rows_merge(rt: HostRuntime) -> Result<(), Fail> {
    for (first, second, third, want) in [
        (UPLOAD, MARKER, INLINE, INLINE),
        (
            Made::Blocks(4, &[(0, 1), (8, 5)]),
            Made::Blocks(4, &[(8, 2), (16, 3)]),
            Made::Blocks(4, &[]),
            Made::Blocks(4, &[(0, 1), (8, 5), (16, 3)]),
        ),
        (
            Made::Blocks(4, &[(0, 1)]),
            Made::Deleted(4),
            Made::Blocks(4, &[]),
            Made::Deleted(4),
        ),
        (LIVE, GONE, LIVE, GONE),
    ] {
        assert!(rt; merge_to(rt.alloc(), first, second, third, want)?);
    }
    version_rows_join_as_facts();
    reference_rows_join_as_facts();
    Ok(())
}
