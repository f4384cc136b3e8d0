//! Small histories with their verdicts and counts, worked out by hand from what a fresh read is.
use crdt_core::{Bytes, List, Memory};
use crdt_rows::Version;
use std::alloc::Global;
use std::test::Fail;
use world_history::{Answer, Cause, History, Kind, Record, check, first_stale, fresh, pairs};

// What is told next of a request, in the bucket `pics` at node 1, or what the history told so far is judged as.
#[derive(Clone, Copy)]
enum Told {
    Began(u64, Kind, &'static str),
    Version(u64, u64, u64),
    Nothing(u64),
    // A list that shows one key.
    Listed(u64, &'static str, u64, u64),
    Superseded(u64),
    // Whether it is fresh, and its pairs.
    Judged(bool, u64),
    // The first read that isn't fresh.
    Stale(u64),
}

fn finished(request: u64, answer: Answer) -> Option<Record> {
    Some(Record::Finished { request, answer })
}

fn listed(alloc: Global, key: &str, ts: u64, id: u64) -> Result<Answer, Memory> {
    let mut entries = List::new(alloc);
    entries.push((
        Bytes::from_slice(alloc, key.as_bytes())?,
        Version { ts, id },
    ))?;
    Ok(Answer::Listed(entries))
}

fn began(alloc: Global, request: u64, kind: Kind, key: &str) -> Result<Record, Memory> {
    Ok(Record::Began {
        request,
        node: 1,
        kind,
        bucket: Bytes::from_slice(alloc, b"pics")?,
        key: Bytes::from_slice(alloc, key.as_bytes())?,
    })
}

fn record(alloc: Global, told: Told) -> Result<Option<Record>, Memory> {
    match told {
        Told::Began(request, kind, key) => Ok(Some(began(alloc, request, kind, key)?)),
        Told::Version(request, ts, id) => Ok(finished(
            request,
            Answer::Version(Version { ts, id }),
        )),
        Told::Nothing(request) => Ok(finished(request, Answer::None)),
        Told::Listed(request, key, ts, id) => Ok(finished(request, listed(alloc, key, ts, id)?)),
        Told::Superseded(request) => Ok(Some(Record::Ended {
            request,
            cause: Cause::Superseded(1),
        })),
        Told::Judged(_, _) | Told::Stale(_) => Ok(None),
    }
}

// Whether all calls judge a history so.
fn is_judged_so(
    alloc: Global,
    history: &History,
    is_fresh: bool,
    count: u64,
) -> Result<bool, Memory> {
    let checked = check(alloc, history)?;
    let is_checked = checked.is_fresh == is_fresh && checked.pairs == count;
    Ok(is_checked && fresh(alloc, history)? == is_fresh && pairs(alloc, history)? == count)
}

// Whether each judgement is that of what was told before it.
fn is_judged(alloc: Global, told: &[Told]) -> Result<bool, Memory> {
    let mut history = History(List::new(alloc));
    for next in told {
        if let Told::Judged(is_fresh, count) = *next {
            if !is_judged_so(alloc, &history, is_fresh, count)? {
                return Ok(false);
            }
        }
        if let Told::Stale(request) = *next {
            if first_stale(alloc, &history)? != Some(request) {
                return Ok(false);
            }
        }
        if let Some(record) = record(alloc, *next)? {
            history.0.push(record)?;
        }
    }
    Ok(true)
}

const NEWEST_ACKNOWLEDGED_VERSION: [Told; 18] = [
    Told::Judged(true, 0),
    Told::Began(1, Kind::Put, "a"),
    Told::Version(1, 5, 1),
    Told::Began(2, Kind::Put, "a"),
    Told::Began(3, Kind::Get, "a"),
    // The second put was acknowledged after the get began.
    Told::Version(2, 6, 2),
    Told::Version(3, 5, 1),
    Told::Judged(true, 1),
    Told::Began(4, Kind::Head, "a"),
    Told::Version(4, 6, 2),
    Told::Judged(true, 3),
    Told::Began(5, Kind::Get, "a"),
    Told::Began(6, Kind::Get, "a"),
    Told::Nothing(6),
    Told::Stale(6),
    Told::Version(5, 5, 1),
    Told::Judged(false, 7),
    // Of the two the one that finished first, not the one that began first.
    Told::Stale(6),
];

const LATER_TIMESTAMP_WITH_SMALLER_IDENTIFIER: [Told; 10] = [
    Told::Began(1, Kind::Put, "a"),
    Told::Version(1, 6, 1),
    Told::Began(2, Kind::Put, "a"),
    Told::Version(2, 5, 2),
    Told::Began(3, Kind::Get, "a"),
    Told::Version(3, 6, 1),
    Told::Judged(true, 2),
    Told::Began(4, Kind::Get, "a"),
    Told::Version(4, 5, 2),
    Told::Judged(false, 4),
];

const NONE_BY_A_DELETE: [Told; 15] = [
    Told::Began(1, Kind::Put, "a"),
    Told::Version(1, 5, 1),
    Told::Began(2, Kind::Delete, "a"),
    Told::Version(2, 6, 2),
    Told::Began(3, Kind::Get, "a"),
    Told::Nothing(3),
    Told::Judged(true, 2),
    Told::Began(4, Kind::Put, "a"),
    Told::Version(4, 7, 4),
    Told::Began(5, Kind::Get, "a"),
    // A delete that isn't acknowledged, and begins before the get finishes.
    Told::Began(6, Kind::Delete, "a"),
    Told::Nothing(5),
    Told::Judged(true, 5),
    // It is acknowledged with a version that is below the put's.
    Told::Version(6, 6, 6),
    Told::Judged(false, 5),
];

const LIST_WITH_AN_ABSENT_KEY: [Told; 17] = [
    Told::Began(1, Kind::Put, "a/x"),
    Told::Version(1, 5, 1),
    Told::Began(2, Kind::Put, "b"),
    Told::Version(2, 6, 2),
    Told::Began(3, Kind::List, "a/"),
    Told::Listed(3, "a/x", 5, 1),
    Told::Judged(true, 1),
    Told::Began(4, Kind::Put, "a/y"),
    Told::Version(4, 7, 4),
    Told::Began(5, Kind::Delete, "a/y"),
    Told::Version(5, 8, 5),
    Told::Began(6, Kind::List, "a/"),
    Told::Listed(6, "a/x", 5, 1),
    Told::Judged(true, 4),
    Told::Began(7, Kind::List, ""),
    // It doesn't show `b`.
    Told::Listed(7, "a/x", 5, 1),
    Told::Judged(false, 8),
];

const COPIES_AND_THEIR_VERSIONS: [Told; 13] = [
    // A copy without a source writes nothing.
    Told::Began(1, Kind::Copy, "a"),
    Told::Nothing(1),
    Told::Began(2, Kind::Get, "a"),
    Told::Nothing(2),
    Told::Judged(true, 0),
    Told::Began(3, Kind::Copy, "a"),
    Told::Version(3, 5, 3),
    Told::Began(4, Kind::Get, "a"),
    Told::Version(4, 5, 3),
    Told::Judged(true, 1),
    Told::Began(5, Kind::Get, "a"),
    // The third request was acknowledged with another version.
    Told::Version(5, 6, 3),
    Told::Judged(false, 2),
];

const UNFINISHED_READS_OWE_NOTHING: [Told; 9] = [
    Told::Began(1, Kind::Put, "a"),
    Told::Version(1, 5, 1),
    Told::Began(2, Kind::Get, "a"),
    Told::Began(3, Kind::Get, "a"),
    Told::Superseded(3),
    Told::Judged(true, 0),
    Told::Began(4, Kind::Get, "b"),
    // No put of `b` has the number 1.
    Told::Version(4, 5, 1),
    Told::Judged(false, 0),
];

const LIST_WITH_VERSIONS_OUT_OF_ORDER: [Told; 11] = [
    Told::Began(1, Kind::Put, "a/x"),
    Told::Began(2, Kind::Put, "a/x"),
    Told::Version(2, 6, 2),
    Told::Version(1, 5, 1),
    Told::Began(3, Kind::List, "a/"),
    Told::Listed(3, "a/x", 6, 2),
    Told::Judged(true, 2),
    Told::Began(4, Kind::List, "a/"),
    // The put that was acknowledged last isn't the newest.
    Told::Listed(4, "a/x", 5, 1),
    Told::Judged(false, 4),
    Told::Stale(4),
];

const LIST_OF_KEYS_BETWEEN_OTHERS: [Told; 15] = [
    Told::Began(1, Kind::Put, "a"),
    Told::Version(1, 1, 1),
    // The first key behind those with the prefix.
    Told::Began(2, Kind::Put, "a0"),
    Told::Version(2, 2, 2),
    Told::Began(3, Kind::Put, "a/x"),
    Told::Version(3, 3, 3),
    Told::Began(4, Kind::List, "a/"),
    Told::Listed(4, "a/x", 3, 3),
    Told::Judged(true, 1),
    Told::Began(5, Kind::Put, "a/"),
    Told::Version(5, 4, 5),
    Told::Began(6, Kind::List, "a/"),
    // It doesn't show the prefix itself.
    Told::Listed(6, "a/x", 3, 3),
    Told::Judged(false, 3),
    Told::Stale(6),
];

const NONE_BY_THE_FIRST_OF_TWO_DELETES: [Told; 17] = [
    Told::Began(1, Kind::Delete, "a"),
    Told::Version(1, 9, 1),
    Told::Began(2, Kind::Delete, "b"),
    Told::Version(2, 9, 2),
    Told::Began(3, Kind::Put, "a"),
    Told::Version(3, 5, 3),
    Told::Began(4, Kind::Delete, "a"),
    Told::Version(4, 3, 4),
    Told::Began(5, Kind::Get, "a"),
    Told::Nothing(5),
    Told::Judged(true, 3),
    Told::Began(6, Kind::Put, "c"),
    Told::Version(6, 1, 6),
    Told::Began(7, Kind::Get, "c"),
    // Only other keys were deleted.
    Told::Nothing(7),
    Told::Judged(false, 4),
    Told::Stale(7),
];

const NUMBER_OF_TWO_PUTS: [Told; 13] = [
    Told::Began(1, Kind::Put, "a"),
    Told::Version(1, 5, 1),
    Told::Began(1, Kind::Put, "b"),
    Told::Version(1, 6, 1),
    Told::Began(2, Kind::Get, "a"),
    Told::Version(2, 5, 1),
    Told::Began(3, Kind::Get, "b"),
    Told::Version(3, 6, 1),
    Told::Judged(true, 2),
    Told::Began(4, Kind::Get, "b"),
    Told::Version(4, 5, 1),
    Told::Judged(false, 3),
    Told::Stale(4),
];

#[test]
fn histories_are_judged(rt: HostRuntime) -> Result<(), Fail> {
    let histories: [&[Told]; 10] = [
        &NEWEST_ACKNOWLEDGED_VERSION,
        &LATER_TIMESTAMP_WITH_SMALLER_IDENTIFIER,
        &NONE_BY_A_DELETE,
        &LIST_WITH_AN_ABSENT_KEY,
        &COPIES_AND_THEIR_VERSIONS,
        &UNFINISHED_READS_OWE_NOTHING,
        &LIST_WITH_VERSIONS_OUT_OF_ORDER,
        &LIST_OF_KEYS_BETWEEN_OTHERS,
        &NONE_BY_THE_FIRST_OF_TWO_DELETES,
        &NUMBER_OF_TWO_PUTS,
    ];
    for told in histories {
        assert!(rt; is_judged(rt.alloc(), told)?);
    }
    Ok(())
}
