//! Each answer once, byte by byte.
use crate::expected;
use crate::stored::{ETAG, WRITTEN, meta};
use crdt_core::{Bytes, List, Memory};
use s3_answer::answer;
use s3_model::{Ask, Code, Range, Reply, S3Fault};
use std::alloc::Global;
use std::test::Fail;

/// 14 November 2023, 22:13:20 UTC.
const NOW: u64 = 1_700_000_000_000;

fn get(alloc: Global, range: Option<Range>) -> Result<Ask, Memory> {
    Ok(Ask::Get {
        bucket: Bytes::from_slice(alloc, b"pics")?,
        key: Bytes::from_slice(alloc, b"a.txt")?,
        range,
    })
}

fn head(alloc: Global, range: Option<Range>) -> Result<Ask, Memory> {
    Ok(Ask::Head {
        bucket: Bytes::from_slice(alloc, b"pics")?,
        key: Bytes::from_slice(alloc, b"a.txt")?,
        range,
    })
}

fn found(alloc: Global, body: &[u8]) -> Result<Reply, Memory> {
    Ok(Reply::Found {
        version: WRITTEN,
        meta: meta(alloc)?,
        body: Bytes::from_slice(alloc, body)?,
    })
}

/// The answer with this reply where no ask is looked at.
fn told(alloc: Global, reply: Reply, close: bool) -> Result<Bytes, Memory> {
    answer(alloc, None, &reply, NOW, close)
}

/// The answer to a refused request: with `head` to a HEAD, and then the connection closes where `close` says so.
fn refused(
    alloc: Global,
    (status, code): (u16, Code),
    path: &[u8],
    head: bool,
    close: bool,
) -> Result<Bytes, Memory> {
    let reply = Reply::Refused {
        fault: S3Fault {
            status,
            code,
            close: false,
        },
        path: Bytes::from_slice(alloc, path)?,
        head,
    };
    told(alloc, reply, close)
}

#[test]
fn objects(rt: HostRuntime) -> Result<(), Fail> {
    let alloc = rt.alloc();
    let reply = found(alloc, b"abc")?;
    let asked = get(alloc, None)?;
    assert!(rt; answer(alloc, Some(&asked), &reply, NOW, false)?.as_slice() == expected::GET_OK);
    let asked = get(alloc, Some(Range::Between(0, 0)))?;
    assert!(rt; answer(alloc, Some(&asked), &reply, NOW, false)?.as_slice() == expected::GET_PART);
    let asked = get(alloc, Some(Range::From(1)))?;
    assert!(rt; answer(alloc, Some(&asked), &reply, NOW, false)?.as_slice() == expected::GET_LAST);
    let asked = get(alloc, Some(Range::Between(1, 9)))?;
    assert!(rt; answer(alloc, Some(&asked), &reply, NOW, false)?.as_slice() == expected::GET_LAST);
    let asked = get(alloc, Some(Range::Last(2)))?;
    assert!(rt; answer(alloc, Some(&asked), &reply, NOW, false)?.as_slice() == expected::GET_LAST);
    Ok(())
}

#[test]
fn heads(rt: HostRuntime) -> Result<(), Fail> {
    let alloc = rt.alloc();
    let reply = found(alloc, b"")?;
    let asked = head(alloc, None)?;
    assert!(rt; answer(alloc, Some(&asked), &reply, NOW, false)?.as_slice() == expected::HEAD_OK);
    let asked = head(alloc, Some(Range::Last(2)))?;
    assert!(rt; answer(alloc, Some(&asked), &reply, NOW, false)?.as_slice() == expected::HEAD_PART);
    let asked = Ask::HeadBucket(Bytes::from_slice(alloc, b"pics")?);
    assert!(rt;
        answer(alloc, Some(&asked), &Reply::Empty, NOW, false)?.as_slice() == expected::BUCKET_OK
    );
    Ok(())
}

#[test]
fn writes(rt: HostRuntime) -> Result<(), Fail> {
    let alloc = rt.alloc();
    let stored = told(alloc, Reply::Stored(WRITTEN, ETAG), false)?;
    assert!(rt; stored.as_slice() == expected::PUT_OK);
    let copied = told(alloc, Reply::Copied(WRITTEN, ETAG), false)?;
    assert!(rt; copied.as_slice() == expected::COPIED);
    assert!(rt; told(alloc, Reply::Deleted, true)?.as_slice() == expected::DELETED);
    Ok(())
}

const NO_KEY: (u16, Code) = (404, Code::NoSuchKey);

#[test]
fn refusals(rt: HostRuntime) -> Result<(), Fail> {
    let alloc = rt.alloc();
    let answer = refused(alloc, NO_KEY, b"/pics/a&<b\n\x1f", false, false)?;
    assert!(rt; answer.as_slice() == expected::NOT_FOUND);
    let answer = refused(alloc, NO_KEY, b"/pics/a", true, true)?;
    assert!(rt; answer.as_slice() == expected::REFUSED_HEAD);
    let answer = refused(alloc, (400, Code::InvalidRequest), b"", false, true)?;
    assert!(rt; answer.as_slice() == expected::BAD_HEAD);
    let answer = refused(
        alloc,
        (416, Code::InvalidRange),
        b"/pics/a.txt",
        false,
        false,
    )?;
    assert!(rt; answer.as_slice() == expected::BAD_RANGE);
    Ok(())
}

#[test]
fn buckets(rt: HostRuntime) -> Result<(), Fail> {
    let alloc = rt.alloc();
    let mut names = List::new(alloc);
    names.push(Bytes::from_slice(alloc, b"docs")?)?;
    names.push(Bytes::from_slice(alloc, b"pics")?)?;
    let reply = Reply::Buckets(names);
    assert!(rt;
        answer(alloc, Some(&Ask::ListBuckets), &reply, NOW, false)?.as_slice() == expected::BUCKETS
    );
    Ok(())
}
