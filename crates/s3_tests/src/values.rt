//! Ranges, lists, copy sources, digests, and what a head says of its connection.
use crate::reading::{asked, head};
use crdt_core::{Bytes, Memory};
use http_wire::Head;
use s3_model::{Ask, Code, Range};
use s3_request::{
    announced, closes, copy_source, expects, fault, is_digest, length_refusal, path, span,
    understand,
};
use std::alloc::Global;
use std::test::Fail;

// A Range header, the size of an object, and the first and the last place that are sent.
const RANGES: [(&[u8], &[u8]); 9] = [
    (
        b"GET /b/k HTTP/1.1\r\nRange: bytes=0-0\r\n\r\n",
        b"Get b k 0-0",
    ),
    (
        b"GET /b/k HTTP/1.1\r\nrange: bytes=3-\r\n\r\n",
        b"Get b k 3-",
    ),
    (
        b"HEAD /b/k HTTP/1.1\r\nRange: bytes=-1\r\n\r\n",
        b"Head b k -1",
    ),
    (
        b"GET /b/k HTTP/1.1\r\nRange: bytes=-0\r\nRange: bytes=0-\r\n\r\n",
        b"Get b k -0",
    ),
    (
        b"GET /b/k HTTP/1.1\r\nRange: bytes=3-2\r\n\r\n",
        b"Get b k all",
    ),
    (
        b"GET /b/k HTTP/1.1\r\nRange: Bytes=0-0\r\n\r\n",
        b"Get b k all",
    ),
    (
        b"GET /b/k HTTP/1.1\r\nRange: bytes=0-1,3-4\r\n\r\n",
        b"Get b k all",
    ),
    (
        b"GET /b/k HTTP/1.1\r\nRange: bytes=5\r\n\r\n",
        b"Get b k all",
    ),
    (
        b"GET /b/k HTTP/1.1\r\nRange: bytes=-\r\n\r\n",
        b"Get b k all",
    ),
];

const SPANS: [(Range, u64, Option<(u64, u64)>); 12] = [
    (Range::Between(0, 0), 10, Some((0, 0))),
    (Range::Between(3, 100), 10, Some((3, 9))),
    (Range::Between(9, 9), 10, Some((9, 9))),
    (Range::Between(10, 12), 10, None),
    (Range::From(3), 10, Some((3, 9))),
    (Range::From(10), 10, None),
    (Range::Last(1), 10, Some((9, 9))),
    (Range::Last(100), 10, Some((0, 9))),
    (Range::Last(0), 10, None),
    (Range::Between(0, 0), 0, None),
    (Range::From(0), 0, None),
    (Range::Last(5), 0, None),
];

#[test]
fn ranges_and_what_they_are(rt: HostRuntime) -> Result<(), Fail> {
    let alloc = rt.alloc();
    for (head, asks) in RANGES {
        let asked = asked(alloc, head)?;
        assert_eq!(rt; asked.as_slice(), asks);
    }
    for (range, size, places) in SPANS {
        assert!(&rt; span(range, size) == places, "{range:?} of {size}");
    }
    Ok(())
}

const LISTS: [(&[u8], &[u8]); 13] = [
    (
        b"GET /b/?list-type=2 HTTP/1.1\r\n\r\n",
        b"List b prefix  by none 1000 after  plain none none",
    ),
    (
        b"GET /b?list-type=2&start-after=k HTTP/1.1\r\n\r\n",
        b"List b prefix  by none 1000 after k plain none k",
    ),
    (
        b"GET /b?list-type=2&max-keys=0&delimiter= HTTP/1.1\r\n\r\n",
        b"List b prefix  by  0 after  plain none none",
    ),
    (
        b"GET /b?list-type=2&max-keys=999999999 HTTP/1.1\r\n\r\n",
        b"List b prefix  by none 1000 after  plain none none",
    ),
    (
        b"GET /b?list-type=2&max-keys=1000000000 HTTP/1.1\r\n\r\n",
        b"BadList b",
    ),
    (
        b"GET /b?list-type=2&max-keys= HTTP/1.1\r\n\r\n",
        b"BadList b",
    ),
    (
        b"GET /b?list-type=2&max-keys=-1 HTTP/1.1\r\n\r\n",
        b"BadList b",
    ),
    (
        b"GET /b?list-type=2&encoding-type=URL HTTP/1.1\r\n\r\n",
        b"BadList b",
    ),
    (
        b"GET /b?list-type=2&continuation-token=6b6A HTTP/1.1\r\n\r\n",
        b"List b prefix  by none 1000 after j plain 6b6A none",
    ),
    (
        b"GET /b?list-type=2&continuation-token=6b6 HTTP/1.1\r\n\r\n",
        b"BadList b",
    ),
    (
        b"GET /b?list-type=2&continuation-token=616a HTTP/1.1\r\n\r\n",
        b"BadList b",
    ),
    (
        b"GET /b?list-type=2&continuation-token= HTTP/1.1\r\n\r\n",
        b"BadList b",
    ),
    (
        b"GET /b?&&list-type=2&prefix=a%26b%3dc&prefix=z&x-id=ListObjectsV2 HTTP/1.1\r\n\r\n",
        b"List b prefix a&b=c by none 1000 after  plain none none",
    ),
];

#[test]
fn lists_and_their_tokens(rt: HostRuntime) -> Result<(), Fail> {
    let alloc = rt.alloc();
    for (head, asks) in LISTS {
        let asked = asked(alloc, head)?;
        assert_eq!(rt; asked.as_slice(), asks);
    }
    Ok(())
}

// The value of x-amz-copy-source, and the bucket and key.
const SOURCES: [(&[u8], Option<(&[u8], &[u8])>); 7] = [
    (b"pics/a/b", Some((b"pics", b"a/b"))),
    (b"/pics/a", Some((b"pics", b"a"))),
    (b"%2Fpics%2Fa%20b", Some((b"pics", b"a b"))),
    (b"pics/", Some((b"pics", b""))),
    (b"//a", Some((b"", b"a"))),
    (b"/pics", None),
    (b"", None),
];

/// Whether this value names this bucket and key, or nothing.
fn names(alloc: Global, value: &[u8], source: Option<(&[u8], &[u8])>) -> Result<bool, Memory> {
    let named = copy_source(&Bytes::from_slice(alloc, value)?)?;
    match (&named, source) {
        (Some((bucket, key)), Some((from, name))) => {
            Ok(bucket.as_slice() == from && key.as_slice() == name)
        }
        (None, None) => Ok(true),
        _ => Ok(false),
    }
}

#[test]
fn copy_sources(rt: HostRuntime) -> Result<(), Fail> {
    let alloc = rt.alloc();
    for (value, source) in SOURCES {
        assert!(&rt; names(alloc, value, source)?, "{value:?}");
    }
    Ok(())
}

fn is_of(alloc: Global, value: &[u8], body: &[u8]) -> Result<bool, Fail> {
    let same = is_digest(&Bytes::from_slice(alloc, value)?, body)?;
    Ok(same)
}

// The digests of RFC 1321's test suite, in base64.
#[test]
fn digests_of_bodies(rt: HostRuntime) -> Result<(), Fail> {
    let alloc = rt.alloc();
    assert!(&rt; is_of(alloc, b"kAFQmDzST7DWlj99KOF/cg==", b"abc")?);
    assert!(&rt; is_of(alloc, b"1B2M2Y8AsgTpgAmY7PhCfg==", b"")?);
    assert!(&rt; !is_of(alloc, b"kAFQmDzST7DWlj99KOF/cg==", b"abd")?);
    assert!(&rt; !is_of(alloc, b"kAFQmDzST7DWlj99KOF/cg", b"abc")?);
    Ok(())
}

// A head, its announced length, whether its connection closes, and whether its client waits.
const CONNECTIONS: [(&[u8], u64, bool, bool); 5] = [
    (
        b"PUT /b/k HTTP/1.1\r\nContent-Length: 07\r\nExpect: 100-Continue\r\n\r\n",
        7,
        false,
        true,
    ),
    (
        b"PUT /b/k HTTP/1.0\r\nContent-Length: 3\r\nExpect: 100-continue\r\n\r\n",
        3,
        true,
        false,
    ),
    (
        b"GET /b/k HTTP/1.1\r\nConnection: keep-alive\r\nconnection: Keep-Alive, Close\r\n\r\n",
        0,
        true,
        false,
    ),
    (
        b"GET /b/k HTTP/1.1\r\nConnection: keep-alive\r\nExpect: 100\r\n\r\n",
        0,
        false,
        false,
    ),
    (
        b"GET /b/k HTTP/1.1\r\nContent-Length: x\r\n\r\n",
        0,
        false,
        false,
    ),
];

#[test]
fn connections_and_lengths(rt: HostRuntime) -> Result<(), Fail> {
    let alloc = rt.alloc();
    for (bytes, length, close, wait) in CONNECTIONS {
        let head = head(alloc, bytes)?;
        assert!(&rt; announced(&head) == length);
        assert!(&rt; closes(&head) == close);
        assert!(&rt; expects(&head) == wait);
        assert_eq!(rt; path(head.target.as_slice()), b"/b/k".as_slice());
    }
    Ok(())
}

/// Whether this ask may come with the head's length.
fn may_come(head: &Head, ask: Ask) -> bool {
    length_refusal(head, &ask).is_none()
}

/// The length of the upload that a head asks, where its length is refused.
fn refused_length(head: &Head) -> Option<u64> {
    match understand(head) {
        Ok(ask) => {
            let length = match &ask {
                Ask::Put { length, .. } => Some(*length),
                _ => None,
            };
            if may_come(head, ask) { None } else { length }
        }
        Err(_) => None,
    }
}

// Uploads whose length is refused, and the length that is taken from them.
const BAD_LENGTHS: [(&[u8], u64); 4] = [
    (b"PUT /b/k HTTP/1.1\r\n\r\n", 0),
    (b"PUT /b/k HTTP/1.1\r\nContent-Length: x\r\n\r\n", 0),
    (
        b"PUT /b/k HTTP/1.1\r\nContent-Length: 3\r\nContent-Length: 4\r\n\r\n",
        0,
    ),
    (
        b"PUT /b/k HTTP/1.1\r\nContent-Length: 16777217\r\n\r\n",
        16_777_217,
    ),
];

#[test]
fn uploads_whose_length_is_refused(rt: HostRuntime) -> Result<(), Fail> {
    for (bytes, length) in BAD_LENGTHS {
        let head = head(rt.alloc(), bytes)?;
        assert!(&rt; refused_length(&head) == Some(length));
    }
    Ok(())
}

#[test]
fn a_length_that_is_refused(rt: HostRuntime) -> Result<(), Fail> {
    let alloc = rt.alloc();
    let head = head(alloc, b"PUT /b/k HTTP/1.1\r\n\r\n")?;
    assert!(&rt; may_come(&head, Ask::ListBuckets));
    assert!(&rt; fault(Code::InvalidRange).status == 416);
    assert!(&rt; !fault(Code::NoSuchKey).close);
    Ok(())
}
