//! Refusals that apply together, of which the first in the table of docs/S3.md is answered, and some that apply alone.
use lab_outside::Status;
use std::alloc::Global;
use std::test::Fail;
use test_links::served;

/// What a refusal's answer begins with, and its body up to the path.
type Refusal = (&'static [u8], &'static [u8]);

const TOO_LARGE: Refusal = (
    b"HTTP/1.1 400 Bad Request\r\n",
    b"<Error><Code>EntityTooLarge</Code><Message>EntityTooLarge</Message><Resource>",
);

const INCOMPLETE: Refusal = (
    b"HTTP/1.1 400 Bad Request\r\n",
    b"<Error><Code>IncompleteBody</Code><Message>IncompleteBody</Message><Resource>",
);

const NO_BUCKET: Refusal = (
    b"HTTP/1.1 404 Not Found\r\n",
    b"<Error><Code>NoSuchBucket</Code><Message>NoSuchBucket</Message><Resource>",
);

const LONG_KEY: Refusal = (
    b"HTTP/1.1 400 Bad Request\r\n",
    b"<Error><Code>KeyTooLongError</Code><Message>KeyTooLongError</Message><Resource>",
);

const BAD_ARGUMENT: Refusal = (
    b"HTTP/1.1 400 Bad Request\r\n",
    b"<Error><Code>InvalidArgument</Code><Message>InvalidArgument</Message><Resource>",
);

const NO_KEY: Refusal = (
    b"HTTP/1.1 404 Not Found\r\n",
    b"<Error><Code>NoSuchKey</Code><Message>NoSuchKey</Message><Resource>",
);

/// A request: its method, its path up to the key, how many `x` the key is, and what stands after it; and its refusal.
type Row = (&'static [u8], &'static [u8], usize, &'static [u8], Refusal);

/// Nothing was put before, and the digest is that of `abc`.
const REQUESTS: &[Row] = &[
    // too large, and into no bucket
    (
        b"PUT ",
        b"/none/",
        1,
        b" HTTP/1.1\r\nContent-Length: 16777217\r\n\r\n",
        TOO_LARGE,
    ),
    // a body that isn't whole, into no bucket
    (
        b"PUT ",
        b"/none/",
        1,
        b" HTTP/1.1\r\nContent-Length: 4\r\n\r\nabc",
        INCOMPLETE,
    ),
    // no bucket, and a long key; a wrong digest; a bad argument; a source that isn't there
    (b"GET ", b"/none/", 1025, b" HTTP/1.1\r\n\r\n", NO_BUCKET),
    (
        b"PUT ",
        b"/none/",
        1,
        b" HTTP/1.1\r\nContent-Length: 3\r\nContent-MD5: kAFQmDzST7DWlj99KOF/cg==\r\n\r\nabd",
        NO_BUCKET,
    ),
    (
        b"GET ",
        b"/none",
        0,
        b"?list-type=2&max-keys=x HTTP/1.1\r\n\r\n",
        NO_BUCKET,
    ),
    (
        b"PUT ",
        b"/none/",
        1,
        b" HTTP/1.1\r\nx-amz-copy-source: /pics/a\r\n\r\n",
        NO_BUCKET,
    ),
    // a long key, and a wrong digest; a bad argument; no object
    (
        b"PUT ",
        b"/pics/",
        1025,
        b" HTTP/1.1\r\nContent-Length: 3\r\nContent-MD5: kAFQmDzST7DWlj99KOF/cg==\r\n\r\nabd",
        LONG_KEY,
    ),
    (
        b"PUT ",
        b"/pics/",
        1025,
        b" HTTP/1.1\r\nx-amz-copy-source: /pics\r\n\r\n",
        LONG_KEY,
    ),
    (b"GET ", b"/pics/", 1025, b" HTTP/1.1\r\n\r\n", LONG_KEY),
    // no object, and a range that starts past each
    (
        b"GET ",
        b"/pics/",
        1,
        b" HTTP/1.1\r\nRange: bytes=-0\r\n\r\n",
        NO_KEY,
    ),
    // alone: a source without a key, one in no bucket, and no object under the longest key
    (
        b"PUT ",
        b"/pics/",
        1,
        b" HTTP/1.1\r\nx-amz-copy-source: /pics\r\n\r\n",
        BAD_ARGUMENT,
    ),
    (
        b"PUT ",
        b"/pics/",
        1,
        b" HTTP/1.1\r\nx-amz-copy-source: /none/a\r\n\r\n",
        NO_BUCKET,
    ),
    (b"GET ", b"/pics/", 1024, b" HTTP/1.1\r\n\r\n", NO_KEY),
];

/// The path up to the key, and the key.
fn path_of(alloc: Global, front: &[u8], count: usize) -> Result<Vec<u8>, Fail> {
    let mut path = front.to_vec(alloc)?;
    path.resize(front.len().saturating_add(count), b'x')?;
    Ok(path)
}

/// Three texts, one after the other.
fn joined(alloc: Global, texts: [&[u8]; 3]) -> Result<Vec<u8>, Fail> {
    let mut whole = Vec::new(alloc);
    for text in texts {
        whole.extend_from_slice(text)?;
    }
    Ok(whole)
}

/// What the answer that has this body up to the path ends with.
fn end_of(alloc: Global, body: &[u8], path: &[u8]) -> Result<Vec<u8>, Fail> {
    let mut end = body.to_vec(alloc)?;
    end.extend_from_slice(path)?;
    end.extend_from_slice(b"</Resource></Error>")?;
    Ok(end)
}

/// How a server of this one request ended, and whether its answer begins and ends so.
fn answered(
    alloc: Global,
    request: &[u8],
    start: &[u8],
    end: &[u8],
) -> Result<(Status, bool, bool), Fail> {
    let session = served(alloc, request)?;
    let starts = session.written.starts_with(start);
    let ends = session.written.ends_with(end);
    Ok((session.status, starts, ends))
}

/// The same for the request of a row, and what its refusal begins and ends with.
fn row_refused(
    alloc: Global,
    (method, front, count, back, (start, body)): Row,
) -> Result<(Status, bool, bool), Fail> {
    let path = path_of(alloc, front, count)?;
    let request = joined(alloc, [method, &path, back])?;
    let end = end_of(alloc, body, &path)?;
    answered(alloc, &request, start, &end)
}

#[test]
fn the_first_refusal(rt: HostRuntime) -> Result<(), Fail> {
    for row in REQUESTS {
        let (_, front, count, back, _) = *row;
        assert_eq!(rt;
            row_refused(rt.alloc(), *row)?,
            (Status::Done, true, true),
            "{front:?} {count} {back:?}"
        );
    }
    Ok(())
}
