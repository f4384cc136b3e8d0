//! Dates of headers and times of lists, against Python's datetime.
use crate::stored::ETAG;
use crdt_core::{Bytes, Memory};
use crdt_rows::Version;
use s3_answer::answer;
use s3_model::Reply;
use std::alloc::{AllocError, Global};
use std::test::Fail;

/// A time in milliseconds, its date in headers, and its time in lists.
const TIMES: [(u64, &[u8], &[u8]); 10] = [
    (
        0,
        b"Thu, 01 Jan 1970 00:00:00 GMT",
        b"1970-01-01T00:00:00.000Z",
    ),
    (
        951_782_400_999,
        b"Tue, 29 Feb 2000 00:00:00 GMT",
        b"2000-02-29T00:00:00.999Z",
    ),
    (
        1_700_000_000_000,
        b"Tue, 14 Nov 2023 22:13:20 GMT",
        b"2023-11-14T22:13:20.000Z",
    ),
    (
        1_709_164_800_007,
        b"Thu, 29 Feb 2024 00:00:00 GMT",
        b"2024-02-29T00:00:00.007Z",
    ),
    (
        4_107_542_399_999,
        b"Sun, 28 Feb 2100 23:59:59 GMT",
        b"2100-02-28T23:59:59.999Z",
    ),
    (
        4_107_542_400_000,
        b"Mon, 01 Mar 2100 00:00:00 GMT",
        b"2100-03-01T00:00:00.000Z",
    ),
    // the last millisecond of a year
    (
        1_735_689_599_999,
        b"Tue, 31 Dec 2024 23:59:59 GMT",
        b"2024-12-31T23:59:59.999Z",
    ),
    // the greatest clock value
    (
        253_402_000_000_000,
        b"Tue, 28 Dec 9999 12:26:40 GMT",
        b"9999-12-28T12:26:40.000Z",
    ),
    // the greatest time that is written
    (
        253_402_200_000_000,
        b"Thu, 30 Dec 9999 20:00:00 GMT",
        b"9999-12-30T20:00:00.000Z",
    ),
    // past the greatest time that is written
    (
        18_446_744_073_709_551_615,
        b"Thu, 30 Dec 9999 20:00:00 GMT",
        b"9999-12-30T20:00:00.000Z",
    ),
];

/// The answer to a copy that was written at this time and answered at the same.
fn copied(alloc: Global, ms: u64) -> Result<Bytes, Memory> {
    answer(
        alloc,
        None,
        &Reply::Copied(Version { ts: ms, id: 1 }, ETAG),
        ms,
        false,
    )
}

fn lines(alloc: Global, date: &[u8]) -> Result<Vec<u8>, AllocError> {
    let mut text = Vec::from_slice(alloc, b"HTTP/1.1 200 OK\r\nDate: ")?;
    text.extend_from_slice(date)?;
    text.extend_from_slice(
        b"\
            \r\n\
            Content-Length: 234\r\n\
            Content-Type: application/xml\r\n\r\n\
            <?xml version=\"1.0\" encoding=\"UTF-8\"?>\n\
            <CopyObjectResult xmlns=\"http://s3.amazonaws.com/doc/2006-03-01/\"><LastModified>",
    )?;
    Ok(text)
}

#[test]
fn dates(rt: HostRuntime) -> Result<(), Fail> {
    for (ms, date, time) in TIMES {
        let mut text = lines(rt.alloc(), date)?;
        text.extend_from_slice(time)?;
        let told = copied(rt.alloc(), ms)?;
        assert!(rt; told.as_slice().starts_with(text.as_slice()));
    }
    Ok(())
}
