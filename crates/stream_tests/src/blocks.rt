//! Gets of an object that is kept in three blocks, which are written as they come: the answers are those that were worked
//! out by hand from docs/S3.md, whatever the range, and the cluster ends up the same wherever the link fails.
use crate::uploads::{body, cluster, joined};
use lab_outside::Status;
use std::alloc::Global;
use std::test::Fail;
use test_links::{Call, Ended, Fault, FaultyLink, ONE_CONNECTION, recorded, served_with};

/// How many bytes the object has: two blocks of 4,096 and a thousand.
const SIZE: usize = 9192;

/// The answer to its put.
const PUT_ANSWER: &[u8] = b"\
    HTTP/1.1 200 OK\r\n\
    Date: Tue, 14 Nov 2023 22:13:20 GMT\r\n\
    Content-Length: 0\r\n\
    ETag: \"62eef9098248db26703241f9f7144599\"\r\n\r\n";

/// The head of the answer to a get, up to the length.
const WHOLE: &[u8] = b"\
    HTTP/1.1 200 OK\r\n\
    Date: Tue, 14 Nov 2023 22:13:20 GMT\r\n\
    Content-Length: ";

/// The same of a part.
const PART: &[u8] = b"\
    HTTP/1.1 206 Partial Content\r\n\
    Date: Tue, 14 Nov 2023 22:13:20 GMT\r\n\
    Content-Length: ";

/// What follows the length.
const SAID: &[u8] = b"\r\n\
    ETag: \"62eef9098248db26703241f9f7144599\"\r\n\
    Last-Modified: Tue, 14 Nov 2023 22:13:20 GMT\r\n\
    Content-Type: application/octet-stream\r\n\
    Accept-Ranges: bytes\r\n";

/// The answer to a range that isn't one of the object.
const NO_RANGE: &[u8] = b"\
    HTTP/1.1 416 Range Not Satisfiable\r\n\
    Date: Tue, 14 Nov 2023 22:13:20 GMT\r\n\
    Content-Length: 138\r\n\
    Content-Type: application/xml\r\n\r\n\
    <?xml version=\"1.0\" encoding=\"UTF-8\"?>\n\
    <Error><Code>InvalidRange</Code><Message>InvalidRange</Message><Resource>/pics/a</Resource></Error>";

/// A range that is asked, the length and the place that the answer names, and the bytes from the first to before the last.
type Range = (&'static [u8], &'static [u8], &'static [u8], usize, usize);

/// Within a block, at its borders, across one and two of them, from the end, and past it.
const RANGES: &[Range] = &[
    (b"0-0", b"1", b"0-0", 0, 1),
    (b"0-4095", b"4096", b"0-4095", 0, 4096),
    (b"4095-4095", b"1", b"4095-4095", 4095, 4096),
    (b"4095-4096", b"2", b"4095-4096", 4095, 4097),
    (b"4096-4096", b"1", b"4096-4096", 4096, 4097),
    (b"4096-8191", b"4096", b"4096-8191", 4096, 8192),
    (b"100-8299", b"8200", b"100-8299", 100, 8300),
    (b"8191-", b"1001", b"8191-9191", 8191, 9192),
    (b"8192-9191", b"1000", b"8192-9191", 8192, 9192),
    (b"9191-", b"1", b"9191-9191", 9191, 9192),
    (b"9000-20000", b"192", b"9000-9191", 9000, 9192),
    (b"-1", b"1", b"9191-9191", 9191, 9192),
    (b"-1000", b"1000", b"8192-9191", 8192, 9192),
    (b"-1001", b"1001", b"8191-9191", 8191, 9192),
    (b"-20000", b"9192", b"0-9191", 0, 9192),
];

/// The object is put, and this is asked then.
fn asked(alloc: Global, object: &[u8], ask: &[u8]) -> Result<Vec<u8>, Fail> {
    let head: &[u8] = b"PUT /pics/a HTTP/1.1\r\nContent-Length: 9192\r\n\r\n";
    joined(alloc, &[head, object, ask])
}

/// How a server ended over the connection on which this is asked behind the put, and what was written to it behind the
/// answer to the put.
fn answer_to(alloc: Global, ask: &[u8]) -> Result<(Status, Vec<u8>), Fail> {
    let bytes = asked(alloc, &body(alloc, SIZE)?, ask)?;
    let mut link = recorded(alloc, &bytes, 65_536)?;
    let end = served_with(alloc, &cluster(alloc, b"4096")?, ONE_CONNECTION, &mut link)?;
    let answer = match link.written().strip_prefix(PUT_ANSWER) {
        Some(answer) => answer,
        None => return Err("the put".into()),
    };
    Ok((end.status, answer.to_vec(alloc)?))
}

/// A server over a connection of whose writes one fails, which gets the object: how it ended, and how many writes were tried.
fn write_fails(alloc: Global, number: u64) -> Result<(Ended, u64), Fail> {
    let bytes = asked(alloc, &body(alloc, SIZE)?, b"GET /pics/a HTTP/1.1\r\n\r\n")?;
    let fault = Fault {
        call: Call::Write,
        number,
    };
    let mut link = FaultyLink::new(alloc, &bytes, 65_536, fault)?;
    let end = served_with(alloc, &cluster(alloc, b"4096")?, ONE_CONNECTION, &mut link)?;
    Ok((end, link.calls()))
}

/// What a get of this range is to be answered.
fn part(
    alloc: Global,
    object: &[u8],
    (_, length, place, from, to): Range,
) -> Result<Vec<u8>, Fail> {
    let bytes = match object.get(from..to) {
        Some(bytes) => bytes,
        None => return Err("a range of the object".into()),
    };
    let mut answer = joined(
        alloc,
        &[
            PART,
            length,
            SAID,
            b"Content-Range: bytes ",
            place,
            b"/9192\r\n\r\n",
        ],
    )?;
    answer.extend_from_slice(bytes)?;
    Ok(answer)
}

#[test]
fn ranges_across_blocks(rt: HostRuntime) -> Result<(), Fail> {
    let alloc = rt.alloc();
    let object = body(alloc, SIZE)?;
    for range in RANGES {
        let (asked, ..) = *range;
        let ask = joined(
            alloc,
            &[b"GET /pics/a HTTP/1.1\r\nRange: bytes=", asked, b"\r\n\r\n"],
        )?;
        let (status, answer) = answer_to(alloc, &ask)?;
        assert_eq!(rt; status, Status::Done);
        assert!(rt; answer == part(alloc, &object, *range)?, "{asked:?}");
    }
    Ok(())
}

/// The whole object, its head, and the object for a client that waits for the connection's end.
#[test]
fn whole_objects(rt: HostRuntime) -> Result<(), Fail> {
    let alloc = rt.alloc();
    let object = body(alloc, SIZE)?;
    let whole = joined(alloc, &[WHOLE, b"9192", SAID, b"\r\n", &object])?;
    let head = joined(alloc, &[WHOLE, b"9192", SAID, b"\r\n"])?;
    let closed = joined(
        alloc,
        &[WHOLE, b"9192", SAID, b"Connection: close\r\n\r\n", &object],
    )?;
    let rows: [(&[u8], Vec<u8>); 3] = [
        (b"GET /pics/a HTTP/1.1\r\n\r\n", whole),
        (b"HEAD /pics/a HTTP/1.1\r\n\r\n", head),
        (b"GET /pics/a HTTP/1.0\r\n\r\n", closed),
    ];
    for (ask, wanted) in rows {
        let (status, answer) = answer_to(alloc, ask)?;
        assert_eq!(rt; status, Status::Done);
        assert!(rt; answer == wanted, "{ask:?}");
    }
    Ok(())
}

/// Nothing of the object is written before its range is judged.
#[test]
fn ranges_of_no_byte(rt: HostRuntime) -> Result<(), Fail> {
    for range in [b"9192-".as_slice(), b"20000-20001", b"-0"] {
        let ask = joined(
            rt.alloc(),
            &[b"GET /pics/a HTTP/1.1\r\nRange: bytes=", range, b"\r\n\r\n"],
        )?;
        let (status, answer) = answer_to(rt.alloc(), &ask)?;
        assert_eq!(rt; status, Status::Done);
        assert_eq!(rt; answer.as_slice(), NO_RANGE, "{range:?}");
    }
    Ok(())
}

/// Whichever write of the get fails, that of its head or of a block, it is the last one that is tried, and the nodes and the
/// numbers at the end are those of the get that is written whole: it went on to its end.
#[test]
fn each_write_of_a_get_fails(rt: HostRuntime) -> Result<(), Fail> {
    let (whole, writes) = write_fails(rt.alloc(), 0)?;
    assert_eq!(rt; (whole.status, writes), (Status::Done, 5));
    for number in 2..=5 {
        let (end, tried) = write_fails(rt.alloc(), number)?;
        assert_eq!(rt; (end.status, tried), (Status::Done, number));
        assert!(rt; end.output == whole.output, "at write {number}");
    }
    Ok(())
}
