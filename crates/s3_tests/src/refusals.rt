//! Each refusal of a head, and which of two comes first.
use crate::reading::asked;
use std::test::Fail;

const INVALID: &[u8] = b"refused 400 InvalidRequest close";

const NOT_IMPLEMENTED: &[u8] = b"refused 501 NotImplemented close";

const NO_LENGTH: &[u8] = b"refused 411 MissingContentLength close";

const TOO_LARGE: &[u8] = b"refused 400 EntityTooLarge close";

// Targets that are no path, and keys that are no text.
const TARGETS: [(&[u8], &[u8]); 3] = [
    (b"OPTIONS * HTTP/1.1\r\n\r\n", INVALID),
    (b"GET http://localhost/pics/k HTTP/1.1\r\n\r\n", INVALID),
    (b"GET /pics/%ff HTTP/1.1\r\n\r\n", INVALID),
];

// Operations that aren't served.
const OPERATIONS: [(&[u8], &[u8]); 10] = [
    (
        b"PUT /pics HTTP/1.1\r\nContent-Length: 0\r\n\r\n",
        NOT_IMPLEMENTED,
    ),
    (b"DELETE /pics HTTP/1.1\r\n\r\n", NOT_IMPLEMENTED),
    (b"GET /pics HTTP/1.1\r\n\r\n", NOT_IMPLEMENTED),
    (b"GET /pics?list-type=1 HTTP/1.1\r\n\r\n", NOT_IMPLEMENTED),
    (
        b"GET /pics?list-type=2&versions HTTP/1.1\r\n\r\n",
        NOT_IMPLEMENTED,
    ),
    (
        b"GET /pics?list-type=1&list-type=2 HTTP/1.1\r\n\r\n",
        NOT_IMPLEMENTED,
    ),
    (b"HEAD / HTTP/1.1\r\n\r\n", NOT_IMPLEMENTED),
    (b"GET /pics/k?acl HTTP/1.1\r\n\r\n", NOT_IMPLEMENTED),
    (b"POST /pics/k?uploads HTTP/1.1\r\n\r\n", NOT_IMPLEMENTED),
    (b"get /pics/k HTTP/1.1\r\n\r\n", NOT_IMPLEMENTED),
];

// Headers that aren't served.
const HEADERS: [(&[u8], &[u8]); 13] = [
    (
        b"GET /pics/k HTTP/1.1\r\nTransfer-Encoding: chunked\r\n\r\n",
        NOT_IMPLEMENTED,
    ),
    (
        b"GET /pics/k HTTP/1.1\r\nIf-Match: x\r\n\r\n",
        NOT_IMPLEMENTED,
    ),
    (
        b"GET /pics/k HTTP/1.1\r\nif-none-match: *\r\n\r\n",
        NOT_IMPLEMENTED,
    ),
    (
        b"GET /pics/k HTTP/1.1\r\nIf-Modified-Since: x\r\n\r\n",
        NOT_IMPLEMENTED,
    ),
    (
        b"GET /pics/k HTTP/1.1\r\nIf-Unmodified-Since: x\r\n\r\n",
        NOT_IMPLEMENTED,
    ),
    (
        b"GET /pics/k HTTP/1.1\r\nIf-Range: x\r\n\r\n",
        NOT_IMPLEMENTED,
    ),
    (
        b"GET /pics/k HTTP/1.1\r\nX-Amz-Server-Side-Encryption-Customer-Algorithm: AES256\r\n\r\n",
        NOT_IMPLEMENTED,
    ),
    (
        b"GET /pics/k HTTP/1.1\r\nx-amz-copy-source-if-match: x\r\n\r\n",
        NOT_IMPLEMENTED,
    ),
    (
        b"GET /pics/k HTTP/1.1\r\nx-amz-content-sha256: streaming-unsigned-payload-trailer\r\n\r\n",
        NOT_IMPLEMENTED,
    ),
    (
        b"GET /pics/k HTTP/1.1\r\nContent-Encoding: gzip, AWS-chunked\r\n\r\n",
        NOT_IMPLEMENTED,
    ),
    (
        b"GET /pics/k HTTP/1.1\r\nx-amz-copy-source: pics/a?versionId=1\r\n\r\n",
        NOT_IMPLEMENTED,
    ),
    (
        b"GET /pics/k HTTP/1.1\r\nContent-Encoding: gzip\r\nIf-Ranges: x\r\n\r\n",
        b"Get pics k all",
    ),
    (
        b"GET /pics/k HTTP/1.1\r\nx-amz-content-sha256: STREAMING\r\nx-amz-copy-source: pics/a%3Fb\r\n\r\n",
        b"Get pics k all",
    ),
];

// Lengths that are missing, no numbers, two, or too great.
const LENGTHS: [(&[u8], &[u8]); 11] = [
    (b"PUT /pics/k HTTP/1.1\r\n\r\n", NO_LENGTH),
    (
        b"PUT /pics/k HTTP/1.1\r\nx-amz-copy-source: pics/a\r\n\r\n",
        b"Copy pics/a pics k ",
    ),
    (b"GET /pics/k HTTP/1.1\r\nContent-Length:\r\n\r\n", INVALID),
    (
        b"GET /pics/k HTTP/1.1\r\nContent-Length: +3\r\n\r\n",
        INVALID,
    ),
    (
        b"GET /pics/k HTTP/1.1\r\nContent-Length: 0000000000000000003\r\n\r\n",
        INVALID,
    ),
    (
        b"GET /pics/k HTTP/1.1\r\nContent-Length: 3\r\ncontent-length: 03\r\n\r\n",
        INVALID,
    ),
    (
        b"GET /pics/k HTTP/1.1\r\nContent-Length: 3\r\ncontent-length: x\r\n\r\n",
        INVALID,
    ),
    (
        b"GET /pics/k HTTP/1.1\r\nContent-Length: 3\r\ncontent-length: 3\r\n\r\n",
        b"Get pics k all",
    ),
    (
        b"GET /pics/k HTTP/1.1\r\nContent-Length: 000000000000000003\r\n\r\n",
        b"Get pics k all",
    ),
    (
        b"GET /pics/k HTTP/1.1\r\nContent-Length: 16777217\r\n\r\n",
        TOO_LARGE,
    ),
    (
        b"PUT /pics/k HTTP/1.1\r\nContent-Length: 999999999999999999\r\n\r\n",
        TOO_LARGE,
    ),
];

// Two refusals apply, and the earlier one of the table is answered.
const PAIRS: [(&[u8], &[u8]); 12] = [
    (b"POST /pics/%ff HTTP/1.1\r\n\r\n", INVALID),
    (b"GET /pics/%ff HTTP/1.1\r\nIf-Match: x\r\n\r\n", INVALID),
    (b"PUT /pics/%ff HTTP/1.1\r\n\r\n", INVALID),
    (
        b"PUT /pics/%ff HTTP/1.1\r\nContent-Length: x\r\n\r\n",
        INVALID,
    ),
    (
        b"PUT /pics/%ff HTTP/1.1\r\nContent-Length: 16777217\r\n\r\n",
        INVALID,
    ),
    (
        b"POST /pics/k HTTP/1.1\r\nIf-Match: x\r\n\r\n",
        NOT_IMPLEMENTED,
    ),
    (
        b"POST /pics/k HTTP/1.1\r\nContent-Length: x\r\n\r\n",
        NOT_IMPLEMENTED,
    ),
    (
        b"POST /pics/k HTTP/1.1\r\nContent-Length: 16777217\r\n\r\n",
        NOT_IMPLEMENTED,
    ),
    (
        b"PUT /pics/k HTTP/1.1\r\nTransfer-Encoding: chunked\r\n\r\n",
        NOT_IMPLEMENTED,
    ),
    (
        b"PUT /pics/k HTTP/1.1\r\nIf-Match: x\r\nContent-Length: x\r\n\r\n",
        NOT_IMPLEMENTED,
    ),
    (
        b"PUT /pics/k HTTP/1.1\r\nIf-Match: x\r\nContent-Length: 16777217\r\n\r\n",
        NOT_IMPLEMENTED,
    ),
    (
        b"PUT /pics/k HTTP/1.1\r\nContent-Length: 16777217\r\nContent-Length: 3\r\n\r\n",
        INVALID,
    ),
];

#[test]
fn each_refusal(rt: HostRuntime) -> Result<(), Fail> {
    let alloc = rt.alloc();
    for table in [
        TARGETS.as_slice(),
        OPERATIONS.as_slice(),
        HEADERS.as_slice(),
        LENGTHS.as_slice(),
    ] {
        for (head, asks) in table {
            let asked = asked(alloc, head)?;
            assert_eq!(rt; asked.as_slice(), *asks);
        }
    }
    Ok(())
}

#[test]
fn the_first_refusal_of_two(rt: HostRuntime) -> Result<(), Fail> {
    let alloc = rt.alloc();
    for (head, asks) in PAIRS {
        let asked = asked(alloc, head)?;
        assert_eq!(rt; asked.as_slice(), asks);
    }
    Ok(())
}
