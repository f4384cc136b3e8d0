//! Heads, in pieces of any size, at the limits, and after reads that fail.
ghost use Rattle.std.specs.Prelude.{◌<◌};

use crate::fixtures::{body_at_last, connection, head_at_last, next_body, next_head, text};
use http_wire::{Kept, read_head};
use std::alloc::{AllocError, Global};
use std::test::Fail;

// What clients send, and what it says.
const CLIENTS: [(&[u8], &[u8]); 3] = [
    (
        b"\
            GET /pics/a%20b?list-type=2&prefix= HTTP/1.1\r\n\
            Host: localhost:3900\r\n\
            User-Agent: curl/8.5.0\r\n\
            Accept: */*\r\n\r\n",
        b"GET /pics/a%20b?list-type=2&prefix= 1[Host=localhost:3900][User-Agent=curl/8.5.0][Accept=*/*]",
    ),
    (
        b"\
            PUT /pics/key HTTP/1.1\r\n\
            Host: 127.0.0.1:3900\r\n\
            Accept-Encoding: identity\r\n\
            User-Agent: Boto3/1.34.0 md/Botocore#1.34.0\r\n\
            Content-MD5: kAFQmDzST7DWlj99KOF/cg==\r\n\
            Expect: 100-continue\r\n\
            Content-Length: 3\r\n\r\n",
        b"\
            PUT /pics/key 1[Host=127.0.0.1:3900][Accept-Encoding=identity]\
            [User-Agent=Boto3/1.34.0 md/Botocore#1.34.0][Content-MD5=kAFQmDzST7DWlj99KOF/cg==]\
            [Expect=100-continue][Content-Length=3]",
    ),
    (
        b"HEAD / HTTP/1.0\nx-amz-meta-a: \t two  words \t\nEmpty:\n\n",
        b"HEAD / 0[x-amz-meta-a=two  words][Empty=]",
    ),
];

// Whether bytes in such pieces are a head that says this, the body `abc`, one more head, and the end.
fn in_pieces(alloc: Global, bytes: &[u8], size: usize, said: &[u8]) -> Result<[bool; 4], Fail>
    requires { 0 < size }
{
    let mut link = connection(alloc, bytes, size, &[])?;
    let mut kept = Kept::new(alloc);
    let head = next_head(alloc, &mut link, &mut kept, said)?;
    let body = next_body(alloc, &mut link, &mut kept, b"abc");
    let next = next_head(alloc, &mut link, &mut kept, b"GET /next 1")?;
    let last = next_head(alloc, &mut link, &mut kept, b"closed")?;
    Ok([head, body, next, last])
}

#[test]
fn pieces_of_each_size(rt: HostRuntime) -> Result<(), Fail> {
    let alloc = rt.alloc();
    for (bytes, said) in CLIENTS {
        let mut both = bytes.to_vec(alloc)?;
        both.extend_from_slice(b"abcGET /next HTTP/1.1\r\n\r\n")?;
        for size in 1..=both.len() {
            assert_eq!(rt;
                in_pieces(alloc, &both, size, said)?,
                [true; 4],
                "in pieces of {size}"
            );
        }
    }
    Ok(())
}

// What bytes begin with, and what follows the head; where none ends, all is kept.
const LINES: [(&[u8], &[u8], &[u8]); 12] = [
    (b"", b"closed", b""),
    (b"GET / HTTP/1.1\r\n", b"closed", b"GET / HTTP/1.1\r\n"),
    (b"\r\n\n\r\n", b"closed", b"\r\n\n\r\n"),
    (b"GET / HTTP/1.1\n\nrest", b"GET / 1", b"rest"),
    (b"\n\r\n\nGET / HTTP/1.1\n\nrest", b"GET / 1", b"rest"),
    (b"GET / HTTP/1.1\nA: b\r\n\nrest", b"GET / 1[A=b]", b"rest"),
    (b"GET / HTTP/1.1\nA: b\n\r\nrest", b"GET / 1[A=b]", b"rest"),
    (b"GET / HTTP/1.1\r\n\r\r\n\r\nrest", b"bad", b"rest"),
    (b"GET / HTTP/2.0\r\n\r\nrest", b"bad", b"rest"),
    (b"GET /\n\nrest", b"bad", b"rest"),
    (b"GET / HTTP/1.1\r\nA b\r\n\r\nrest", b"bad", b"rest"),
    (b"GET / HTTP/1.1\r\n\r\n\r\n", b"GET / 1", b"\r\n"),
];

// Whether the first head of these bytes says this, and whether this follows it.
fn first_head(alloc: Global, bytes: &[u8], said: &[u8], rest: &[u8]) -> Result<[bool; 2], Fail> {
    let mut link = connection(alloc, bytes, 100, &[])?;
    let mut kept = Kept::new(alloc);
    let says = next_head(alloc, &mut link, &mut kept, said)?;
    Ok([says, kept.bytes.as_slice() == rest])
}

#[test]
fn ends_of_lines(rt: HostRuntime) -> Result<(), Fail> {
    let alloc = rt.alloc();
    for (bytes, said, rest) in LINES {
        assert_eq!(rt; first_head(alloc, bytes, said, rest)?, [true; 2]);
    }
    Ok(())
}

// A head of so many bytes, 23 at least.
fn long_head(alloc: Global, size: usize) -> Result<Vec<u8>, AllocError> {
    let mut bytes = Vec::new(alloc);
    bytes.extend_from_slice(b"GET / HTTP/1.1\r\nA: ")?;
    bytes.resize(size.saturating_sub(4), b'a')?;
    bytes.extend_from_slice(b"\r\n\r\n")?;
    Ok(bytes)
}

// Whether a head in such pieces is read, and whether it is too long.
fn is_read(alloc: Global, bytes: &[u8], piece: usize) -> Result<[bool; 2], Fail>
    requires { 0 < piece }
{
    let mut link = connection(alloc, bytes, piece, &[])?;
    let head = read_head(alloc, &mut link, &mut Kept::new(alloc));
    let said = text(alloc, &head)?;
    Ok([head.is_ok(), said.as_slice() == b"too long".as_slice()])
}

#[test]
fn as_long_as_a_head_may_be(rt: HostRuntime) -> Result<(), Fail> {
    let alloc = rt.alloc();
    for (size, fits) in [(16383, true), (16384, true), (16385, false)] {
        for piece in [1, 4096, 5000, 20000] {
            let bytes = long_head(alloc, size)?;
            assert_eq!(rt; bytes.len(), size);
            assert_eq!(rt;
                is_read(alloc, &bytes, piece)?,
                [fits, !fits],
                "{size} bytes in pieces of {piece}"
            );
        }
    }
    Ok(())
}

// A head of so many headers.
fn many_headers(alloc: Global, count: usize) -> Result<Vec<u8>, AllocError> {
    let mut bytes = b"GET / HTTP/1.1\n".to_vec(alloc)?;
    for _ in 0..count {
        bytes.extend_from_slice(b"a:b\n")?;
    }
    bytes.extend_from_slice(b"\n")?;
    Ok(bytes)
}

// Whether a head of so many headers isn't bad, and whether all of them are read.
fn has_all(alloc: Global, count: usize) -> Result<[bool; 2], Fail> {
    let mut link = connection(alloc, &many_headers(alloc, count)?, 100, &[])?;
    let head = read_head(alloc, &mut link, &mut Kept::new(alloc));
    let said = text(alloc, &head)?;
    Ok([
        said.as_slice() != b"bad".as_slice(),
        head.is_ok_and(|head| head.headers.len() == count),
    ])
}

#[test]
fn as_many_headers_as_a_head_may_have(rt: HostRuntime) -> Result<(), Fail> {
    let alloc = rt.alloc();
    for (count, fits) in [(0, true), (64, true), (65, false)] {
        assert_eq!(rt; has_all(alloc, count)?, [fits, fits], "{count} headers");
    }
    Ok(())
}

// Whether the head and the body are these where read `k` of so many bytes fails.
fn after_a_fault(alloc: Global, bytes: &[u8], size: usize, k: u64) -> Result<[bool; 2], Fail>
    requires { 0 < size }
{
    let mut link = connection(alloc, bytes, size, &[k])?;
    let mut kept = Kept::new(alloc);
    let head = head_at_last(alloc, &mut link, &mut kept, b"GET /a 1")?;
    let body = body_at_last(alloc, &mut link, &mut kept, b"abc");
    Ok([head, body])
}

#[test]
fn nothing_is_lost_after_a_read_that_fails(rt: HostRuntime) -> Result<(), Fail> {
    let alloc = rt.alloc();
    let bytes = b"GET /a HTTP/1.1\r\n\r\nabc";
    for size in 1..=4 {
        for k in 1..=bytes.len() as u64 {
            assert_eq!(rt;
                after_a_fault(alloc, bytes, size, k)?,
                [true; 2],
                "at read {k} of {size} bytes"
            );
        }
    }
    Ok(())
}
