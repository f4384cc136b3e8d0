//! Puts of 3,072 bytes and more, which come block by block: the answers, the rows and blocks that nodes have at the end, and
//! the number of messages are those that were worked out by hand, also of a put that is given up.
use lab_outside::{PieceLink, Status};
use std::alloc::Global;
use std::test::Fail;
use test_links::{
    Call, Conversation, Ended, Fault, FaultyLink, ONE_CONNECTION, ONE_LAYOUT, Recorder, goes_on,
    recorded, served_with,
};

/// Three nodes in three zones, behind the size of blocks in bytes.
const NODES: &[u8] = b"\n\
    buckets = ['pics']\n\
    [[node]]\n\
    id = 1\n\
    zone = 'a'\n\
    capacity = 1000\n\
    [[node]]\n\
    id = 2\n\
    zone = 'b'\n\
    capacity = 1000\n\
    [[node]]\n\
    id = 3\n\
    zone = 'c'\n\
    capacity = 1000\n";

/// The answer to a put of which the input ends too early.
const INCOMPLETE: &[u8] = b"\
    HTTP/1.1 400 Bad Request\r\n\
    Date: Tue, 14 Nov 2023 22:13:20 GMT\r\n\
    Content-Length: 142\r\n\
    Content-Type: application/xml\r\n\
    Connection: close\r\n\r\n\
    <?xml version=\"1.0\" encoding=\"UTF-8\"?>\n\
    <Error><Code>IncompleteBody</Code><Message>IncompleteBody</Message><Resource>/pics/a</Resource></Error>";

/// The answer to a put whose digest is another one.
const BAD_DIGEST: &[u8] = b"\
    HTTP/1.1 400 Bad Request\r\n\
    Date: Tue, 14 Nov 2023 22:13:20 GMT\r\n\
    Content-Length: 132\r\n\
    Content-Type: application/xml\r\n\r\n\
    <?xml version=\"1.0\" encoding=\"UTF-8\"?>\n\
    <Error><Code>BadDigest</Code><Message>BadDigest</Message><Resource>/pics/a</Resource></Error>";

/// The answer to a get of a key that isn't there.
const NO_KEY: &[u8] = b"\
    HTTP/1.1 404 Not Found\r\n\
    Date: Tue, 14 Nov 2023 22:13:20 GMT\r\n\
    Content-Length: 132\r\n\
    Content-Type: application/xml\r\n\r\n\
    <?xml version=\"1.0\" encoding=\"UTF-8\"?>\n\
    <Error><Code>NoSuchKey</Code><Message>NoSuchKey</Message><Resource>/pics/a</Resource></Error>";

/// The answer to a put in a bucket that isn't there.
const NO_BUCKET: &[u8] = b"\
    HTTP/1.1 404 Not Found\r\n\
    Date: Tue, 14 Nov 2023 22:13:20 GMT\r\n\
    Content-Length: 136\r\n\
    Content-Type: application/xml\r\n\r\n\
    <?xml version=\"1.0\" encoding=\"UTF-8\"?>\n\
    <Error><Code>NoSuchBucket</Code><Message>NoSuchBucket</Message><Resource>/no/a</Resource></Error>";

/// The answer to a put, up to its ETag.
const STORED: &[u8] = b"\
    HTTP/1.1 200 OK\r\n\
    Date: Tue, 14 Nov 2023 22:13:20 GMT\r\n\
    Content-Length: 0\r\n\
    ETag: \"";

/// The answer to a get, up to its length.
const FOUND: &[u8] = b"\
    HTTP/1.1 200 OK\r\n\
    Date: Tue, 14 Nov 2023 22:13:20 GMT\r\n\
    Content-Length: ";

/// What follows its ETag.
const SAID: &[u8] = b"\"\r\n\
    Last-Modified: Tue, 14 Nov 2023 22:13:20 GMT\r\n\
    Content-Type: application/octet-stream\r\n\
    Accept-Ranges: bytes\r\n\r\n";

/// The answer to a list of a bucket without objects.
const NO_KEYS: &[u8] = b"\
    HTTP/1.1 200 OK\r\n\
    Date: Tue, 14 Nov 2023 22:13:20 GMT\r\n\
    Content-Length: 235\r\n\
    Content-Type: application/xml\r\n\r\n\
    <?xml version=\"1.0\" encoding=\"UTF-8\"?>\n\
    <ListBucketResult xmlns=\"http://s3.amazonaws.com/doc/2006-03-01/\"><Name>pics</Name><Prefix></Prefix>\
    <MaxKeys>1000</MaxKeys><KeyCount>0</KeyCount><IsTruncated>false</IsTruncated></ListBucketResult>";

/// The answer to a delete.
const DELETED: &[u8] = b"\
    HTTP/1.1 204 No Content\r\n\
    Date: Tue, 14 Nov 2023 22:13:20 GMT\r\n\r\n";

/// The MD5 of `abc` as a header.
const DIGEST_OF_ABC: &[u8] = b"Content-MD5: kAFQmDzST7DWlj99KOF/cg==\r\n";

/// The first write fails.
const FIRST_WRITE: Fault = Fault {
    call: Call::Write,
    number: 1,
};

/// A get of the object.
const GET: &[u8] = b"GET /pics/a HTTP/1.1\r\n\r\n";

/// Texts, one after the other.
pub fn joined(alloc: Global, texts: &[&[u8]]) -> Result<Vec<u8>, Fail> {
    let mut whole = Vec::new(alloc);
    for text in texts {
        whole.extend_from_slice(text)?;
    }
    Ok(whole)
}

/// A text, and another one behind it.
fn followed(mut first: Vec<u8>, second: &[u8]) -> Result<Vec<u8>, Fail> {
    first.extend_from_slice(second)?;
    Ok(first)
}

/// So many bytes: byte i is the letter that is i modulo 23 after `a`.
pub fn body(alloc: Global, size: usize) -> Result<Vec<u8>, Fail> {
    let mut bytes = Vec::new(alloc);
    for _ in 0..400 {
        bytes.extend_from_slice(b"abcdefghijklmnopqrstuvw")?;
    }
    bytes.truncate(size);
    Ok(bytes)
}

/// The configuration with this size of blocks in bytes.
pub fn cluster(alloc: Global, block_size: &[u8]) -> Result<Vec<u8>, Fail> {
    joined(alloc, &[b"block_size = ", block_size, NODES])
}

/// How a server ended over the connection with these bytes, and what was written to it.
fn answered(alloc: Global, block_size: &[u8], bytes: &[u8]) -> Result<(Ended, Vec<u8>), Fail> {
    let mut link = recorded(alloc, bytes, 65_536)?;
    let end = served_with(
        alloc,
        &cluster(alloc, block_size)?,
        ONE_CONNECTION,
        &mut link,
    )?;
    Ok((end, link.written().to_vec(alloc)?))
}

/// A put under `/pics/a` that announces this length, with these lines in its head, and so much of its body.
fn put(alloc: Global, length: &[u8], lines: &[u8], came: usize) -> Result<Vec<u8>, Fail> {
    let head: &[u8] = b"PUT /pics/a HTTP/1.1\r\nContent-Length: ";
    joined(
        alloc,
        &[head, length, b"\r\n", lines, b"\r\n", &body(alloc, came)?],
    )
}

/// Whether a server ended well, with these words of its first node, and this last line.
fn ends_so(end: &Ended, node: &[u8], last: &[u8]) -> bool {
    let layout: &[u8] = b"p 0 255 1 2 3\nnode 1 ";
    end.status == Status::Done
        && end
            .output
            .strip_prefix(layout)
            .is_some_and(|rest| rest.starts_with(node))
        && end.output.ends_with(last)
}

/// Of 8,192 bytes that are announced 5,000 come: one block of 4,096 is stored, and given up. 6 messages for the read, 6 for
/// the announcement, 12 for the block, 6 for the version that is given up, 18 for the end of its row and 18 for that of its
/// reference.
#[test]
fn streamed_body_cut_short(rt: HostRuntime) -> Result<(), Fail> {
    let (end, written) = answered(rt.alloc(), b"4096", &put(rt.alloc(), b"8192", b"", 5000)?)?;
    assert_eq!(rt; written.as_slice(), INCOMPLETE);
    assert!(rt; ends_so(&end, b"rows 3 blocks 1 top ", b"\nend 1 1 66\n"));
    Ok(())
}

/// The same with all bytes, and the digest of others: two blocks are given up, with 12 messages more for the second block
/// and 18 for the end of its reference, and the get behind it has 6.
#[test]
fn streamed_body_wrong_md5(rt: HostRuntime) -> Result<(), Fail> {
    let alloc = rt.alloc();
    let bytes = joined(
        alloc,
        &[
            &put(alloc, b"8192", DIGEST_OF_ABC, 8192)?,
            b"GET /pics/a HTTP/1.1\r\n\r\n",
        ],
    )?;
    let (end, written) = answered(alloc, b"4096", &bytes)?;
    assert!(rt; written == joined(alloc, &[BAD_DIGEST, NO_KEY])?);
    assert!(rt; ends_so(&end, b"rows 4 blocks 2 top ", b"\nend 1 2 102\n"));
    Ok(())
}

/// How many bytes are put in blocks of 4,096, their MD5, and what the first node has and the last line is then: with 12
/// messages where they lie in their row, else with 18 and 12 a block.
type Size = (
    usize,
    &'static [u8],
    &'static [u8],
    &'static [u8],
    &'static [u8],
);

const SIZES: [Size; 4] = [
    (
        3071,
        b"3071",
        b"c331dc334ebc620d369a54bc71909578",
        b"rows 1 blocks 0 top ",
        b"\nend 1 1 12\n",
    ),
    (
        3072,
        b"3072",
        b"92833c4485dbb590ef6e1576981f04a3",
        b"rows 3 blocks 1 top ",
        b"\nend 1 1 30\n",
    ),
    (
        4096,
        b"4096",
        b"1c0552450a45c4e9975df76064b6675e",
        b"rows 3 blocks 1 top ",
        b"\nend 1 1 30\n",
    ),
    (
        4097,
        b"4097",
        b"ebcfa8fced45e325b2f9515b459a41a8",
        b"rows 4 blocks 2 top ",
        b"\nend 1 1 42\n",
    ),
];

/// The shortest bodies that come block by block, and the longest that doesn't.
#[test]
fn bodies_about_a_block(rt: HostRuntime) -> Result<(), Fail> {
    let alloc = rt.alloc();
    for (size, length, digest, node, last) in SIZES {
        let bytes = put(alloc, length, b"Expect: 100-continue\r\n", size)?;
        let (end, written) = answered(alloc, b"4096", &bytes)?;
        let stored = joined(
            alloc,
            &[
                b"HTTP/1.1 100 Continue\r\n\r\n",
                STORED,
                digest,
                b"\"\r\n\r\n",
            ],
        )?;
        assert!(rt; written == stored, "{size}");
        assert!(rt; ends_so(&end, node, last), "{size}");
    }
    Ok(())
}

/// What was put so is read as it was put.
#[test]
fn bodies_are_read_as_put(rt: HostRuntime) -> Result<(), Fail> {
    let alloc = rt.alloc();
    for (size, length, digest, _, _) in SIZES {
        let asks = followed(put(alloc, length, b"", size)?, GET)?;
        let (_, written) = answered(alloc, b"4096", &asks)?;
        let said = joined(
            alloc,
            &[
                STORED,
                digest,
                b"\"\r\n\r\n",
                FOUND,
                length,
                b"\r\nETag: \"",
                digest,
                SAID,
            ],
        )?;
        let wanted = followed(said, &body(alloc, size)?)?;
        assert!(rt; written == wanted, "{size}");
    }
    Ok(())
}

/// Whether a put of 3,072 bytes in two blocks, of whose body so much comes, is refused, and leaves a row and a reference for
/// each whole block, and a row of its object and one of its version.
fn is_given_up(alloc: Global, came: usize) -> Result<bool, Fail> {
    let (end, written) = answered(alloc, b"1536", &put(alloc, b"3072", b"", came)?)?;
    let (node, last): (&[u8], &[u8]) = if came < 1536 {
        (b"rows 2 blocks 0 top ", b"\nend 1 1 36\n")
    } else {
        (b"rows 3 blocks 1 top ", b"\nend 1 1 66\n")
    };
    Ok(written.as_slice() == INCOMPLETE && ends_so(&end, node, last))
}

/// Cut after each byte of the first block.
#[test]
fn first_block_cut_short(rt: HostRuntime) -> Result<(), Fail> {
    for came in 0..1536 {
        assert!(rt; is_given_up(rt.alloc(), came)?, "{came}");
    }
    Ok(())
}

/// Cut after each byte of the second block.
#[test]
fn second_block_cut_short(rt: HostRuntime) -> Result<(), Fail> {
    for came in 1536..3072 {
        assert!(rt; is_given_up(rt.alloc(), came)?, "{came}");
    }
    Ok(())
}

/// Two uploads are given up: no list shows the key, no get finds it, and a delete stores its marker.
#[test]
fn uploads_given_up_tell_nothing(rt: HostRuntime) -> Result<(), Fail> {
    let alloc = rt.alloc();
    let other = put(alloc, b"8192", DIGEST_OF_ABC, 8192)?;
    let reads: &[u8] = b"\
        GET /pics?list-type=2 HTTP/1.1\r\n\r\n\
        GET /pics/a HTTP/1.1\r\n\r\n\
        DELETE /pics/a HTTP/1.1\r\n\r\n\
        GET /pics?list-type=2 HTTP/1.1\r\n\r\n";
    let (end, written) = answered(alloc, b"4096", &joined(alloc, &[&other, &other, reads])?)?;
    let answers = joined(
        alloc,
        &[BAD_DIGEST, BAD_DIGEST, NO_KEYS, NO_KEY, DELETED, NO_KEYS],
    )?;
    assert_eq!(rt; end.status, Status::Done);
    assert!(rt; written == answers);
    Ok(())
}

/// Two uploads are given up, then the object is asked for and put, at the same time of the clock, and read.
#[test]
fn put_over_uploads_given_up(rt: HostRuntime) -> Result<(), Fail> {
    let alloc = rt.alloc();
    let other = put(alloc, b"8192", DIGEST_OF_ABC, 8192)?;
    let others = followed(put(alloc, b"8192", DIGEST_OF_ABC, 8192)?, &other)?;
    let asked = followed(others, GET)?;
    let object = followed(asked, &put(alloc, b"4097", b"", 4097)?)?;
    let (end, written) = answered(alloc, b"4096", &followed(object, GET)?)?;
    let digest: &[u8] = b"ebcfa8fced45e325b2f9515b459a41a8";
    let said = joined(
        alloc,
        &[
            BAD_DIGEST,
            BAD_DIGEST,
            NO_KEY,
            STORED,
            digest,
            b"\"\r\n\r\n",
            FOUND,
            b"4097\r\nETag: \"",
            digest,
            SAID,
        ],
    )?;
    let wanted = followed(said, &body(alloc, 4097)?)?;
    assert_eq!(rt; end.status, Status::Done);
    assert!(rt; written == wanted);
    Ok(())
}

/// How a server ended over a connection that gives the put of two blocks 1,000 bytes at a time, of whose reads one fails, and
/// what was written to it.
fn read_fails(alloc: Global, number: u64) -> Result<(Ended, Vec<u8>), Fail> {
    let bytes = put(alloc, b"8192", b"", 8192)?;
    let pieces = PieceLink::new(bytes, 1000, [number].to_vec(alloc)?);
    let mut link = Recorder::new(alloc, pieces);
    let end = served_with(alloc, &cluster(alloc, b"4096")?, ONE_CONNECTION, &mut link)?;
    Ok((end, link.written().to_vec(alloc)?))
}

/// Whichever of its first eight reads fails, the put has no answer, and of its blocks one at most was stored.
#[test]
fn each_read_of_a_put_fails(rt: HostRuntime) -> Result<(), Fail> {
    for number in 2..=8 {
        let (end, written) = read_fails(rt.alloc(), number)?;
        let none = ends_so(&end, b"rows 2 blocks 0 top ", b"\nend 1 1 36\n");
        let one = ends_so(&end, b"rows 3 blocks 1 top ", b"\nend 1 1 66\n");
        assert!(rt; written.is_empty(), "{number}");
        assert!(rt; none || one, "{number}");
    }
    Ok(())
}

/// A put that is refused before its body comes stores nothing, and no request of it reaches the cluster.
#[test]
fn put_refused_for_its_bucket(rt: HostRuntime) -> Result<(), Fail> {
    let alloc = rt.alloc();
    let head: &[u8] = b"PUT /no/a HTTP/1.1\r\nContent-Length: 8192\r\n\r\n";
    let asks = followed(head.to_vec(alloc)?, &body(alloc, 8192)?)?;
    let (end, written) = answered(alloc, b"4096", &asks)?;
    assert_eq!(rt; written.as_slice(), NO_BUCKET);
    assert!(rt; ends_so(&end, b"rows 0 blocks 0 top ", b"\nend 1 0 0\n"));
    Ok(())
}

/// Where the answer to a put can't be written the cluster ends up as where it is.
#[test]
fn answer_to_a_put_fails(rt: HostRuntime) -> Result<(), Fail> {
    let bytes = put(rt.alloc(), b"4097", b"", 4097)?;
    let configuration = cluster(rt.alloc(), b"4096")?;
    let mut link = FaultyLink::new(rt.alloc(), &bytes, 65_536, FIRST_WRITE)?;
    let end = served_with(rt.alloc(), &configuration, ONE_CONNECTION, &mut link)?;
    assert_eq!(rt; (link.calls(), link.written()), (1, b"".as_slice()));
    assert!(rt; ends_so(&end, b"rows 4 blocks 2 top ", b"\nend 1 1 42\n"));
    Ok(())
}

/// What a put and a get of these bytes are answered.
fn answers_of_two_blocks(alloc: Global, body: &[u8]) -> Result<Vec<u8>, Fail> {
    let digest: &[u8] = b"268e87de2d84f8343b14aa8f32a3bc71";
    joined(
        alloc,
        &[
            b"HTTP/1.1 100 Continue\r\n\r\n",
            STORED,
            digest,
            b"\"\r\n\r\n",
            FOUND,
            b"8192\r\nETag: \"",
            digest,
            SAID,
            body,
        ],
    )
}

/// A put and a get of two blocks.
fn of_two_blocks(alloc: Global) -> Result<Conversation, Fail> {
    let put = put(alloc, b"8192", b"Expect: 100-continue\r\n", 8192)?;
    let body = body(alloc, 8192)?;
    let answers = answers_of_two_blocks(alloc, &body)?;
    let asks = joined(alloc, &[&put, GET])?;
    Ok(Conversation {
        configuration: cluster(alloc, b"4096")?,
        asks,
        answers,
        size: 1000,
        lines: ONE_LAYOUT,
    })
}

/// The interim line, the answer to the put, the head of the get and its two blocks are a write each.
#[test]
fn two_blocks_with_each_call_failing(rt: HostRuntime) -> Result<(), Fail> {
    let it = of_two_blocks(rt.alloc())?;
    assert!(rt; goes_on(rt.alloc(), &it, 5)?);
    Ok(())
}
