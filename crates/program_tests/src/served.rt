//! What no clause says: that an answer comes with ample memory, what is told at its end, and that whole answers are those
//! that were worked out from docs/S3.md by hand.
use lab_outside::Status;
use std::test::Fail;
use test_links::{SHORT_ANSWER, served};

/// An object is written, read in every way that is served, deleted, and read once more.
pub const ONE_OBJECT: &[u8] = b"\
    PUT /pics/a.txt HTTP/1.1\r\n\
    Host: localhost:3900\r\n\
    User-Agent: curl\r\n\
    Accept: */*\r\n\
    Content-Length: 3\r\n\
    Expect: 100-continue\r\n\r\n\
    abc\
    GET /pics/a.txt HTTP/1.1\r\n\r\n\
    HEAD /pics/a.txt HTTP/1.1\r\n\r\n\
    GET /pics/a.txt HTTP/1.1\r\n\
    Range: bytes=0-0\r\n\r\n\
    GET /pics/a.txt HTTP/1.1\r\n\
    Range: bytes=3-\r\n\r\n\
    DELETE /pics/a.txt HTTP/1.1\r\n\r\n\
    GET /pics/a.txt HTTP/1.1\r\n\r\n";

/// Its answers: a put, a get, a head, a range, one past the end, a delete, and the key that isn't there any more.
pub const ONE_ANSWERS: &[u8] = b"\
    HTTP/1.1 100 Continue\r\n\r\n\
    HTTP/1.1 200 OK\r\n\
    Date: Tue, 14 Nov 2023 22:13:20 GMT\r\n\
    Content-Length: 0\r\n\
    ETag: \"900150983cd24fb0d6963f7d28e17f72\"\r\n\r\n\
    HTTP/1.1 200 OK\r\n\
    Date: Tue, 14 Nov 2023 22:13:20 GMT\r\n\
    Content-Length: 3\r\n\
    ETag: \"900150983cd24fb0d6963f7d28e17f72\"\r\n\
    Last-Modified: Tue, 14 Nov 2023 22:13:20 GMT\r\n\
    Content-Type: application/octet-stream\r\n\
    Accept-Ranges: bytes\r\n\r\n\
    abc\
    HTTP/1.1 200 OK\r\n\
    Date: Tue, 14 Nov 2023 22:13:20 GMT\r\n\
    Content-Length: 3\r\n\
    ETag: \"900150983cd24fb0d6963f7d28e17f72\"\r\n\
    Last-Modified: Tue, 14 Nov 2023 22:13:20 GMT\r\n\
    Content-Type: application/octet-stream\r\n\
    Accept-Ranges: bytes\r\n\r\n\
    HTTP/1.1 206 Partial Content\r\n\
    Date: Tue, 14 Nov 2023 22:13:20 GMT\r\n\
    Content-Length: 1\r\n\
    ETag: \"900150983cd24fb0d6963f7d28e17f72\"\r\n\
    Last-Modified: Tue, 14 Nov 2023 22:13:20 GMT\r\n\
    Content-Type: application/octet-stream\r\n\
    Accept-Ranges: bytes\r\n\
    Content-Range: bytes 0-0/3\r\n\r\n\
    aHTTP/1.1 416 Range Not Satisfiable\r\n\
    Date: Tue, 14 Nov 2023 22:13:20 GMT\r\n\
    Content-Length: 142\r\n\
    Content-Type: application/xml\r\n\r\n\
    <?xml version=\"1.0\" encoding=\"UTF-8\"?>\n\
    <Error><Code>InvalidRange</Code><Message>InvalidRange</Message>\
    <Resource>/pics/a.txt</Resource></Error>\
    HTTP/1.1 204 No Content\r\n\
    Date: Tue, 14 Nov 2023 22:13:20 GMT\r\n\r\n\
    HTTP/1.1 404 Not Found\r\n\
    Date: Tue, 14 Nov 2023 22:13:20 GMT\r\n\
    Content-Length: 136\r\n\
    Content-Type: application/xml\r\n\r\n\
    <?xml version=\"1.0\" encoding=\"UTF-8\"?>\n\
    <Error><Code>NoSuchKey</Code><Message>NoSuchKey</Message><Resource>/pics/a.txt</Resource></Error>";

/// Four keys, and lists of them: cut at a slash, two entries a page, and from its token on; none, too many and no number of
/// entries; with texts encoded. Then a fifth key, `c~+ é`, and two entries with their texts encoded, cut at `&`.
const LISTS: &[u8] = b"\
    PUT /pics/x/1 HTTP/1.1\r\n\
    Content-Length: 3\r\n\r\n\
    abc\
    PUT /pics/x/2 HTTP/1.1\r\n\
    Content-Length: 3\r\n\r\n\
    abc\
    PUT /pics/y HTTP/1.1\r\n\
    Content-Length: 3\r\n\r\n\
    abc\
    PUT /pics/a%26%3Cb HTTP/1.1\r\n\
    Content-Length: 3\r\n\r\n\
    abc\
    GET /pics?list-type=2&delimiter=/&max-keys=2 HTTP/1.1\r\n\r\n\
    GET /pics?list-type=2&delimiter=/&max-keys=2&continuation-token=70782f HTTP/1.1\r\n\r\n\
    GET /pics?list-type=2&max-keys=0 HTTP/1.1\r\n\r\n\
    GET /pics?list-type=2&max-keys=1001&prefix=y HTTP/1.1\r\n\r\n\
    GET /pics?list-type=2&max-keys=x HTTP/1.1\r\n\r\n\
    GET /pics?list-type=2&encoding-type=url&start-after=x/2&prefix=a%26 HTTP/1.1\r\n\r\n\
    PUT /pics/c~+%20%c3%a9 HTTP/1.1\r\n\
    Content-Length: 3\r\n\r\n\
    abc\
    GET /pics?list-type=2&encoding-type=url&delimiter=%26&max-keys=2 HTTP/1.1\r\n\r\n";

/// Their answers.
const LISTS_ANSWERS: &[u8] = b"\
    HTTP/1.1 200 OK\r\n\
    Date: Tue, 14 Nov 2023 22:13:20 GMT\r\n\
    Content-Length: 0\r\n\
    ETag: \"900150983cd24fb0d6963f7d28e17f72\"\r\n\r\n\
    HTTP/1.1 200 OK\r\n\
    Date: Tue, 14 Nov 2023 22:13:20 GMT\r\n\
    Content-Length: 0\r\n\
    ETag: \"900150983cd24fb0d6963f7d28e17f72\"\r\n\r\n\
    HTTP/1.1 200 OK\r\n\
    Date: Tue, 14 Nov 2023 22:13:20 GMT\r\n\
    Content-Length: 0\r\n\
    ETag: \"900150983cd24fb0d6963f7d28e17f72\"\r\n\r\n\
    HTTP/1.1 200 OK\r\n\
    Date: Tue, 14 Nov 2023 22:13:20 GMT\r\n\
    Content-Length: 0\r\n\
    ETag: \"900150983cd24fb0d6963f7d28e17f72\"\r\n\r\n\
    HTTP/1.1 200 OK\r\n\
    Date: Tue, 14 Nov 2023 22:13:20 GMT\r\n\
    Content-Length: 564\r\n\
    Content-Type: application/xml\r\n\r\n\
    <?xml version=\"1.0\" encoding=\"UTF-8\"?>\n\
    <ListBucketResult xmlns=\"http://s3.amazonaws.com/doc/2006-03-01/\"><Name>pics</Name><Prefix></Prefix>\
    <Delimiter>/</Delimiter><MaxKeys>2</MaxKeys><KeyCount>2</KeyCount><IsTruncated>true</IsTruncated>\
    <NextContinuationToken>70782f</NextContinuationToken><Contents><Key>a&amp;&lt;b</Key>\
    <LastModified>2023-11-14T22:13:20.000Z</LastModified>\
    <ETag>&quot;900150983cd24fb0d6963f7d28e17f72&quot;</ETag><Size>3</Size>\
    <StorageClass>STANDARD</StorageClass></Contents><CommonPrefixes>\
    <Prefix>x/</Prefix></CommonPrefixes></ListBucketResult>\
    HTTP/1.1 200 OK\r\n\
    Date: Tue, 14 Nov 2023 22:13:20 GMT\r\n\
    Content-Length: 495\r\n\
    Content-Type: application/xml\r\n\r\n\
    <?xml version=\"1.0\" encoding=\"UTF-8\"?>\n\
    <ListBucketResult xmlns=\"http://s3.amazonaws.com/doc/2006-03-01/\"><Name>pics</Name><Prefix></Prefix>\
    <Delimiter>/</Delimiter><MaxKeys>2</MaxKeys><KeyCount>1</KeyCount><IsTruncated>false</IsTruncated>\
    <ContinuationToken>70782f</ContinuationToken><Contents><Key>y</Key>\
    <LastModified>2023-11-14T22:13:20.000Z</LastModified>\
    <ETag>&quot;900150983cd24fb0d6963f7d28e17f72&quot;</ETag><Size>3</Size>\
    <StorageClass>STANDARD</StorageClass></Contents></ListBucketResult>\
    HTTP/1.1 200 OK\r\n\
    Date: Tue, 14 Nov 2023 22:13:20 GMT\r\n\
    Content-Length: 232\r\n\
    Content-Type: application/xml\r\n\r\n\
    <?xml version=\"1.0\" encoding=\"UTF-8\"?>\n\
    <ListBucketResult xmlns=\"http://s3.amazonaws.com/doc/2006-03-01/\"><Name>pics</Name><Prefix></Prefix>\
    <MaxKeys>0</MaxKeys><KeyCount>0</KeyCount>\
    <IsTruncated>false</IsTruncated></ListBucketResult>\
    HTTP/1.1 200 OK\r\n\
    Date: Tue, 14 Nov 2023 22:13:20 GMT\r\n\
    Content-Length: 430\r\n\
    Content-Type: application/xml\r\n\r\n\
    <?xml version=\"1.0\" encoding=\"UTF-8\"?>\n\
    <ListBucketResult xmlns=\"http://s3.amazonaws.com/doc/2006-03-01/\"><Name>pics</Name><Prefix>y</Prefix>\
    <MaxKeys>1000</MaxKeys><KeyCount>1</KeyCount><IsTruncated>false</IsTruncated><Contents><Key>y</Key>\
    <LastModified>2023-11-14T22:13:20.000Z</LastModified>\
    <ETag>&quot;900150983cd24fb0d6963f7d28e17f72&quot;</ETag><Size>3</Size>\
    <StorageClass>STANDARD</StorageClass></Contents></ListBucketResult>\
    HTTP/1.1 400 Bad Request\r\n\
    Date: Tue, 14 Nov 2023 22:13:20 GMT\r\n\
    Content-Length: 142\r\n\
    Content-Type: application/xml\r\n\r\n\
    <?xml version=\"1.0\" encoding=\"UTF-8\"?>\n\
    <Error><Code>InvalidArgument</Code><Message>InvalidArgument</Message>\
    <Resource>/pics</Resource></Error>\
    HTTP/1.1 200 OK\r\n\
    Date: Tue, 14 Nov 2023 22:13:20 GMT\r\n\
    Content-Length: 299\r\n\
    Content-Type: application/xml\r\n\r\n\
    <?xml version=\"1.0\" encoding=\"UTF-8\"?>\n\
    <ListBucketResult xmlns=\"http://s3.amazonaws.com/doc/2006-03-01/\"><Name>pics</Name><Prefix>a%26</Prefix>\
    <MaxKeys>1000</MaxKeys><EncodingType>url</EncodingType><KeyCount>0</KeyCount>\
    <IsTruncated>false</IsTruncated><StartAfter>x/2</StartAfter></ListBucketResult>\
    HTTP/1.1 200 OK\r\n\
    Date: Tue, 14 Nov 2023 22:13:20 GMT\r\n\
    Content-Length: 0\r\n\
    ETag: \"900150983cd24fb0d6963f7d28e17f72\"\r\n\r\n\
    HTTP/1.1 200 OK\r\n\
    Date: Tue, 14 Nov 2023 22:13:20 GMT\r\n\
    Content-Length: 611\r\n\
    Content-Type: application/xml\r\n\r\n\
    <?xml version=\"1.0\" encoding=\"UTF-8\"?>\n\
    <ListBucketResult xmlns=\"http://s3.amazonaws.com/doc/2006-03-01/\"><Name>pics</Name><Prefix></Prefix>\
    <Delimiter>%26</Delimiter><MaxKeys>2</MaxKeys><EncodingType>url</EncodingType><KeyCount>2</KeyCount>\
    <IsTruncated>true</IsTruncated><NextContinuationToken>6b637e2b20c3a9</NextContinuationToken>\
    <Contents><Key>c~%2B%20%C3%A9</Key><LastModified>2023-11-14T22:13:20.000Z</LastModified>\
    <ETag>&quot;900150983cd24fb0d6963f7d28e17f72&quot;</ETag><Size>3</Size>\
    <StorageClass>STANDARD</StorageClass></Contents><CommonPrefixes>\
    <Prefix>a%26</Prefix></CommonPrefixes></ListBucketResult>";

/// A copy, and one of an absent source; right and wrong digests; the buckets, one that isn't there, and a put without its length.
const COPIES: &[u8] = b"\
    PUT /pics/a.txt HTTP/1.1\r\n\
    Content-Length: 3\r\n\r\n\
    abc\
    PUT /pics/b HTTP/1.1\r\n\
    x-amz-copy-source: /pics/a.txt\r\n\
    Content-Length: 0\r\n\r\n\
    PUT /pics/b HTTP/1.1\r\n\
    x-amz-copy-source: /pics/none\r\n\
    Content-Length: 0\r\n\r\n\
    PUT /pics/a.txt HTTP/1.1\r\n\
    Content-Length: 3\r\n\
    Content-MD5: kAFQmDzST7DWlj99KOF/cg==\r\n\r\n\
    abc\
    PUT /pics/a.txt HTTP/1.1\r\n\
    Content-Length: 3\r\n\
    Content-MD5: kAFQmDzST7DWlj99KOF/cg==\r\n\r\n\
    abd\
    GET / HTTP/1.1\r\n\r\n\
    GET /none/a HTTP/1.1\r\n\r\n\
    PUT /pics/a.txt HTTP/1.1\r\n\r\n";

/// Their answers.
const COPIES_ANSWERS: &[u8] = b"\
    HTTP/1.1 200 OK\r\n\
    Date: Tue, 14 Nov 2023 22:13:20 GMT\r\n\
    Content-Length: 0\r\n\
    ETag: \"900150983cd24fb0d6963f7d28e17f72\"\r\n\r\n\
    HTTP/1.1 200 OK\r\n\
    Date: Tue, 14 Nov 2023 22:13:20 GMT\r\n\
    Content-Length: 234\r\n\
    Content-Type: application/xml\r\n\r\n\
    <?xml version=\"1.0\" encoding=\"UTF-8\"?>\n\
    <CopyObjectResult xmlns=\"http://s3.amazonaws.com/doc/2006-03-01/\">\
    <LastModified>2023-11-14T22:13:20.000Z</LastModified>\
    <ETag>&quot;900150983cd24fb0d6963f7d28e17f72&quot;</ETag></CopyObjectResult>\
    HTTP/1.1 404 Not Found\r\n\
    Date: Tue, 14 Nov 2023 22:13:20 GMT\r\n\
    Content-Length: 132\r\n\
    Content-Type: application/xml\r\n\r\n\
    <?xml version=\"1.0\" encoding=\"UTF-8\"?>\n\
    <Error><Code>NoSuchKey</Code><Message>NoSuchKey</Message>\
    <Resource>/pics/b</Resource></Error>\
    HTTP/1.1 200 OK\r\n\
    Date: Tue, 14 Nov 2023 22:13:20 GMT\r\n\
    Content-Length: 0\r\n\
    ETag: \"900150983cd24fb0d6963f7d28e17f72\"\r\n\r\n\
    HTTP/1.1 400 Bad Request\r\n\
    Date: Tue, 14 Nov 2023 22:13:20 GMT\r\n\
    Content-Length: 136\r\n\
    Content-Type: application/xml\r\n\r\n\
    <?xml version=\"1.0\" encoding=\"UTF-8\"?>\n\
    <Error><Code>BadDigest</Code><Message>BadDigest</Message>\
    <Resource>/pics/a.txt</Resource></Error>\
    HTTP/1.1 200 OK\r\n\
    Date: Tue, 14 Nov 2023 22:13:20 GMT\r\n\
    Content-Length: 313\r\n\
    Content-Type: application/xml\r\n\r\n\
    <?xml version=\"1.0\" encoding=\"UTF-8\"?>\n\
    <ListAllMyBucketsResult xmlns=\"http://s3.amazonaws.com/doc/2006-03-01/\"><Owner><ID>garage-lab</ID>\
    <DisplayName>garage-lab</DisplayName></Owner><Buckets><Bucket><Name>pics</Name>\
    <CreationDate>1970-01-01T00:00:00.000Z</CreationDate></Bucket></Buckets></ListAllMyBucketsResult>HTTP/1.1 \
    404 Not Found\r\n\
    Date: Tue, 14 Nov 2023 22:13:20 GMT\r\n\
    Content-Length: 138\r\n\
    Content-Type: application/xml\r\n\r\n\
    <?xml version=\"1.0\" encoding=\"UTF-8\"?>\n\
    <Error><Code>NoSuchBucket</Code><Message>NoSuchBucket</Message>\
    <Resource>/none/a</Resource></Error>\
    HTTP/1.1 411 Length Required\r\n\
    Date: Tue, 14 Nov 2023 22:13:20 GMT\r\n\
    Content-Length: 158\r\n\
    Content-Type: application/xml\r\n\
    Connection: close\r\n\r\n\
    <?xml version=\"1.0\" encoding=\"UTF-8\"?>\n\
    <Error><Code>MissingContentLength</Code><Message>MissingContentLength</Message>\
    <Resource>/pics/a.txt</Resource></Error>";

/// The connection ends before the announced body does.
const SHORT_BODY: &[u8] = b"PUT /pics/a.txt HTTP/1.1\r\nContent-Length: 4\r\n\r\nabc";

/// A body of no bytes isn't waited for, so its client isn't told to go on.
const EMPTY_BODY: &[u8] = b"\
    PUT /pics/a.txt HTTP/1.1\r\n\
    Content-Length: 0\r\n\
    Expect: 100-continue\r\n\r\n";

const EMPTY_ANSWER: &[u8] = b"\
    HTTP/1.1 200 OK\r\n\
    Date: Tue, 14 Nov 2023 22:13:20 GMT\r\n\
    Content-Length: 0\r\n\
    ETag: \"d41d8cd98f00b204e9800998ecf8427e\"\r\n\r\n";

/// Multipart uploads aren't served.
const UPLOADS: &[u8] = b"GET /pics?uploads HTTP/1.1\r\n\r\n";

const UPLOADS_ANSWER: &[u8] = b"\
    HTTP/1.1 501 Not Implemented\r\n\
    Date: Tue, 14 Nov 2023 22:13:20 GMT\r\n\
    Content-Length: 140\r\n\
    Content-Type: application/xml\r\n\
    Connection: close\r\n\r\n\
    <?xml version=\"1.0\" encoding=\"UTF-8\"?>\n\
    <Error><Code>NotImplemented</Code><Message>NotImplemented</Message><Resource>/pics</Resource></Error>";

/// A head that is too long has no path.
const LONG_ANSWER: &[u8] = b"\
    HTTP/1.1 400 Bad Request\r\n\
    Date: Tue, 14 Nov 2023 22:13:20 GMT\r\n\
    Content-Length: 135\r\n\
    Content-Type: application/xml\r\n\
    Connection: close\r\n\r\n\
    <?xml version=\"1.0\" encoding=\"UTF-8\"?>\n\
    <Error><Code>InvalidRequest</Code><Message>InvalidRequest</Message><Resource></Resource></Error>";

/// Seven requests: a put and a delete of 12 messages each, and five reads of 6.
#[test]
fn serve_one_object(rt: HostRuntime) -> Result<(), Fail> {
    let session = served(rt.alloc(), ONE_OBJECT)?;
    assert_eq!(rt; session.status, Status::Done);
    assert_eq!(rt; session.written.as_slice(), ONE_ANSWERS);
    assert!(rt;
        session
            .output
            .starts_with(b"p 0 255 1 2 3\nnode 1 rows 1 blocks 0 top ")
    );
    assert!(rt; session.output.ends_with(b"\nend 1 7 54\n"));
    Ok(())
}

/// What comes over one connection, and what is written to it.
#[test]
fn whole_answers(rt: HostRuntime) -> Result<(), Fail> {
    let rows: [(&[u8], &[u8]); 5] = [
        (LISTS, LISTS_ANSWERS),
        (COPIES, COPIES_ANSWERS),
        (SHORT_BODY, SHORT_ANSWER),
        (EMPTY_BODY, EMPTY_ANSWER),
        (UPLOADS, UPLOADS_ANSWER),
    ];
    for (bytes, wanted) in rows {
        let session = served(rt.alloc(), bytes)?;
        assert_eq!(rt; session.status, Status::Done);
        assert_eq!(rt; session.written.as_slice(), wanted);
    }
    Ok(())
}

/// 16,385 bytes without the end of a head, of which 19 stand at its beginning.
#[test]
fn head_without_end(rt: HostRuntime) -> Result<(), Fail> {
    let mut bytes = b"GET / HTTP/1.1\r\nX: ".to_vec(rt.alloc())?;
    for _ in 0..16_366 {
        bytes.push(b'x')?;
    }
    let session = served(rt.alloc(), &bytes)?;
    assert_eq!(rt; session.status, Status::Done);
    assert_eq!(rt; session.written.as_slice(), LONG_ANSWER);
    Ok(())
}

/// Whether these are the first answers of the object's, each whole, and a further one is to follow.
fn are_first_answers(written: &[u8]) -> bool {
    ONE_ANSWERS
        .strip_prefix(written)
        .is_some_and(|rest| rest.starts_with(b"HTTP/1.1 "))
}

/// Wherever the connection's input ends, the server goes on to its own end. Whole answers were written, and where it ends
/// past the first head, before the last of the body's three bytes, the refusal of that body.
#[test]
fn cut_after_each_byte(rt: HostRuntime) -> Result<(), Fail> {
    for count in 0..ONE_OBJECT.len() {
        let session = served(rt.alloc(), &ONE_OBJECT[..count])?;
        assert_eq!(rt; session.status, Status::Done);
        assert!(rt; session.output.starts_with(b"p 0 255 1 2 3\nnode 1 rows "));
        let refusal: &[u8] = match count {
            122..=124 => SHORT_ANSWER,
            _ => b"",
        };
        let answers = session.written.strip_suffix(refusal);
        assert!(rt;
            answers.is_some_and(are_first_answers),
            "after byte {count}"
        );
    }
    Ok(())
}
