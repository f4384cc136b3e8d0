//! What clients send, and what it asks.
use crate::reading::asked;
use std::test::Fail;

const SIGNED: [(&[u8], &[u8]); 4] = [
    // boto3, put_object.
    (
        b"\
            PUT /pics/a/b.txt HTTP/1.1\r\n\
            Host: localhost:3900\r\n\
            Accept-Encoding: identity\r\n\
            Content-Type: text/plain\r\n\
            x-amz-meta-owner: me\r\n\
            User-Agent: Boto3/1.34.0 md/Botocore#1.34.0\r\n\
            Content-MD5: kAFQmDzST7DWlj99KOF/cg==\r\n\
            Expect: 100-continue\r\n\
            X-Amz-Date: 20260101T000000Z\r\n\
            X-Amz-Content-SHA256: UNSIGNED-PAYLOAD\r\n\
            Authorization: AWS4-HMAC-SHA256 Credential=k/20260101/garage/s3/aws4_request, SignedHeaders=host, \
            Signature=00\r\n\
            Content-Length: 3\r\n\r\n",
        b"Put pics a/b.txt 3 kAFQmDzST7DWlj99KOF/cg== [content-type=text/plain][x-amz-meta-owner=me]",
    ),
    // boto3, list_buckets and delete_object.
    (
        b"\
            GET / HTTP/1.1\r\n\
            Host: localhost:3900\r\n\
            User-Agent: Boto3/1.34.0 md/Botocore#1.34.0\r\n\
            X-Amz-Content-SHA256: e3b0c44298fc1c149afbf4c8996fb92427ae41e4649b934ca495991b7852b855\r\n\r\n",
        b"ListBuckets",
    ),
    (
        b"DELETE /pics/a%2Bb HTTP/1.1\r\nHost: localhost:3900\r\nContent-Length: 0\r\n\r\n",
        b"Delete pics a+b",
    ),
    // boto3, head_bucket.
    (
        b"HEAD /pics HTTP/1.1\r\nHost: localhost:3900\r\n\r\n",
        b"HeadBucket pics",
    ),
];

const AWSCLI: [(&[u8], &[u8]); 3] = [
    // aws s3 ls s3://pics/a/
    (
        b"GET /pics?list-type=2&prefix=a%2F&delimiter=%2F&encoding-type=url HTTP/1.1\r\nHost: localhost:3900\r\n\r\n",
        b"List pics prefix a/ by / 1000 after  url none none",
    ),
    // aws s3api list-objects-v2 --max-items 2, the next page
    (
        b"\
            GET /pics?list-type=2&prefix=&continuation-token=7061622f&max-keys=2&encoding-type=url&start-after=z \
            HTTP/1.1\r\n\
            Host: localhost:3900\r\n\r\n",
        b"List pics prefix  by none 2 past ab/ url 7061622f z",
    ),
    // aws s3api copy-object --metadata-directive REPLACE
    (
        b"\
            PUT /pics/copy HTTP/1.1\r\n\
            Host: localhost:3900\r\n\
            x-amz-copy-source: pics/a%20b\r\n\
            x-amz-metadata-directive: REPLACE\r\n\
            x-amz-meta-owner: you\r\n\
            Content-Length: 0\r\n\r\n",
        b"Copy pics/a%20b pics copy [content-type=application/octet-stream][x-amz-meta-owner=you]",
    ),
];

const CURL: [(&[u8], &[u8]); 4] = [
    (
        b"\
            GET /pics/a%20b HTTP/1.1\r\n\
            Host: localhost:3900\r\n\
            Range: bytes=0-0\r\n\
            User-Agent: curl/8.5.0\r\n\
            Accept: */*\r\n\r\n",
        b"Get pics a b 0-0",
    ),
    (
        b"HEAD /pics/%E2%82%AC/x HTTP/1.1\r\nHost: localhost:3900\r\nUser-Agent: curl/8.5.0\r\nAccept: */*\r\n\r\n",
        b"Head pics \xE2\x82\xAC/x all",
    ),
    (
        b"\
            PUT /pics/k HTTP/1.1\r\n\
            Host: localhost:3900\r\n\
            User-Agent: curl/8.5.0\r\n\
            Accept: */*\r\n\
            Content-Length: 16777216\r\n\
            Content-Type: application/x-www-form-urlencoded\r\n\r\n",
        b"Put pics k 16777216 none [content-type=application/x-www-form-urlencoded]",
    ),
    (
        b"GET //k HTTP/1.1\r\nHost: localhost:3900\r\nUser-Agent: curl/8.5.0\r\nAccept: */*\r\n\r\n",
        b"Get  k all",
    ),
];

const OTHERS: [(&[u8], &[u8]); 6] = [
    // rclone copy, lsf and copyto within the remote
    (
        b"\
            PUT /pics/d/f.txt?x-id=PutObject HTTP/1.1\r\n\
            Host: localhost:3900\r\n\
            User-Agent: rclone/v1.66.0\r\n\
            Content-Length: 3\r\n\
            Content-Md5: kAFQmDzST7DWlj99KOF/cg==\r\n\
            Content-Type: text/plain; charset=utf-8\r\n\
            X-Amz-Content-Sha256: UNSIGNED-PAYLOAD\r\n\
            X-Amz-Meta-Mtime: 1700000000.5\r\n\r\n",
        b"Put pics d/f.txt 3 kAFQmDzST7DWlj99KOF/cg== [content-type=text/plain; charset=utf-8][x-amz-meta-mtime=1700000000.5]",
    ),
    (
        b"\
            GET /pics?delimiter=%2F&encoding-type=url&fetch-owner=true&list-type=2&max-keys=5000&prefix=d%2Fa+b \
            HTTP/1.1\r\n\
            Host: localhost:3900\r\n\
            User-Agent: rclone/v1.66.0\r\n\r\n",
        b"List pics prefix d/a b by / 1000 after  url none none",
    ),
    (
        b"\
            PUT /pics/g.txt?x-id=CopyObject HTTP/1.1\r\n\
            Host: localhost:3900\r\n\
            User-Agent: rclone/v1.66.0\r\n\
            Content-Length: 0\r\n\
            X-Amz-Copy-Source: /pics/d/f.txt\r\n\
            X-Amz-Metadata-Directive: COPY\r\n\r\n",
        b"Copy /pics/d/f.txt pics g.txt ",
    ),
    (
        b"GET /?x-id=ListBuckets HTTP/1.1\r\nHost: localhost:3900\r\nUser-Agent: rclone/v1.66.0\r\n\r\n",
        b"ListBuckets",
    ),
    // s3cmd put, and its list, which is the first version of the call
    (
        b"\
            PUT /pics/k HTTP/1.1\r\n\
            Host: localhost:3900\r\n\
            Accept-Encoding: identity\r\n\
            CONTENT-TYPE: text/plain\r\n\
            content-length: 3\r\n\
            x-amz-meta-s3cmd-attrs: atime:1/md5:900150983cd24fb0d6963f7d28e17f72\r\n\
            x-amz-storage-class: STANDARD\r\n\r\n",
        b"Put pics k 3 none [content-type=text/plain][x-amz-meta-s3cmd-attrs=atime:1/md5:900150983cd24fb0d6963f7d28e17f72]",
    ),
    (
        b"GET /pics/?delimiter=%2F HTTP/1.1\r\nHost: localhost:3900\r\nAccept-Encoding: identity\r\n\r\n",
        b"refused 501 NotImplemented close",
    ),
];

#[test]
fn what_clients_ask(rt: HostRuntime) -> Result<(), Fail> {
    let alloc = rt.alloc();
    for table in [
        SIGNED.as_slice(),
        AWSCLI.as_slice(),
        CURL.as_slice(),
        OTHERS.as_slice(),
    ] {
        for (head, asks) in table {
            let asked = asked(alloc, head)?;
            assert_eq!(rt; asked.as_slice(), *asks);
        }
    }
    Ok(())
}
