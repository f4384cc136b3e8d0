//! Answers of 14 November 2023, 22:13:20 UTC, put together by hand.

pub const PUT_OK: &[u8] = b"\
    HTTP/1.1 200 OK\r\n\
    Date: Tue, 14 Nov 2023 22:13:20 GMT\r\n\
    Content-Length: 0\r\n\
    ETag: \"900150983cd24fb0d6963f7d28e17f72\"\r\n\r\n";

pub const GET_OK: &[u8] = b"\
    HTTP/1.1 200 OK\r\n\
    Date: Tue, 14 Nov 2023 22:13:20 GMT\r\n\
    Content-Length: 3\r\n\
    ETag: \"900150983cd24fb0d6963f7d28e17f72\"\r\n\
    Last-Modified: Tue, 29 Feb 2000 00:00:00 GMT\r\n\
    Content-Type: text/plain\r\n\
    x-amz-meta-owner: me\r\n\
    Accept-Ranges: bytes\r\n\r\n\
    abc";

pub const HEAD_OK: &[u8] = b"\
    HTTP/1.1 200 OK\r\n\
    Date: Tue, 14 Nov 2023 22:13:20 GMT\r\n\
    Content-Length: 3\r\n\
    ETag: \"900150983cd24fb0d6963f7d28e17f72\"\r\n\
    Last-Modified: Tue, 29 Feb 2000 00:00:00 GMT\r\n\
    Content-Type: text/plain\r\n\
    x-amz-meta-owner: me\r\n\
    Accept-Ranges: bytes\r\n\r\n";

pub const GET_PART: &[u8] = b"\
    HTTP/1.1 206 Partial Content\r\n\
    Date: Tue, 14 Nov 2023 22:13:20 GMT\r\n\
    Content-Length: 1\r\n\
    ETag: \"900150983cd24fb0d6963f7d28e17f72\"\r\n\
    Last-Modified: Tue, 29 Feb 2000 00:00:00 GMT\r\n\
    Content-Type: text/plain\r\n\
    x-amz-meta-owner: me\r\n\
    Accept-Ranges: bytes\r\n\
    Content-Range: bytes 0-0/3\r\n\r\n\
    a";

pub const GET_LAST: &[u8] = b"\
    HTTP/1.1 206 Partial Content\r\n\
    Date: Tue, 14 Nov 2023 22:13:20 GMT\r\n\
    Content-Length: 2\r\n\
    ETag: \"900150983cd24fb0d6963f7d28e17f72\"\r\n\
    Last-Modified: Tue, 29 Feb 2000 00:00:00 GMT\r\n\
    Content-Type: text/plain\r\n\
    x-amz-meta-owner: me\r\n\
    Accept-Ranges: bytes\r\n\
    Content-Range: bytes 1-2/3\r\n\r\n\
    bc";

pub const HEAD_PART: &[u8] = b"\
    HTTP/1.1 206 Partial Content\r\n\
    Date: Tue, 14 Nov 2023 22:13:20 GMT\r\n\
    Content-Length: 2\r\n\
    ETag: \"900150983cd24fb0d6963f7d28e17f72\"\r\n\
    Last-Modified: Tue, 29 Feb 2000 00:00:00 GMT\r\n\
    Content-Type: text/plain\r\n\
    x-amz-meta-owner: me\r\n\
    Accept-Ranges: bytes\r\n\
    Content-Range: bytes 1-2/3\r\n\r\n";

pub const DELETED: &[u8] =
    b"HTTP/1.1 204 No Content\r\nDate: Tue, 14 Nov 2023 22:13:20 GMT\r\nConnection: close\r\n\r\n";

pub const NOT_FOUND: &[u8] = b"\
    HTTP/1.1 404 Not Found\r\n\
    Date: Tue, 14 Nov 2023 22:13:20 GMT\r\n\
    Content-Length: 153\r\n\
    Content-Type: application/xml\r\n\r\n\
    <?xml version=\"1.0\" encoding=\"UTF-8\"?>\n\
    <Error><Code>NoSuchKey</Code><Message>NoSuchKey</Message>\
    <Resource>/pics/a&amp;&lt;b&#xa;&#x1f;</Resource></Error>";

pub const REFUSED_HEAD: &[u8] = b"\
    HTTP/1.1 404 Not Found\r\n\
    Date: Tue, 14 Nov 2023 22:13:20 GMT\r\n\
    Content-Length: 0\r\n\
    Connection: close\r\n\r\n";

pub const BAD_HEAD: &[u8] = b"\
    HTTP/1.1 400 Bad Request\r\n\
    Date: Tue, 14 Nov 2023 22:13:20 GMT\r\n\
    Content-Length: 135\r\n\
    Content-Type: application/xml\r\n\
    Connection: close\r\n\r\n\
    <?xml version=\"1.0\" encoding=\"UTF-8\"?>\n\
    <Error><Code>InvalidRequest</Code><Message>InvalidRequest</Message><Resource></Resource></Error>";

pub const BAD_RANGE: &[u8] = b"\
    HTTP/1.1 416 Range Not Satisfiable\r\n\
    Date: Tue, 14 Nov 2023 22:13:20 GMT\r\n\
    Content-Length: 142\r\n\
    Content-Type: application/xml\r\n\r\n\
    <?xml version=\"1.0\" encoding=\"UTF-8\"?>\n\
    <Error><Code>InvalidRange</Code><Message>InvalidRange</Message><Resource>/pics/a.txt</Resource></Error>";

pub const BUCKET_OK: &[u8] =
    b"HTTP/1.1 200 OK\r\nDate: Tue, 14 Nov 2023 22:13:20 GMT\r\nContent-Length: 0\r\n\r\n";

pub const BUCKETS: &[u8] = b"\
    HTTP/1.1 200 OK\r\n\
    Date: Tue, 14 Nov 2023 22:13:20 GMT\r\n\
    Content-Length: 400\r\n\
    Content-Type: application/xml\r\n\r\n\
    <?xml version=\"1.0\" encoding=\"UTF-8\"?>\n\
    <ListAllMyBucketsResult xmlns=\"http://s3.amazonaws.com/doc/2006-03-01/\"><Owner><ID>garage-lab</ID>\
    <DisplayName>garage-lab</DisplayName></Owner><Buckets><Bucket><Name>docs</Name>\
    <CreationDate>1970-01-01T00:00:00.000Z</CreationDate></Bucket><Bucket><Name>pics</Name>\
    <CreationDate>1970-01-01T00:00:00.000Z</CreationDate></Bucket></Buckets></ListAllMyBucketsResult>";

pub const COPIED: &[u8] = b"\
    HTTP/1.1 200 OK\r\n\
    Date: Tue, 14 Nov 2023 22:13:20 GMT\r\n\
    Content-Length: 234\r\n\
    Content-Type: application/xml\r\n\r\n\
    <?xml version=\"1.0\" encoding=\"UTF-8\"?>\n\
    <CopyObjectResult xmlns=\"http://s3.amazonaws.com/doc/2006-03-01/\">\
    <LastModified>2000-02-29T00:00:00.999Z</LastModified>\
    <ETag>&quot;900150983cd24fb0d6963f7d28e17f72&quot;</ETag></CopyObjectResult>";
