//! Requests that are signed by Python's hmac and hashlib, and their whole answers, put together from docs/S3.md by a
//! script of its own: copies, lists of buckets, and bodies.
use crate::signed::Row;

/// Copies between two buckets: the source may be read or not, the destination written or not.
pub const COPIES: [Row; 7] = [
    (
        b"\
            PUT /docs/a HTTP/1.1\r\nHost: localhost:3900\r\nx-amz-content-sha256: ba7816bf8f01cfea414140de5dae2223b0\
            0361a396177a9cb410ff61f20015ad\r\nx-amz-date: 20231114T221320Z\r\nContent-Length: 3\r\nAuthorization: AW\
            S4-HMAC-SHA256 Credential=GKFULL/20231114/garage/s3/aws4_request, SignedHeaders=host;x-amz-content-sha25\
            6;x-amz-date, Signature=0f6a8e798c945f10b21cdd25df0feac2a09d986d47442194f433fd9c720071c8\r\n\r\nabcPUT /\
            pics/b HTTP/1.1\r\nHost: localhost:3900\r\nx-amz-content-sha256: e3b0c44298fc1c149afbf4c8996fb92427ae41e\
            4649b934ca495991b7852b855\r\nx-amz-date: 20231114T221320Z\r\nx-amz-copy-source: /docs/a\r\nAuthorization\
            : AWS4-HMAC-SHA256 Credential=GKCOPY/20231114/garage/s3/aws4_request, SignedHeaders=host;x-amz-content-s\
            ha256;x-amz-copy-source;x-amz-date, Signature=997141b2f4ed1a4dfb4cb0ed0d83c7d39e7a39eba3875ccbb5b367ea7c\
            551950\r\n\r\n",
        b"\
            HTTP/1.1 200 OK\r\nDate: Tue, 14 Nov 2023 22:13:20 GMT\r\nContent-Length: 0\r\nETag: \"900150983cd24fb0d\
            6963f7d28e17f72\"\r\n\r\nHTTP/1.1 200 OK\r\nDate: Tue, 14 Nov 2023 22:13:20 GMT\r\nContent-Length: 234\r\
            \nContent-Type: application/xml\r\n\r\n<?xml version=\"1.0\" encoding=\"UTF-8\"?>\n<CopyObjectResult xml\
            ns=\"http://s3.amazonaws.com/doc/2006-03-01/\"><LastModified>2023-11-14T22:13:20.000Z</LastModified><ETa\
            g>&quot;900150983cd24fb0d6963f7d28e17f72&quot;</ETag></CopyObjectResult>",
    ),
    (
        b"\
            PUT /pics/a.txt HTTP/1.1\r\nHost: localhost:3900\r\nx-amz-content-sha256: ba7816bf8f01cfea414140de5dae22\
            23b00361a396177a9cb410ff61f20015ad\r\nx-amz-date: 20231114T221320Z\r\nContent-Length: 3\r\nAuthorization\
            : AWS4-HMAC-SHA256 Credential=GKFULL/20231114/garage/s3/aws4_request, SignedHeaders=host;x-amz-content-s\
            ha256;x-amz-date, Signature=8697c0acb3fe24690feaaa2fa7589136775560492f8d8d27b299a69f25011f8e\r\n\r\nabcP\
            UT /pics/b HTTP/1.1\r\nHost: localhost:3900\r\nx-amz-content-sha256: e3b0c44298fc1c149afbf4c8996fb92427a\
            e41e4649b934ca495991b7852b855\r\nx-amz-date: 20231114T221320Z\r\nx-amz-copy-source: /pics/a.txt\r\nAutho\
            rization: AWS4-HMAC-SHA256 Credential=GKCOPY/20231114/garage/s3/aws4_request, SignedHeaders=host;x-amz-c\
            ontent-sha256;x-amz-copy-source;x-amz-date, Signature=4c9077f1cb11edae0dc2cf228aff20f104324d670d0e23566d\
            34ac1de5cd574c\r\n\r\n",
        b"\
            HTTP/1.1 200 OK\r\nDate: Tue, 14 Nov 2023 22:13:20 GMT\r\nContent-Length: 0\r\nETag: \"900150983cd24fb0d\
            6963f7d28e17f72\"\r\n\r\nHTTP/1.1 403 Forbidden\r\nDate: Tue, 14 Nov 2023 22:13:20 GMT\r\nContent-Length\
            : 138\r\nContent-Type: application/xml\r\n\r\n<?xml version=\"1.0\" encoding=\"UTF-8\"?>\n<Error><Code>A\
            ccessDenied</Code><Message>AccessDenied</Message><Resource>/pics/b</Resource></Error>",
    ),
    (
        b"\
            PUT /docs/a HTTP/1.1\r\nHost: localhost:3900\r\nx-amz-content-sha256: ba7816bf8f01cfea414140de5dae2223b0\
            0361a396177a9cb410ff61f20015ad\r\nx-amz-date: 20231114T221320Z\r\nContent-Length: 3\r\nAuthorization: AW\
            S4-HMAC-SHA256 Credential=GKFULL/20231114/garage/s3/aws4_request, SignedHeaders=host;x-amz-content-sha25\
            6;x-amz-date, Signature=0f6a8e798c945f10b21cdd25df0feac2a09d986d47442194f433fd9c720071c8\r\n\r\nabcPUT /\
            docs/b HTTP/1.1\r\nHost: localhost:3900\r\nx-amz-content-sha256: e3b0c44298fc1c149afbf4c8996fb92427ae41e\
            4649b934ca495991b7852b855\r\nx-amz-date: 20231114T221320Z\r\nx-amz-copy-source: /docs/a\r\nAuthorization\
            : AWS4-HMAC-SHA256 Credential=GKCOPY/20231114/garage/s3/aws4_request, SignedHeaders=host;x-amz-content-s\
            ha256;x-amz-copy-source;x-amz-date, Signature=a2d77fc2502e3c0eae2769029e3d3a439f041601a220e4adc12cedf5a5\
            ba2e28\r\n\r\n",
        b"\
            HTTP/1.1 200 OK\r\nDate: Tue, 14 Nov 2023 22:13:20 GMT\r\nContent-Length: 0\r\nETag: \"900150983cd24fb0d\
            6963f7d28e17f72\"\r\n\r\nHTTP/1.1 403 Forbidden\r\nDate: Tue, 14 Nov 2023 22:13:20 GMT\r\nContent-Length\
            : 138\r\nContent-Type: application/xml\r\nConnection: close\r\n\r\n<?xml version=\"1.0\" encoding=\"UTF-\
            8\"?>\n<Error><Code>AccessDenied</Code><Message>AccessDenied</Message><Resource>/docs/b</Resource></Erro\
            r>",
    ),
    (
        b"\
            PUT /pics/a.txt HTTP/1.1\r\nHost: localhost:3900\r\nx-amz-content-sha256: ba7816bf8f01cfea414140de5dae22\
            23b00361a396177a9cb410ff61f20015ad\r\nx-amz-date: 20231114T221320Z\r\nContent-Length: 3\r\nAuthorization\
            : AWS4-HMAC-SHA256 Credential=GKFULL/20231114/garage/s3/aws4_request, SignedHeaders=host;x-amz-content-s\
            ha256;x-amz-date, Signature=8697c0acb3fe24690feaaa2fa7589136775560492f8d8d27b299a69f25011f8e\r\n\r\nabcP\
            UT /docs/b HTTP/1.1\r\nHost: localhost:3900\r\nx-amz-content-sha256: e3b0c44298fc1c149afbf4c8996fb92427a\
            e41e4649b934ca495991b7852b855\r\nx-amz-date: 20231114T221320Z\r\nx-amz-copy-source: /pics/a.txt\r\nAutho\
            rization: AWS4-HMAC-SHA256 Credential=GKCOPY/20231114/garage/s3/aws4_request, SignedHeaders=host;x-amz-c\
            ontent-sha256;x-amz-copy-source;x-amz-date, Signature=4b77b38be29f5168af31fcfa3847b7a29893ba92ab1b60cb0e\
            f521986077d11f\r\n\r\n",
        b"\
            HTTP/1.1 200 OK\r\nDate: Tue, 14 Nov 2023 22:13:20 GMT\r\nContent-Length: 0\r\nETag: \"900150983cd24fb0d\
            6963f7d28e17f72\"\r\n\r\nHTTP/1.1 403 Forbidden\r\nDate: Tue, 14 Nov 2023 22:13:20 GMT\r\nContent-Length\
            : 138\r\nContent-Type: application/xml\r\nConnection: close\r\n\r\n<?xml version=\"1.0\" encoding=\"UTF-\
            8\"?>\n<Error><Code>AccessDenied</Code><Message>AccessDenied</Message><Resource>/docs/b</Resource></Erro\
            r>",
    ),
    (
        b"\
            PUT /pics/b HTTP/1.1\r\nHost: localhost:3900\r\nx-amz-content-sha256: e3b0c44298fc1c149afbf4c8996fb92427\
            ae41e4649b934ca495991b7852b855\r\nx-amz-date: 20231114T221320Z\r\nx-amz-copy-source: /none/a\r\nAuthoriz\
            ation: AWS4-HMAC-SHA256 Credential=GKCOPY/20231114/garage/s3/aws4_request, SignedHeaders=host;x-amz-cont\
            ent-sha256;x-amz-copy-source;x-amz-date, Signature=cbc2f36797cbde0fc9f425bbfc90a83525af0e351bedc726fb072\
            42b98a48cbe\r\n\r\n",
        b"\
            HTTP/1.1 403 Forbidden\r\nDate: Tue, 14 Nov 2023 22:13:20 GMT\r\nContent-Length: 138\r\nContent-Type: ap\
            plication/xml\r\n\r\n<?xml version=\"1.0\" encoding=\"UTF-8\"?>\n<Error><Code>AccessDenied</Code><Messag\
            e>AccessDenied</Message><Resource>/pics/b</Resource></Error>",
    ),
    (
        b"\
            PUT /pics/b HTTP/1.1\r\nHost: localhost:3900\r\nx-amz-content-sha256: e3b0c44298fc1c149afbf4c8996fb92427\
            ae41e4649b934ca495991b7852b855\r\nx-amz-date: 20231114T221320Z\r\nx-amz-copy-source: nokey\r\nAuthorizat\
            ion: AWS4-HMAC-SHA256 Credential=GKCOPY/20231114/garage/s3/aws4_request, SignedHeaders=host;x-amz-conten\
            t-sha256;x-amz-copy-source;x-amz-date, Signature=6a99f68a857059e7f1400b7b3d049a5755995adb280f3973eee98de\
            d3a59f5f6\r\n\r\n",
        b"\
            HTTP/1.1 400 Bad Request\r\nDate: Tue, 14 Nov 2023 22:13:20 GMT\r\nContent-Length: 144\r\nContent-Type: \
            application/xml\r\n\r\n<?xml version=\"1.0\" encoding=\"UTF-8\"?>\n<Error><Code>InvalidArgument</Code><M\
            essage>InvalidArgument</Message><Resource>/pics/b</Resource></Error>",
    ),
    (
        b"\
            PUT /pics/b HTTP/1.1\r\nHost: localhost:3900\r\nx-amz-content-sha256: e3b0c44298fc1c149afbf4c8996fb92427\
            ae41e4649b934ca495991b7852b855\r\nx-amz-date: 20231114T221320Z\r\nx-amz-copy-source: /docs/none\r\nAutho\
            rization: AWS4-HMAC-SHA256 Credential=GKCOPY/20231114/garage/s3/aws4_request, SignedHeaders=host;x-amz-c\
            ontent-sha256;x-amz-copy-source;x-amz-date, Signature=dfcf74fa35c8d49ec37af68f3fe5c51b7b033031ceeeb97fe2\
            182873960b5433\r\n\r\n",
        b"\
            HTTP/1.1 404 Not Found\r\nDate: Tue, 14 Nov 2023 22:13:20 GMT\r\nContent-Length: 132\r\nContent-Type: ap\
            plication/xml\r\n\r\n<?xml version=\"1.0\" encoding=\"UTF-8\"?>\n<Error><Code>NoSuchKey</Code><Message>N\
            oSuchKey</Message><Resource>/pics/b</Resource></Error>",
    ),
];

/// The list of all buckets shows those that the key reads; a bucket that isn't configured is in no key's list.
pub const BUCKETS: [Row; 6] = [
    (
        b"\
            GET / HTTP/1.1\r\nHost: localhost:3900\r\nx-amz-content-sha256: e3b0c44298fc1c149afbf4c8996fb92427ae41e4\
            649b934ca495991b7852b855\r\nx-amz-date: 20231114T221320Z\r\nAuthorization: AWS4-HMAC-SHA256 Credential=G\
            KFULL/20231114/garage/s3/aws4_request, SignedHeaders=host;x-amz-content-sha256;x-amz-date, Signature=113\
            42c3cbc11ea1554476f695ff37d08eec5137d5dc76322061fcb283cdc6086\r\n\r\n",
        b"\
            HTTP/1.1 200 OK\r\nDate: Tue, 14 Nov 2023 22:13:20 GMT\r\nContent-Length: 400\r\nContent-Type: applicati\
            on/xml\r\n\r\n<?xml version=\"1.0\" encoding=\"UTF-8\"?>\n<ListAllMyBucketsResult xmlns=\"http://s3.amaz\
            onaws.com/doc/2006-03-01/\"><Owner><ID>garage-lab</ID><DisplayName>garage-lab</DisplayName></Owner><Buck\
            ets><Bucket><Name>docs</Name><CreationDate>1970-01-01T00:00:00.000Z</CreationDate></Bucket><Bucket><Name\
            >pics</Name><CreationDate>1970-01-01T00:00:00.000Z</CreationDate></Bucket></Buckets></ListAllMyBucketsRe\
            sult>",
    ),
    (
        b"\
            GET / HTTP/1.1\r\nHost: localhost:3900\r\nx-amz-content-sha256: e3b0c44298fc1c149afbf4c8996fb92427ae41e4\
            649b934ca495991b7852b855\r\nx-amz-date: 20231114T221320Z\r\nAuthorization: AWS4-HMAC-SHA256 Credential=G\
            KREAD/20231114/garage/s3/aws4_request, SignedHeaders=host;x-amz-content-sha256;x-amz-date, Signature=1b2\
            e700cef21c5aef3a4abc123e9a724f29bd753f0bed09ec77e84d8e0bc423e\r\n\r\n",
        b"\
            HTTP/1.1 200 OK\r\nDate: Tue, 14 Nov 2023 22:13:20 GMT\r\nContent-Length: 313\r\nContent-Type: applicati\
            on/xml\r\n\r\n<?xml version=\"1.0\" encoding=\"UTF-8\"?>\n<ListAllMyBucketsResult xmlns=\"http://s3.amaz\
            onaws.com/doc/2006-03-01/\"><Owner><ID>garage-lab</ID><DisplayName>garage-lab</DisplayName></Owner><Buck\
            ets><Bucket><Name>pics</Name><CreationDate>1970-01-01T00:00:00.000Z</CreationDate></Bucket></Buckets></L\
            istAllMyBucketsResult>",
    ),
    (
        b"\
            GET / HTTP/1.1\r\nHost: localhost:3900\r\nx-amz-content-sha256: e3b0c44298fc1c149afbf4c8996fb92427ae41e4\
            649b934ca495991b7852b855\r\nx-amz-date: 20231114T221320Z\r\nAuthorization: AWS4-HMAC-SHA256 Credential=G\
            KNONE/20231114/garage/s3/aws4_request, SignedHeaders=host;x-amz-content-sha256;x-amz-date, Signature=74d\
            8cc998b5792bfc1c776b9c0bfc9a80b37293e40de6be23d136593e9f804f3\r\n\r\n",
        b"\
            HTTP/1.1 200 OK\r\nDate: Tue, 14 Nov 2023 22:13:20 GMT\r\nContent-Length: 226\r\nContent-Type: applicati\
            on/xml\r\n\r\n<?xml version=\"1.0\" encoding=\"UTF-8\"?>\n<ListAllMyBucketsResult xmlns=\"http://s3.amaz\
            onaws.com/doc/2006-03-01/\"><Owner><ID>garage-lab</ID><DisplayName>garage-lab</DisplayName></Owner><Buck\
            ets></Buckets></ListAllMyBucketsResult>",
    ),
    (
        b"\
            GET / HTTP/1.1\r\nHost: localhost:3900\r\nx-amz-content-sha256: e3b0c44298fc1c149afbf4c8996fb92427ae41e4\
            649b934ca495991b7852b855\r\nx-amz-date: 20231114T221320Z\r\nAuthorization: AWS4-HMAC-SHA256 Credential=G\
            KCOPY/20231114/garage/s3/aws4_request, SignedHeaders=host;x-amz-content-sha256;x-amz-date, Signature=315\
            7160bcde113cca7b320cbf2b381acd9bd39883ffe7ecf488eba343ac5c9bb\r\n\r\n",
        b"\
            HTTP/1.1 200 OK\r\nDate: Tue, 14 Nov 2023 22:13:20 GMT\r\nContent-Length: 313\r\nContent-Type: applicati\
            on/xml\r\n\r\n<?xml version=\"1.0\" encoding=\"UTF-8\"?>\n<ListAllMyBucketsResult xmlns=\"http://s3.amaz\
            onaws.com/doc/2006-03-01/\"><Owner><ID>garage-lab</ID><DisplayName>garage-lab</DisplayName></Owner><Buck\
            ets><Bucket><Name>docs</Name><CreationDate>1970-01-01T00:00:00.000Z</CreationDate></Bucket></Buckets></L\
            istAllMyBucketsResult>",
    ),
    (
        b"\
            HEAD /none HTTP/1.1\r\nHost: localhost:3900\r\nx-amz-content-sha256: e3b0c44298fc1c149afbf4c8996fb92427a\
            e41e4649b934ca495991b7852b855\r\nx-amz-date: 20231114T221320Z\r\nAuthorization: AWS4-HMAC-SHA256 Credent\
            ial=GKFULL/20231114/garage/s3/aws4_request, SignedHeaders=host;x-amz-content-sha256;x-amz-date, Signatur\
            e=bf9dfd29173037ce910f41d51464187a24876e6e42ded394272fcd0e722f5f08\r\n\r\n",
        b"\
            HTTP/1.1 403 Forbidden\r\nDate: Tue, 14 Nov 2023 22:13:20 GMT\r\nContent-Length: 0\r\nConnection: close\
            \r\n\r\n",
    ),
    (
        b"\
            GET /none/a HTTP/1.1\r\nHost: localhost:3900\r\nx-amz-content-sha256: e3b0c44298fc1c149afbf4c8996fb92427\
            ae41e4649b934ca495991b7852b855\r\nx-amz-date: 20231114T221320Z\r\nAuthorization: AWS4-HMAC-SHA256 Creden\
            tial=GKFULL/20231114/garage/s3/aws4_request, SignedHeaders=host;x-amz-content-sha256;x-amz-date, Signatu\
            re=6246fe1e9e6503f03144fb28b11c97e71787c250041648ba07886bdf7b4afb10\r\n\r\n",
        b"\
            HTTP/1.1 403 Forbidden\r\nDate: Tue, 14 Nov 2023 22:13:20 GMT\r\nContent-Length: 138\r\nContent-Type: ap\
            plication/xml\r\nConnection: close\r\n\r\n<?xml version=\"1.0\" encoding=\"UTF-8\"?>\n<Error><Code>Acces\
            sDenied</Code><Message>AccessDenied</Message><Resource>/none/a</Resource></Error>",
    ),
];

/// The digest that was signed is that of the body, of a put and of a get with a body; where the client waits before it sends the body, it is told to go on only where the head is admitted.
pub const BODIES: [Row; 10] = [
    (
        b"\
            PUT /pics/a.txt HTTP/1.1\r\nHost: localhost:3900\r\nx-amz-content-sha256: ba7816bf8f01cfea414140de5dae22\
            23b00361a396177a9cb410ff61f20015ad\r\nx-amz-date: 20231114T221320Z\r\nContent-Length: 3\r\nAuthorization\
            : AWS4-HMAC-SHA256 Credential=GKFULL/20231114/garage/s3/aws4_request, SignedHeaders=host;x-amz-content-s\
            ha256;x-amz-date, Signature=8697c0acb3fe24690feaaa2fa7589136775560492f8d8d27b299a69f25011f8e\r\n\r\nabdG\
            ET /pics/a.txt HTTP/1.1\r\nHost: localhost:3900\r\nx-amz-content-sha256: e3b0c44298fc1c149afbf4c8996fb92\
            427ae41e4649b934ca495991b7852b855\r\nx-amz-date: 20231114T221320Z\r\nAuthorization: AWS4-HMAC-SHA256 Cre\
            dential=GKFULL/20231114/garage/s3/aws4_request, SignedHeaders=host;x-amz-content-sha256;x-amz-date, Sign\
            ature=e03778ec5cdd7734c6a6195bd4c5d5b1182ad15706e5524ba44da62a44354a26\r\n\r\n",
        b"\
            HTTP/1.1 400 Bad Request\r\nDate: Tue, 14 Nov 2023 22:13:20 GMT\r\nContent-Length: 168\r\nContent-Type: \
            application/xml\r\n\r\n<?xml version=\"1.0\" encoding=\"UTF-8\"?>\n<Error><Code>XAmzContentSHA256Mismatc\
            h</Code><Message>XAmzContentSHA256Mismatch</Message><Resource>/pics/a.txt</Resource></Error>HTTP/1.1 404 \
            Not Found\r\nDate: Tue, 14 Nov 2023 22:13:20 GMT\r\nContent-Length: 136\r\nContent-Type: application/xml\
            \r\n\r\n<?xml version=\"1.0\" encoding=\"UTF-8\"?>\n<Error><Code>NoSuchKey</Code><Message>NoSuchKey</Mes\
            sage><Resource>/pics/a.txt</Resource></Error>",
    ),
    (
        b"\
            PUT /pics/a.txt HTTP/1.1\r\nHost: localhost:3900\r\nx-amz-content-sha256: e3b0c44298fc1c149afbf4c8996fb9\
            2427ae41e4649b934ca495991b7852b855\r\nx-amz-date: 20231114T221320Z\r\nContent-Length: 3\r\nAuthorization\
            : AWS4-HMAC-SHA256 Credential=GKFULL/20231114/garage/s3/aws4_request, SignedHeaders=host;x-amz-content-s\
            ha256;x-amz-date, Signature=9e0ebe047b6926065a6fb8421c071f549a90c3461b09fa99a74a8b365e97ad09\r\n\r\nabc",
        b"\
            HTTP/1.1 400 Bad Request\r\nDate: Tue, 14 Nov 2023 22:13:20 GMT\r\nContent-Length: 168\r\nContent-Type: \
            application/xml\r\n\r\n<?xml version=\"1.0\" encoding=\"UTF-8\"?>\n<Error><Code>XAmzContentSHA256Mismatc\
            h</Code><Message>XAmzContentSHA256Mismatch</Message><Resource>/pics/a.txt</Resource></Error>",
    ),
    (
        b"\
            PUT /pics/a.txt HTTP/1.1\r\nHost: localhost:3900\r\nx-amz-content-sha256: UNSIGNED-PAYLOAD\r\nx-amz-date\
            : 20231114T221320Z\r\nContent-Length: 3\r\nAuthorization: AWS4-HMAC-SHA256 Credential=GKFULL/20231114/ga\
            rage/s3/aws4_request, SignedHeaders=host;x-amz-content-sha256;x-amz-date, Signature=128adbe97d0ed2e5be9b\
            69d1022ec5ec6084506ef3914a38ee3ea02ec6c895e9\r\n\r\nabc",
        b"\
            HTTP/1.1 200 OK\r\nDate: Tue, 14 Nov 2023 22:13:20 GMT\r\nContent-Length: 0\r\nETag: \"900150983cd24fb0d\
            6963f7d28e17f72\"\r\n\r\n",
    ),
    (
        b"\
            GET /pics/a.txt HTTP/1.1\r\nHost: localhost:3900\r\nx-amz-content-sha256: ba7816bf8f01cfea414140de5dae22\
            23b00361a396177a9cb410ff61f20015ad\r\nx-amz-date: 20231114T221320Z\r\nContent-Length: 3\r\nAuthorization\
            : AWS4-HMAC-SHA256 Credential=GKFULL/20231114/garage/s3/aws4_request, SignedHeaders=host;x-amz-content-s\
            ha256;x-amz-date, Signature=28250e4de341e2b5e267147ae6d40c114f14311e23af22be0a63a384c0cf4dde\r\n\r\nabc",
        b"\
            HTTP/1.1 404 Not Found\r\nDate: Tue, 14 Nov 2023 22:13:20 GMT\r\nContent-Length: 136\r\nContent-Type: ap\
            plication/xml\r\n\r\n<?xml version=\"1.0\" encoding=\"UTF-8\"?>\n<Error><Code>NoSuchKey</Code><Message>N\
            oSuchKey</Message><Resource>/pics/a.txt</Resource></Error>",
    ),
    (
        b"\
            GET /pics/a.txt HTTP/1.1\r\nHost: localhost:3900\r\nx-amz-content-sha256: e3b0c44298fc1c149afbf4c8996fb9\
            2427ae41e4649b934ca495991b7852b855\r\nx-amz-date: 20231114T221320Z\r\nContent-Length: 3\r\nAuthorization\
            : AWS4-HMAC-SHA256 Credential=GKFULL/20231114/garage/s3/aws4_request, SignedHeaders=host;x-amz-content-s\
            ha256;x-amz-date, Signature=e03778ec5cdd7734c6a6195bd4c5d5b1182ad15706e5524ba44da62a44354a26\r\n\r\nabc",
        b"\
            HTTP/1.1 400 Bad Request\r\nDate: Tue, 14 Nov 2023 22:13:20 GMT\r\nContent-Length: 168\r\nContent-Type: \
            application/xml\r\n\r\n<?xml version=\"1.0\" encoding=\"UTF-8\"?>\n<Error><Code>XAmzContentSHA256Mismatc\
            h</Code><Message>XAmzContentSHA256Mismatch</Message><Resource>/pics/a.txt</Resource></Error>",
    ),
    (
        b"\
            PUT /pics/a.txt HTTP/1.1\r\nHost: localhost:3900\r\nx-amz-content-sha256: ba7816bf8f01cfea414140de5dae22\
            23b00361a396177a9cb410ff61f20015ad\r\nx-amz-date: 20231114T221320Z\r\nExpect: 100-continue\r\nContent-Le\
            ngth: 3\r\nAuthorization: AWS4-HMAC-SHA256 Credential=GKFULL/20231114/garage/s3/aws4_request, SignedHead\
            ers=host;x-amz-content-sha256;x-amz-date, Signature=8697c0acb3fe24690feaaa2fa7589136775560492f8d8d27b299\
            a69f25011f8e\r\n\r\nabc",
        b"\
            HTTP/1.1 100 Continue\r\n\r\nHTTP/1.1 200 OK\r\nDate: Tue, 14 Nov 2023 22:13:20 GMT\r\nContent-Length: 0\
            \r\nETag: \"900150983cd24fb0d6963f7d28e17f72\"\r\n\r\n",
    ),
    (
        b"\
            PUT /pics/a.txt HTTP/1.1\r\nHost: localhost:3900\r\nx-amz-content-sha256: ba7816bf8f01cfea414140de5dae22\
            23b00361a396177a9cb410ff61f20015ad\r\nx-amz-date: 20231114T221320Z\r\nExpect: 100-continue\r\nContent-Le\
            ngth: 3\r\nAuthorization: AWS4-HMAC-SHA256 Credential=GKREAD/20231114/garage/s3/aws4_request, SignedHead\
            ers=host;x-amz-content-sha256;x-amz-date, Signature=60bd324955203b9698c9195e0237b13beb70c9cea0b32766b646\
            97c2b558b712\r\n\r\nabc",
        b"\
            HTTP/1.1 403 Forbidden\r\nDate: Tue, 14 Nov 2023 22:13:20 GMT\r\nContent-Length: 142\r\nContent-Type: ap\
            plication/xml\r\nConnection: close\r\n\r\n<?xml version=\"1.0\" encoding=\"UTF-8\"?>\n<Error><Code>Acces\
            sDenied</Code><Message>AccessDenied</Message><Resource>/pics/a.txt</Resource></Error>",
    ),
    (
        b"\
            PUT /pics/a.txt HTTP/1.1\r\nHost: localhost:3900\r\nx-amz-content-sha256: ba7816bf8f01cfea414140de5dae22\
            23b00361a396177a9cb410ff61f20015ad\r\nx-amz-date: 20231114T221320Z\r\nExpect: 100-continue\r\nContent-Le\
            ngth: 3\r\nAuthorization: AWS4-HMAC-SHA256 Credential=GKFULL/20231114/garage/s3/aws4_request, SignedHead\
            ers=host;x-amz-content-sha256;x-amz-date, Signature=0697c0acb3fe24690feaaa2fa7589136775560492f8d8d27b299\
            a69f25011f8e\r\n\r\nabc",
        b"\
            HTTP/1.1 403 Forbidden\r\nDate: Tue, 14 Nov 2023 22:13:20 GMT\r\nContent-Length: 160\r\nContent-Type: ap\
            plication/xml\r\nConnection: close\r\n\r\n<?xml version=\"1.0\" encoding=\"UTF-8\"?>\n<Error><Code>Signa\
            tureDoesNotMatch</Code><Message>SignatureDoesNotMatch</Message><Resource>/pics/a.txt</Resource></Error>",
    ),
    (
        b"\
            PUT /pics/a.txt HTTP/1.1\r\nHost: localhost:3900\r\nx-amz-content-sha256: ba7816bf8f01cfea414140de5dae22\
            23b00361a396177a9cb410ff61f20015ad\r\nx-amz-date: 20231114T221320Z\r\nExpect: 100-continue\r\nContent-Le\
            ngth: 3\r\n\r\nabc",
        b"\
            HTTP/1.1 403 Forbidden\r\nDate: Tue, 14 Nov 2023 22:13:20 GMT\r\nContent-Length: 142\r\nContent-Type: ap\
            plication/xml\r\nConnection: close\r\n\r\n<?xml version=\"1.0\" encoding=\"UTF-8\"?>\n<Error><Code>Acces\
            sDenied</Code><Message>AccessDenied</Message><Resource>/pics/a.txt</Resource></Error>",
    ),
    (
        b"\
            PUT /pics/a.txt HTTP/1.1\r\nHost: localhost:3900\r\nx-amz-content-sha256: e3b0c44298fc1c149afbf4c8996fb9\
            2427ae41e4649b934ca495991b7852b855\r\nx-amz-date: 20231114T221320Z\r\nContent-Length: 16777216\r\nAuthor\
            ization: AWS4-HMAC-SHA256 Credential=GKREAD/20231114/garage/s3/aws4_request, SignedHeaders=host;x-amz-co\
            ntent-sha256;x-amz-date, Signature=842044e8287d44c4dca5f8b4e91161ac12dee8f08414c0011394560291029200\r\n\
            \r\n",
        b"\
            HTTP/1.1 403 Forbidden\r\nDate: Tue, 14 Nov 2023 22:13:20 GMT\r\nContent-Length: 142\r\nContent-Type: ap\
            plication/xml\r\nConnection: close\r\n\r\n<?xml version=\"1.0\" encoding=\"UTF-8\"?>\n<Error><Code>Acces\
            sDenied</Code><Message>AccessDenied</Message><Resource>/pics/a.txt</Resource></Error>",
    ),
];
