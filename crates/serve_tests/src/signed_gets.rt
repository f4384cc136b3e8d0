//! Requests that are signed by Python's hmac and hashlib, and their whole answers, put together from docs/S3.md by a
//! script of its own: one object in every way of signing, and each operation with keys that may do one thing.
use crate::signed::Row;

/// An object is put and read by a key that may; with one digit of the signature changed; dated 900 and 901 seconds away; unsigned.
pub const SIGNED_GET: [Row; 10] = [
    (
        b"\
            PUT /pics/a.txt HTTP/1.1\r\nHost: localhost:3900\r\nx-amz-content-sha256: ba7816bf8f01cfea414140de5dae22\
            23b00361a396177a9cb410ff61f20015ad\r\nx-amz-date: 20231114T221320Z\r\nContent-Length: 3\r\nAuthorization\
            : AWS4-HMAC-SHA256 Credential=GKFULL/20231114/garage/s3/aws4_request, SignedHeaders=host;x-amz-content-s\
            ha256;x-amz-date, Signature=8697c0acb3fe24690feaaa2fa7589136775560492f8d8d27b299a69f25011f8e\r\n\r\nabcG\
            ET /pics/a.txt HTTP/1.1\r\nHost: localhost:3900\r\nx-amz-content-sha256: e3b0c44298fc1c149afbf4c8996fb92\
            427ae41e4649b934ca495991b7852b855\r\nx-amz-date: 20231114T221320Z\r\nAuthorization: AWS4-HMAC-SHA256 Cre\
            dential=GKFULL/20231114/garage/s3/aws4_request, SignedHeaders=host;x-amz-content-sha256;x-amz-date, Sign\
            ature=e03778ec5cdd7734c6a6195bd4c5d5b1182ad15706e5524ba44da62a44354a26\r\n\r\n",
        b"\
            HTTP/1.1 200 OK\r\nDate: Tue, 14 Nov 2023 22:13:20 GMT\r\nContent-Length: 0\r\nETag: \"900150983cd24fb0d\
            6963f7d28e17f72\"\r\n\r\nHTTP/1.1 200 OK\r\nDate: Tue, 14 Nov 2023 22:13:20 GMT\r\nContent-Length: 3\r\n\
            ETag: \"900150983cd24fb0d6963f7d28e17f72\"\r\nLast-Modified: Tue, 14 Nov 2023 22:13:20 GMT\r\nContent-Ty\
            pe: application/octet-stream\r\nAccept-Ranges: bytes\r\n\r\nabc",
    ),
    (
        b"\
            PUT /pics/a.txt HTTP/1.1\r\nHost: localhost:3900\r\nx-amz-content-sha256: ba7816bf8f01cfea414140de5dae22\
            23b00361a396177a9cb410ff61f20015ad\r\nx-amz-date: 20231114T221320Z\r\nContent-Length: 3\r\nAuthorization\
            : AWS4-HMAC-SHA256 Credential=GKFULL/20231114/garage/s3/aws4_request, SignedHeaders=host;x-amz-content-s\
            ha256;x-amz-date, Signature=8697c0acb3fe24690feaaa2fa7589136775560492f8d8d27b299a69f25011f8e\r\n\r\nabcG\
            ET /pics/a.txt HTTP/1.1\r\nHost: localhost:3900\r\nx-amz-content-sha256: e3b0c44298fc1c149afbf4c8996fb92\
            427ae41e4649b934ca495991b7852b855\r\nx-amz-date: 20231114T221320Z\r\nAuthorization: AWS4-HMAC-SHA256 Cre\
            dential=GKFULL/20231114/garage/s3/aws4_request, SignedHeaders=host;x-amz-content-sha256;x-amz-date, Sign\
            ature=003778ec5cdd7734c6a6195bd4c5d5b1182ad15706e5524ba44da62a44354a26\r\n\r\n",
        b"\
            HTTP/1.1 200 OK\r\nDate: Tue, 14 Nov 2023 22:13:20 GMT\r\nContent-Length: 0\r\nETag: \"900150983cd24fb0d\
            6963f7d28e17f72\"\r\n\r\nHTTP/1.1 403 Forbidden\r\nDate: Tue, 14 Nov 2023 22:13:20 GMT\r\nContent-Length\
            : 160\r\nContent-Type: application/xml\r\nConnection: close\r\n\r\n<?xml version=\"1.0\" encoding=\"UTF-\
            8\"?>\n<Error><Code>SignatureDoesNotMatch</Code><Message>SignatureDoesNotMatch</Message><Resource>/pics/\
            a.txt</Resource></Error>",
    ),
    (
        b"\
            GET /pics/a.txt HTTP/1.1\r\nHost: localhost:3900\r\nx-amz-content-sha256: e3b0c44298fc1c149afbf4c8996fb9\
            2427ae41e4649b934ca495991b7852b855\r\nx-amz-date: 20231114T215820Z\r\nAuthorization: AWS4-HMAC-SHA256 Cr\
            edential=GKFULL/20231114/garage/s3/aws4_request, SignedHeaders=host;x-amz-content-sha256;x-amz-date, Sig\
            nature=d0322be3cf145ebbf3a3fe6236ea3ea963b2377b3df4d7917b92f7f298cc8c4d\r\n\r\n",
        b"\
            HTTP/1.1 404 Not Found\r\nDate: Tue, 14 Nov 2023 22:13:20 GMT\r\nContent-Length: 136\r\nContent-Type: ap\
            plication/xml\r\n\r\n<?xml version=\"1.0\" encoding=\"UTF-8\"?>\n<Error><Code>NoSuchKey</Code><Message>N\
            oSuchKey</Message><Resource>/pics/a.txt</Resource></Error>",
    ),
    (
        b"\
            GET /pics/a.txt HTTP/1.1\r\nHost: localhost:3900\r\nx-amz-content-sha256: e3b0c44298fc1c149afbf4c8996fb9\
            2427ae41e4649b934ca495991b7852b855\r\nx-amz-date: 20231114T222820Z\r\nAuthorization: AWS4-HMAC-SHA256 Cr\
            edential=GKFULL/20231114/garage/s3/aws4_request, SignedHeaders=host;x-amz-content-sha256;x-amz-date, Sig\
            nature=3f4b267753d846ab93cbd52c53e2635b199955dfab5f7e54d0306b41c86285f5\r\n\r\n",
        b"\
            HTTP/1.1 404 Not Found\r\nDate: Tue, 14 Nov 2023 22:13:20 GMT\r\nContent-Length: 136\r\nContent-Type: ap\
            plication/xml\r\n\r\n<?xml version=\"1.0\" encoding=\"UTF-8\"?>\n<Error><Code>NoSuchKey</Code><Message>N\
            oSuchKey</Message><Resource>/pics/a.txt</Resource></Error>",
    ),
    (
        b"\
            GET /pics/a.txt HTTP/1.1\r\nHost: localhost:3900\r\nx-amz-content-sha256: e3b0c44298fc1c149afbf4c8996fb9\
            2427ae41e4649b934ca495991b7852b855\r\nx-amz-date: 20231114T215819Z\r\nAuthorization: AWS4-HMAC-SHA256 Cr\
            edential=GKFULL/20231114/garage/s3/aws4_request, SignedHeaders=host;x-amz-content-sha256;x-amz-date, Sig\
            nature=a268fa35fbaad054d8edaf02b9e8a5a19334c857113b13fd220edd8739c089a1\r\n\r\n",
        b"\
            HTTP/1.1 403 Forbidden\r\nDate: Tue, 14 Nov 2023 22:13:20 GMT\r\nContent-Length: 158\r\nContent-Type: ap\
            plication/xml\r\nConnection: close\r\n\r\n<?xml version=\"1.0\" encoding=\"UTF-8\"?>\n<Error><Code>Reque\
            stTimeTooSkewed</Code><Message>RequestTimeTooSkewed</Message><Resource>/pics/a.txt</Resource></Error>",
    ),
    (
        b"\
            GET /pics/a.txt HTTP/1.1\r\nHost: localhost:3900\r\nx-amz-content-sha256: e3b0c44298fc1c149afbf4c8996fb9\
            2427ae41e4649b934ca495991b7852b855\r\nx-amz-date: 20231114T222821Z\r\nAuthorization: AWS4-HMAC-SHA256 Cr\
            edential=GKFULL/20231114/garage/s3/aws4_request, SignedHeaders=host;x-amz-content-sha256;x-amz-date, Sig\
            nature=18a343a9568e2b95901e5610699c07b5f7517fbcab39a319dfcce8b5716e1e6f\r\n\r\n",
        b"\
            HTTP/1.1 403 Forbidden\r\nDate: Tue, 14 Nov 2023 22:13:20 GMT\r\nContent-Length: 158\r\nContent-Type: ap\
            plication/xml\r\nConnection: close\r\n\r\n<?xml version=\"1.0\" encoding=\"UTF-8\"?>\n<Error><Code>Reque\
            stTimeTooSkewed</Code><Message>RequestTimeTooSkewed</Message><Resource>/pics/a.txt</Resource></Error>",
    ),
    (
        b"\
            PUT /pics/a.txt HTTP/1.1\r\nHost: localhost:3900\r\nx-amz-content-sha256: ba7816bf8f01cfea414140de5dae22\
            23b00361a396177a9cb410ff61f20015ad\r\nx-amz-date: 20231114T221320Z\r\nContent-Length: 3\r\nAuthorization\
            : AWS4-HMAC-SHA256 Credential=GKFULL/20231114/garage/s3/aws4_request, SignedHeaders=host;x-amz-content-s\
            ha256;x-amz-date, Signature=8697c0acb3fe24690feaaa2fa7589136775560492f8d8d27b299a69f25011f8e\r\n\r\nabcG\
            ET /pics/a.txt HTTP/1.1\r\n\r\n",
        b"\
            HTTP/1.1 200 OK\r\nDate: Tue, 14 Nov 2023 22:13:20 GMT\r\nContent-Length: 0\r\nETag: \"900150983cd24fb0d\
            6963f7d28e17f72\"\r\n\r\nHTTP/1.1 403 Forbidden\r\nDate: Tue, 14 Nov 2023 22:13:20 GMT\r\nContent-Length\
            : 142\r\nContent-Type: application/xml\r\nConnection: close\r\n\r\n<?xml version=\"1.0\" encoding=\"UTF-\
            8\"?>\n<Error><Code>AccessDenied</Code><Message>AccessDenied</Message><Resource>/pics/a.txt</Resource></\
            Error>",
    ),
    (
        b"\
            GET /pics/a.txt HTTP/1.1\r\nHost: localhost:3900\r\nx-amz-content-sha256: e3b0c44298fc1c149afbf4c8996fb9\
            2427ae41e4649b934ca495991b7852b855\r\nx-amz-date: 20231114T221320Z\r\nAuthorization: AWS4-HMAC-SHA256 Cr\
            edential=GKFULL/20231114/us-east-1/s3/aws4_request, SignedHeaders=host;x-amz-content-sha256;x-amz-date, \
            Signature=3e20f476b255aa7846c0ce3e4ed01d571f050cb424e5aa1c653d60bfc5bff21e\r\n\r\n",
        b"\
            HTTP/1.1 400 Bad Request\r\nDate: Tue, 14 Nov 2023 22:13:20 GMT\r\nContent-Length: 174\r\nContent-Type: \
            application/xml\r\nConnection: close\r\n\r\n<?xml version=\"1.0\" encoding=\"UTF-8\"?>\n<Error><Code>Aut\
            horizationHeaderMalformed</Code><Message>AuthorizationHeaderMalformed</Message><Resource>/pics/a.txt</Re\
            source></Error>",
    ),
    (
        b"\
            GET /pics/a.txt HTTP/1.1\r\nHost: localhost:3900\r\nx-amz-content-sha256: e3b0c44298fc1c149afbf4c8996fb9\
            2427ae41e4649b934ca495991b7852b855\r\nx-amz-date: 20231114T221320Z\r\nAuthorization: AWS4-HMAC-SHA256 Cr\
            edential=GKFULL/20231114/garage/s3/aws4_request, SignedHeaders=host;x-amz-content-sha256;x-amz-date, Sig\
            nature=8a74f8bf66a61f7d82c305aebda90864f6fc080b25eb2bd1c972d8e8a86502e0\r\n\r\n",
        b"\
            HTTP/1.1 403 Forbidden\r\nDate: Tue, 14 Nov 2023 22:13:20 GMT\r\nContent-Length: 160\r\nContent-Type: ap\
            plication/xml\r\nConnection: close\r\n\r\n<?xml version=\"1.0\" encoding=\"UTF-8\"?>\n<Error><Code>Signa\
            tureDoesNotMatch</Code><Message>SignatureDoesNotMatch</Message><Resource>/pics/a.txt</Resource></Error>",
    ),
    (
        b"\
            GET /pics/a.txt HTTP/1.1\r\nHost: localhost:3900\r\nx-amz-content-sha256: UNSIGNED-PAYLOAD\r\nx-amz-date\
            : 20231114T221320Z\r\nAuthorization: AWS4-HMAC-SHA256 Credential=GKFULL/20231114/garage/s3/aws4_request, \
            SignedHeaders=host;x-amz-content-sha256;x-amz-date, Signature=e06ac39a4e080f679bd3d49f39072d30d7d7c7fb0e\
            49e7360b80a0dc36ed0f78\r\n\r\n",
        b"\
            HTTP/1.1 404 Not Found\r\nDate: Tue, 14 Nov 2023 22:13:20 GMT\r\nContent-Length: 136\r\nContent-Type: ap\
            plication/xml\r\n\r\n<?xml version=\"1.0\" encoding=\"UTF-8\"?>\n<Error><Code>NoSuchKey</Code><Message>N\
            oSuchKey</Message><Resource>/pics/a.txt</Resource></Error>",
    ),
];

/// Each operation with a key that has the bucket in one list only: the one that reads, and the one that writes.
pub const METHODS: [Row; 14] = [
    (
        b"\
            GET /pics?list-type=2 HTTP/1.1\r\nHost: localhost:3900\r\nx-amz-content-sha256: e3b0c44298fc1c149afbf4c8\
            996fb92427ae41e4649b934ca495991b7852b855\r\nx-amz-date: 20231114T221320Z\r\nAuthorization: AWS4-HMAC-SHA\
            256 Credential=GKREAD/20231114/garage/s3/aws4_request, SignedHeaders=host;x-amz-content-sha256;x-amz-dat\
            e, Signature=78f83dac0db968b53ffb1170a1f5c7e20c266e3aa7a338431f9c723f4a6e4fa5\r\n\r\n",
        b"\
            HTTP/1.1 200 OK\r\nDate: Tue, 14 Nov 2023 22:13:20 GMT\r\nContent-Length: 235\r\nContent-Type: applicati\
            on/xml\r\n\r\n<?xml version=\"1.0\" encoding=\"UTF-8\"?>\n<ListBucketResult xmlns=\"http://s3.amazonaws.\
            com/doc/2006-03-01/\"><Name>pics</Name><Prefix></Prefix><MaxKeys>1000</MaxKeys><KeyCount>0</KeyCount><Is\
            Truncated>false</IsTruncated></ListBucketResult>",
    ),
    (
        b"\
            GET /pics?list-type=2 HTTP/1.1\r\nHost: localhost:3900\r\nx-amz-content-sha256: e3b0c44298fc1c149afbf4c8\
            996fb92427ae41e4649b934ca495991b7852b855\r\nx-amz-date: 20231114T221320Z\r\nAuthorization: AWS4-HMAC-SHA\
            256 Credential=GKWRITE/20231114/garage/s3/aws4_request, SignedHeaders=host;x-amz-content-sha256;x-amz-da\
            te, Signature=02b3e5f08061559988e69ed24f35732b4e2bde0a710db792f39d1005ac5a2461\r\n\r\n",
        b"\
            HTTP/1.1 403 Forbidden\r\nDate: Tue, 14 Nov 2023 22:13:20 GMT\r\nContent-Length: 136\r\nContent-Type: ap\
            plication/xml\r\nConnection: close\r\n\r\n<?xml version=\"1.0\" encoding=\"UTF-8\"?>\n<Error><Code>Acces\
            sDenied</Code><Message>AccessDenied</Message><Resource>/pics</Resource></Error>",
    ),
    (
        b"\
            GET /pics?list-type=2&max-keys=x HTTP/1.1\r\nHost: localhost:3900\r\nx-amz-content-sha256: e3b0c44298fc1\
            c149afbf4c8996fb92427ae41e4649b934ca495991b7852b855\r\nx-amz-date: 20231114T221320Z\r\nAuthorization: AW\
            S4-HMAC-SHA256 Credential=GKREAD/20231114/garage/s3/aws4_request, SignedHeaders=host;x-amz-content-sha25\
            6;x-amz-date, Signature=253961c20301cecd9af8ebc5042e9aa86dcac4ad979f31e4904384b04dc2c79a\r\n\r\n",
        b"\
            HTTP/1.1 400 Bad Request\r\nDate: Tue, 14 Nov 2023 22:13:20 GMT\r\nContent-Length: 142\r\nContent-Type: \
            application/xml\r\n\r\n<?xml version=\"1.0\" encoding=\"UTF-8\"?>\n<Error><Code>InvalidArgument</Code><M\
            essage>InvalidArgument</Message><Resource>/pics</Resource></Error>",
    ),
    (
        b"\
            GET /pics?list-type=2&max-keys=x HTTP/1.1\r\nHost: localhost:3900\r\nx-amz-content-sha256: e3b0c44298fc1\
            c149afbf4c8996fb92427ae41e4649b934ca495991b7852b855\r\nx-amz-date: 20231114T221320Z\r\nAuthorization: AW\
            S4-HMAC-SHA256 Credential=GKWRITE/20231114/garage/s3/aws4_request, SignedHeaders=host;x-amz-content-sha2\
            56;x-amz-date, Signature=988f838508dc83326b76001f69504c6bdfce0b1e430124c87e39f6cfc61b57b6\r\n\r\n",
        b"\
            HTTP/1.1 403 Forbidden\r\nDate: Tue, 14 Nov 2023 22:13:20 GMT\r\nContent-Length: 136\r\nContent-Type: ap\
            plication/xml\r\nConnection: close\r\n\r\n<?xml version=\"1.0\" encoding=\"UTF-8\"?>\n<Error><Code>Acces\
            sDenied</Code><Message>AccessDenied</Message><Resource>/pics</Resource></Error>",
    ),
    (
        b"\
            HEAD /pics HTTP/1.1\r\nHost: localhost:3900\r\nx-amz-content-sha256: e3b0c44298fc1c149afbf4c8996fb92427a\
            e41e4649b934ca495991b7852b855\r\nx-amz-date: 20231114T221320Z\r\nAuthorization: AWS4-HMAC-SHA256 Credent\
            ial=GKREAD/20231114/garage/s3/aws4_request, SignedHeaders=host;x-amz-content-sha256;x-amz-date, Signatur\
            e=4295968b51134c2a40e8c7249d5412e307c128aec99d0af84350bf2b5fe9da5c\r\n\r\n",
        b"HTTP/1.1 200 OK\r\nDate: Tue, 14 Nov 2023 22:13:20 GMT\r\nContent-Length: 0\r\n\r\n",
    ),
    (
        b"\
            HEAD /pics HTTP/1.1\r\nHost: localhost:3900\r\nx-amz-content-sha256: e3b0c44298fc1c149afbf4c8996fb92427a\
            e41e4649b934ca495991b7852b855\r\nx-amz-date: 20231114T221320Z\r\nAuthorization: AWS4-HMAC-SHA256 Credent\
            ial=GKWRITE/20231114/garage/s3/aws4_request, SignedHeaders=host;x-amz-content-sha256;x-amz-date, Signatu\
            re=7f18da9f0b8f4f69e34a3dd12784f8b86ce14a23e805ef1344aba46c76f2e97d\r\n\r\n",
        b"\
            HTTP/1.1 403 Forbidden\r\nDate: Tue, 14 Nov 2023 22:13:20 GMT\r\nContent-Length: 0\r\nConnection: close\
            \r\n\r\n",
    ),
    (
        b"\
            GET /pics/a.txt HTTP/1.1\r\nHost: localhost:3900\r\nx-amz-content-sha256: e3b0c44298fc1c149afbf4c8996fb9\
            2427ae41e4649b934ca495991b7852b855\r\nx-amz-date: 20231114T221320Z\r\nAuthorization: AWS4-HMAC-SHA256 Cr\
            edential=GKREAD/20231114/garage/s3/aws4_request, SignedHeaders=host;x-amz-content-sha256;x-amz-date, Sig\
            nature=4a907bb114df2368e15803f49b0b211b2a793205449050d5266ff473cb4bd7c6\r\n\r\n",
        b"\
            HTTP/1.1 404 Not Found\r\nDate: Tue, 14 Nov 2023 22:13:20 GMT\r\nContent-Length: 136\r\nContent-Type: ap\
            plication/xml\r\n\r\n<?xml version=\"1.0\" encoding=\"UTF-8\"?>\n<Error><Code>NoSuchKey</Code><Message>N\
            oSuchKey</Message><Resource>/pics/a.txt</Resource></Error>",
    ),
    (
        b"\
            GET /pics/a.txt HTTP/1.1\r\nHost: localhost:3900\r\nx-amz-content-sha256: e3b0c44298fc1c149afbf4c8996fb9\
            2427ae41e4649b934ca495991b7852b855\r\nx-amz-date: 20231114T221320Z\r\nAuthorization: AWS4-HMAC-SHA256 Cr\
            edential=GKWRITE/20231114/garage/s3/aws4_request, SignedHeaders=host;x-amz-content-sha256;x-amz-date, Si\
            gnature=6c1ddec3bca7aa24b1e159e6a5e919f2b43e539495640feb1c520e9314ccc700\r\n\r\n",
        b"\
            HTTP/1.1 403 Forbidden\r\nDate: Tue, 14 Nov 2023 22:13:20 GMT\r\nContent-Length: 142\r\nContent-Type: ap\
            plication/xml\r\nConnection: close\r\n\r\n<?xml version=\"1.0\" encoding=\"UTF-8\"?>\n<Error><Code>Acces\
            sDenied</Code><Message>AccessDenied</Message><Resource>/pics/a.txt</Resource></Error>",
    ),
    (
        b"\
            HEAD /pics/a.txt HTTP/1.1\r\nHost: localhost:3900\r\nx-amz-content-sha256: e3b0c44298fc1c149afbf4c8996fb\
            92427ae41e4649b934ca495991b7852b855\r\nx-amz-date: 20231114T221320Z\r\nAuthorization: AWS4-HMAC-SHA256 C\
            redential=GKREAD/20231114/garage/s3/aws4_request, SignedHeaders=host;x-amz-content-sha256;x-amz-date, Si\
            gnature=4d333e3d868af01a5cfb67798337ac7b9d50bcbc57afee929e93c49953205daa\r\n\r\n",
        b"\
            HTTP/1.1 404 Not Found\r\nDate: Tue, 14 Nov 2023 22:13:20 GMT\r\nContent-Length: 0\r\n\r\n",
    ),
    (
        b"\
            HEAD /pics/a.txt HTTP/1.1\r\nHost: localhost:3900\r\nx-amz-content-sha256: e3b0c44298fc1c149afbf4c8996fb\
            92427ae41e4649b934ca495991b7852b855\r\nx-amz-date: 20231114T221320Z\r\nAuthorization: AWS4-HMAC-SHA256 C\
            redential=GKWRITE/20231114/garage/s3/aws4_request, SignedHeaders=host;x-amz-content-sha256;x-amz-date, S\
            ignature=1c134f914b564aeab0cd2b18b6071895aa698b0165f7d0d49bab7460935c2451\r\n\r\n",
        b"\
            HTTP/1.1 403 Forbidden\r\nDate: Tue, 14 Nov 2023 22:13:20 GMT\r\nContent-Length: 0\r\nConnection: close\
            \r\n\r\n",
    ),
    (
        b"\
            DELETE /pics/a.txt HTTP/1.1\r\nHost: localhost:3900\r\nx-amz-content-sha256: e3b0c44298fc1c149afbf4c8996\
            fb92427ae41e4649b934ca495991b7852b855\r\nx-amz-date: 20231114T221320Z\r\nAuthorization: AWS4-HMAC-SHA256 \
            Credential=GKWRITE/20231114/garage/s3/aws4_request, SignedHeaders=host;x-amz-content-sha256;x-amz-date, \
            Signature=975c1406cbe231bc8b4a3abea31146c1149833f614268d469458de3f5abcd29f\r\n\r\n",
        b"HTTP/1.1 204 No Content\r\nDate: Tue, 14 Nov 2023 22:13:20 GMT\r\n\r\n",
    ),
    (
        b"\
            DELETE /pics/a.txt HTTP/1.1\r\nHost: localhost:3900\r\nx-amz-content-sha256: e3b0c44298fc1c149afbf4c8996\
            fb92427ae41e4649b934ca495991b7852b855\r\nx-amz-date: 20231114T221320Z\r\nAuthorization: AWS4-HMAC-SHA256 \
            Credential=GKREAD/20231114/garage/s3/aws4_request, SignedHeaders=host;x-amz-content-sha256;x-amz-date, S\
            ignature=527b8bece25d5b650c799e4eda5f7dabd6c2d43e0e7cf154766551ed9b956ab5\r\n\r\n",
        b"\
            HTTP/1.1 403 Forbidden\r\nDate: Tue, 14 Nov 2023 22:13:20 GMT\r\nContent-Length: 142\r\nContent-Type: ap\
            plication/xml\r\nConnection: close\r\n\r\n<?xml version=\"1.0\" encoding=\"UTF-8\"?>\n<Error><Code>Acces\
            sDenied</Code><Message>AccessDenied</Message><Resource>/pics/a.txt</Resource></Error>",
    ),
    (
        b"\
            PUT /pics/a.txt HTTP/1.1\r\nHost: localhost:3900\r\nx-amz-content-sha256: ba7816bf8f01cfea414140de5dae22\
            23b00361a396177a9cb410ff61f20015ad\r\nx-amz-date: 20231114T221320Z\r\nContent-Length: 3\r\nAuthorization\
            : AWS4-HMAC-SHA256 Credential=GKWRITE/20231114/garage/s3/aws4_request, SignedHeaders=host;x-amz-content-\
            sha256;x-amz-date, Signature=1bce09b1e2435df657abd910a38620697b453a18f46e5d8c56d5ec6feea2a22d\r\n\r\nabc",
        b"\
            HTTP/1.1 200 OK\r\nDate: Tue, 14 Nov 2023 22:13:20 GMT\r\nContent-Length: 0\r\nETag: \"900150983cd24fb0d\
            6963f7d28e17f72\"\r\n\r\n",
    ),
    (
        b"\
            PUT /pics/a.txt HTTP/1.1\r\nHost: localhost:3900\r\nx-amz-content-sha256: ba7816bf8f01cfea414140de5dae22\
            23b00361a396177a9cb410ff61f20015ad\r\nx-amz-date: 20231114T221320Z\r\nContent-Length: 3\r\nAuthorization\
            : AWS4-HMAC-SHA256 Credential=GKREAD/20231114/garage/s3/aws4_request, SignedHeaders=host;x-amz-content-s\
            ha256;x-amz-date, Signature=60bd324955203b9698c9195e0237b13beb70c9cea0b32766b64697c2b558b712\r\n\r\nabc",
        b"\
            HTTP/1.1 403 Forbidden\r\nDate: Tue, 14 Nov 2023 22:13:20 GMT\r\nContent-Length: 142\r\nContent-Type: ap\
            plication/xml\r\nConnection: close\r\n\r\n<?xml version=\"1.0\" encoding=\"UTF-8\"?>\n<Error><Code>Acces\
            sDenied</Code><Message>AccessDenied</Message><Resource>/pics/a.txt</Resource></Error>",
    ),
];
