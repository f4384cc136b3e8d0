//! Requests with two causes at once, signed by Python's hmac and hashlib: the first in the table of docs/S3.md is
//! answered.
use crate::signed_refusals::{
    ACCESS_DENIED, AUTHORIZATION_HEADER_MALFORMED, INVALID_ACCESS_KEY_ID, INVALID_REQUEST,
    LONG_PATH, NOT_IMPLEMENTED, Pair,
};

/// The target is none, and something else is wrong.
pub const TARGET_PAIRS: [Pair; 6] = [
    (
        b"\
            PUT /pics/%ff HTTP/1.1\r\nHost: localhost:3900\r\nx-amz-content-sha256: ba7816bf8f01cfea414140de5dae2223\
            b00361a396177a9cb410ff61f20015ad\r\nx-amz-date: 20231114T221320Z\r\nContent-Length: 3\r\n\r\nabc",
        INVALID_REQUEST,
        b"",
    ),
    (
        b"\
            PUT /pics/%ff HTTP/1.1\r\nHost: localhost:3900\r\nx-amz-content-sha256: ba7816bf8f01cfea414140de5dae2223\
            b00361a396177a9cb410ff61f20015ad\r\nx-amz-date: 20231114T221320Z\r\nContent-Length: 3\r\nAuthorization: \
            AWS4-HMAC-SHA256 Credential=GKFULL/20231114/garage/s3/aws4_request, SignedHeaders=host;x-amz-content-sha\
            256;x-amz-date, Signature=8902d0d54b5bd5af1a716c5d4a47ea59884916de92675877266a8980d403a59e\r\nAuthorizat\
            ion: AWS4-HMAC-SHA256 Credential=GKFULL/20231114/garage/s3/aws4_request, SignedHeaders=host;x-amz-conten\
            t-sha256;x-amz-date, Signature=8902d0d54b5bd5af1a716c5d4a47ea59884916de92675877266a8980d403a59e\r\n\r\na\
            bc",
        INVALID_REQUEST,
        b"",
    ),
    (
        b"\
            PUT /pics/%ff HTTP/1.1\r\nHost: localhost:3900\r\nx-amz-content-sha256: ba7816bf8f01cfea414140de5dae2223\
            b00361a396177a9cb410ff61f20015ad\r\nx-amz-date: 20231114T221320Z\r\nContent-Length: 3\r\nAuthorization: \
            AWS4-HMAC-SHA256 Credential=GKOTHER/20231114/garage/s3/aws4_request, SignedHeaders=host;x-amz-content-sh\
            a256;x-amz-date, Signature=64adc08538912638665795fc395fca56f28a65e13bf2e0c3bac92498f069ebf1\r\n\r\nabc",
        INVALID_REQUEST,
        b"",
    ),
    (
        b"\
            PUT /pics/%ff HTTP/1.1\r\nHost: localhost:3900\r\nx-amz-content-sha256: ba7816bf8f01cfea414140de5dae2223\
            b00361a396177a9cb410ff61f20015ad\r\nx-amz-date: 20231114T215819Z\r\nContent-Length: 3\r\nAuthorization: \
            AWS4-HMAC-SHA256 Credential=GKFULL/20231114/garage/s3/aws4_request, SignedHeaders=host;x-amz-content-sha\
            256;x-amz-date, Signature=7f689dbecbf33e9979872f04ab8e25eabf04cd48dc1a335648b9cffd0f0857df\r\n\r\nabc",
        INVALID_REQUEST,
        b"",
    ),
    (
        b"\
            PUT /pics/%ff HTTP/1.1\r\nHost: localhost:3900\r\nx-amz-content-sha256: ba7816bf8f01cfea414140de5dae2223\
            b00361a396177a9cb410ff61f20015ad\r\nx-amz-date: 20231114T221320Z\r\nContent-Length: 3\r\nAuthorization: \
            AWS4-HMAC-SHA256 Credential=GKFULL/20231114/garage/s3/aws4_request, SignedHeaders=host;x-amz-content-sha\
            256;x-amz-date, Signature=0902d0d54b5bd5af1a716c5d4a47ea59884916de92675877266a8980d403a59e\r\n\r\nabc",
        INVALID_REQUEST,
        b"",
    ),
    (
        b"\
            PUT /pics/%ff HTTP/1.1\r\nHost: localhost:3900\r\nx-amz-content-sha256: ba7816bf8f01cfea414140de5dae2223\
            b00361a396177a9cb410ff61f20015ad\r\nx-amz-date: 20231114T221320Z\r\nContent-Length: 3\r\nAuthorization: \
            AWS4-HMAC-SHA256 Credential=GKREAD/20231114/garage/s3/aws4_request, SignedHeaders=host;x-amz-content-sha\
            256;x-amz-date, Signature=cf53f9ae74d6520506b01d9a3e4a3d6c28bd21096bde65fdcac18a9aac666933\r\n\r\nabc",
        INVALID_REQUEST,
        b"",
    ),
];

/// What is asked or a header isn't served, and something else is wrong.
pub const UNSERVED_PAIRS: [Pair; 12] = [
    (
        b"\
            POST /pics/a.txt HTTP/1.1\r\nHost: localhost:3900\r\nx-amz-content-sha256: ba7816bf8f01cfea414140de5dae2\
            223b00361a396177a9cb410ff61f20015ad\r\nx-amz-date: 20231114T221320Z\r\nContent-Length: 3\r\n\r\nabc",
        NOT_IMPLEMENTED,
        b"/pics/a.txt",
    ),
    (
        b"\
            PUT /pics/a.txt HTTP/1.1\r\nHost: localhost:3900\r\nx-amz-content-sha256: ba7816bf8f01cfea414140de5dae22\
            23b00361a396177a9cb410ff61f20015ad\r\nx-amz-date: 20231114T221320Z\r\nIf-Match: x\r\nContent-Length: 3\r\
            \n\r\nabc",
        NOT_IMPLEMENTED,
        b"/pics/a.txt",
    ),
    (
        b"\
            POST /pics/a.txt HTTP/1.1\r\nHost: localhost:3900\r\nx-amz-content-sha256: ba7816bf8f01cfea414140de5dae2\
            223b00361a396177a9cb410ff61f20015ad\r\nx-amz-date: 20231114T221320Z\r\nContent-Length: 3\r\nAuthorizatio\
            n: AWS4-HMAC-SHA256 Credential=GKFULL/20231114/garage/s3/aws4_request, SignedHeaders=host;x-amz-content-\
            sha256;x-amz-date, Signature=89f159d4ab5f087f5a5e6b5f4de4cf2c76cfd171e1c3f2ef32e10a92ef5d0ed3\r\nAuthori\
            zation: AWS4-HMAC-SHA256 Credential=GKFULL/20231114/garage/s3/aws4_request, SignedHeaders=host;x-amz-con\
            tent-sha256;x-amz-date, Signature=89f159d4ab5f087f5a5e6b5f4de4cf2c76cfd171e1c3f2ef32e10a92ef5d0ed3\r\n\r\
            \nabc",
        NOT_IMPLEMENTED,
        b"/pics/a.txt",
    ),
    (
        b"\
            PUT /pics/a.txt HTTP/1.1\r\nHost: localhost:3900\r\nx-amz-content-sha256: ba7816bf8f01cfea414140de5dae22\
            23b00361a396177a9cb410ff61f20015ad\r\nx-amz-date: 20231114T221320Z\r\nIf-Match: x\r\nContent-Length: 3\r\
            \nAuthorization: AWS4-HMAC-SHA256 Credential=GKFULL/20231114/garage/s3/aws4_request, SignedHeaders=host;\
            x-amz-content-sha256;x-amz-date, Signature=8697c0acb3fe24690feaaa2fa7589136775560492f8d8d27b299a69f25011\
            f8e\r\nAuthorization: AWS4-HMAC-SHA256 Credential=GKFULL/20231114/garage/s3/aws4_request, SignedHeaders=\
            host;x-amz-content-sha256;x-amz-date, Signature=8697c0acb3fe24690feaaa2fa7589136775560492f8d8d27b299a69f\
            25011f8e\r\n\r\nabc",
        NOT_IMPLEMENTED,
        b"/pics/a.txt",
    ),
    (
        b"\
            POST /pics/a.txt HTTP/1.1\r\nHost: localhost:3900\r\nx-amz-content-sha256: ba7816bf8f01cfea414140de5dae2\
            223b00361a396177a9cb410ff61f20015ad\r\nx-amz-date: 20231114T221320Z\r\nContent-Length: 3\r\nAuthorizatio\
            n: AWS4-HMAC-SHA256 Credential=GKOTHER/20231114/garage/s3/aws4_request, SignedHeaders=host;x-amz-content\
            -sha256;x-amz-date, Signature=8e71b33fb81deca765a5343eb02fd3cd212f1490131ebc086b8943d7b40deb77\r\n\r\nab\
            c",
        NOT_IMPLEMENTED,
        b"/pics/a.txt",
    ),
    (
        b"\
            PUT /pics/a.txt HTTP/1.1\r\nHost: localhost:3900\r\nx-amz-content-sha256: ba7816bf8f01cfea414140de5dae22\
            23b00361a396177a9cb410ff61f20015ad\r\nx-amz-date: 20231114T221320Z\r\nIf-Match: x\r\nContent-Length: 3\r\
            \nAuthorization: AWS4-HMAC-SHA256 Credential=GKOTHER/20231114/garage/s3/aws4_request, SignedHeaders=host\
            ;x-amz-content-sha256;x-amz-date, Signature=889415fccbf614c4bfbb510fa11595a3f42b4f24a7decbd9f66bd80fbdd5\
            facc\r\n\r\nabc",
        NOT_IMPLEMENTED,
        b"/pics/a.txt",
    ),
    (
        b"\
            POST /pics/a.txt HTTP/1.1\r\nHost: localhost:3900\r\nx-amz-content-sha256: ba7816bf8f01cfea414140de5dae2\
            223b00361a396177a9cb410ff61f20015ad\r\nx-amz-date: 20231114T215819Z\r\nContent-Length: 3\r\nAuthorizatio\
            n: AWS4-HMAC-SHA256 Credential=GKFULL/20231114/garage/s3/aws4_request, SignedHeaders=host;x-amz-content-\
            sha256;x-amz-date, Signature=6aef6db2715e4a3a935ec4962ee71cb901c9fa6afdb264baf6bd83cda4c52472\r\n\r\nabc",
        NOT_IMPLEMENTED,
        b"/pics/a.txt",
    ),
    (
        b"\
            PUT /pics/a.txt HTTP/1.1\r\nHost: localhost:3900\r\nx-amz-content-sha256: ba7816bf8f01cfea414140de5dae22\
            23b00361a396177a9cb410ff61f20015ad\r\nx-amz-date: 20231114T215819Z\r\nIf-Match: x\r\nContent-Length: 3\r\
            \nAuthorization: AWS4-HMAC-SHA256 Credential=GKFULL/20231114/garage/s3/aws4_request, SignedHeaders=host;\
            x-amz-content-sha256;x-amz-date, Signature=c1d77083cdde570aac2cc28dd7ebbad33fdf58c50d0f2a24ac17d0c48f9b8\
            511\r\n\r\nabc",
        NOT_IMPLEMENTED,
        b"/pics/a.txt",
    ),
    (
        b"\
            POST /pics/a.txt HTTP/1.1\r\nHost: localhost:3900\r\nx-amz-content-sha256: ba7816bf8f01cfea414140de5dae2\
            223b00361a396177a9cb410ff61f20015ad\r\nx-amz-date: 20231114T221320Z\r\nContent-Length: 3\r\nAuthorizatio\
            n: AWS4-HMAC-SHA256 Credential=GKFULL/20231114/garage/s3/aws4_request, SignedHeaders=host;x-amz-content-\
            sha256;x-amz-date, Signature=09f159d4ab5f087f5a5e6b5f4de4cf2c76cfd171e1c3f2ef32e10a92ef5d0ed3\r\n\r\nabc",
        NOT_IMPLEMENTED,
        b"/pics/a.txt",
    ),
    (
        b"\
            PUT /pics/a.txt HTTP/1.1\r\nHost: localhost:3900\r\nx-amz-content-sha256: ba7816bf8f01cfea414140de5dae22\
            23b00361a396177a9cb410ff61f20015ad\r\nx-amz-date: 20231114T221320Z\r\nIf-Match: x\r\nContent-Length: 3\r\
            \nAuthorization: AWS4-HMAC-SHA256 Credential=GKFULL/20231114/garage/s3/aws4_request, SignedHeaders=host;\
            x-amz-content-sha256;x-amz-date, Signature=0697c0acb3fe24690feaaa2fa7589136775560492f8d8d27b299a69f25011\
            f8e\r\n\r\nabc",
        NOT_IMPLEMENTED,
        b"/pics/a.txt",
    ),
    (
        b"\
            POST /pics/a.txt HTTP/1.1\r\nHost: localhost:3900\r\nx-amz-content-sha256: ba7816bf8f01cfea414140de5dae2\
            223b00361a396177a9cb410ff61f20015ad\r\nx-amz-date: 20231114T221320Z\r\nContent-Length: 3\r\nAuthorizatio\
            n: AWS4-HMAC-SHA256 Credential=GKREAD/20231114/garage/s3/aws4_request, SignedHeaders=host;x-amz-content-\
            sha256;x-amz-date, Signature=f41a005f6cc5ad75d3d8924e031f428feee7282f0a1ace4be60e09f82fcdf1f8\r\n\r\nabc",
        NOT_IMPLEMENTED,
        b"/pics/a.txt",
    ),
    (
        b"\
            PUT /pics/a.txt HTTP/1.1\r\nHost: localhost:3900\r\nx-amz-content-sha256: ba7816bf8f01cfea414140de5dae22\
            23b00361a396177a9cb410ff61f20015ad\r\nx-amz-date: 20231114T221320Z\r\nIf-Match: x\r\nContent-Length: 3\r\
            \nAuthorization: AWS4-HMAC-SHA256 Credential=GKREAD/20231114/garage/s3/aws4_request, SignedHeaders=host;\
            x-amz-content-sha256;x-amz-date, Signature=60bd324955203b9698c9195e0237b13beb70c9cea0b32766b64697c2b558b\
            712\r\n\r\nabc",
        NOT_IMPLEMENTED,
        b"/pics/a.txt",
    ),
];

/// Nobody signed, and something else is wrong.
pub const UNSIGNED_PAIRS: [Pair; 12] = [
    (
        b"\
            PUT /pics/a.txt HTTP/1.1\r\nHost: localhost:3900\r\nx-amz-content-sha256: ba7816bf8f01cfea414140de5dae22\
            23b00361a396177a9cb410ff61f20015ad\r\nContent-Length: 3\r\n\r\nabc",
        ACCESS_DENIED,
        b"/pics/a.txt",
    ),
    (
        b"\
            PUT /pics/a.txt HTTP/1.1\r\nHost: localhost:3900\r\nx-amz-content-sha256: ba7816bf8f01cfea414140de5dae22\
            23b00361a396177a9cb410ff61f20015ad\r\nx-amz-date: 20231114T221320Z\r\nContent-Length: 3\r\n\r\nabc",
        ACCESS_DENIED,
        b"/pics/a.txt",
    ),
    (
        b"\
            PUT /pics/a.txt HTTP/1.1\r\nHost: localhost:3900\r\nx-amz-content-sha256: ba7816bf8f01cfea414140de5dae22\
            23b00361a396177a9cb410ff61f20015ad\r\nx-amz-date: 20231114T215819Z\r\nContent-Length: 3\r\n\r\nabc",
        ACCESS_DENIED,
        b"/pics/a.txt",
    ),
    (
        b"\
            PUT /pics/a.txt HTTP/1.1\r\nHost: localhost:3900\r\nx-amz-content-sha256: ba7816bf8f01cfea414140de5dae22\
            23b00361a396177a9cb410ff61f20015ad\r\nx-amz-date: 20231114T221320Z\r\nContent-Length: 3\r\n\r\nabc",
        ACCESS_DENIED,
        b"/pics/a.txt",
    ),
    (
        b"\
            PUT /pics/a.txt HTTP/1.1\r\nHost: localhost:3900\r\nx-amz-content-sha256: ba7816bf8f01cfea414140de5dae22\
            23b00361a396177a9cb410ff61f20015ad\r\nx-amz-date: 20231114T221320Z\r\nContent-Length: 3\r\n\r\nabc",
        ACCESS_DENIED,
        b"/pics/a.txt",
    ),
    (
        b"\
            PUT /pics/a.txt HTTP/1.1\r\nHost: localhost:3900\r\nx-amz-content-sha256: e3b0c44298fc1c149afbf4c8996fb9\
            2427ae41e4649b934ca495991b7852b855\r\nx-amz-date: 20231114T221320Z\r\n\r\n",
        ACCESS_DENIED,
        b"/pics/a.txt",
    ),
    (
        b"\
            PUT /pics/a.txt HTTP/1.1\r\nHost: localhost:3900\r\nx-amz-content-sha256: e3b0c44298fc1c149afbf4c8996fb9\
            2427ae41e4649b934ca495991b7852b855\r\nx-amz-date: 20231114T221320Z\r\nContent-Length: x\r\n\r\n",
        ACCESS_DENIED,
        b"/pics/a.txt",
    ),
    (
        b"\
            PUT /pics/a.txt HTTP/1.1\r\nHost: localhost:3900\r\nx-amz-content-sha256: e3b0c44298fc1c149afbf4c8996fb9\
            2427ae41e4649b934ca495991b7852b855\r\nx-amz-date: 20231114T221320Z\r\nContent-Length: 16777217\r\n\r\n",
        ACCESS_DENIED,
        b"/pics/a.txt",
    ),
    (
        b"\
            PUT /pics/a.txt HTTP/1.1\r\nHost: localhost:3900\r\nx-amz-content-sha256: e3b0c44298fc1c149afbf4c8996fb9\
            2427ae41e4649b934ca495991b7852b855\r\nx-amz-date: 20231114T221320Z\r\nContent-Length: 4\r\n\r\n",
        ACCESS_DENIED,
        b"/pics/a.txt",
    ),
    (
        b"\
            PUT /pics/a.txt HTTP/1.1\r\nHost: localhost:3900\r\nx-amz-content-sha256: 000000000000000000000000000000\
            0000000000000000000000000000000000\r\nx-amz-date: 20231114T221320Z\r\nContent-Length: 3\r\n\r\nabd",
        ACCESS_DENIED,
        b"/pics/a.txt",
    ),
    (
        b"\
            PUT /pics/kkkkkkkkkkkkkkkkkkkkkkkkkkkkkkkkkkkkkkkkkkkkkkkkkkkkkkkkkkkkkkkkkkkkkkkkkkkkkkkkkkkkkkkkkkkkkk\
            kkkkkkkkkkkkkkkkkkkkkkkkkkkkkkkkkkkkkkkkkkkkkkkkkkkkkkkkkkkkkkkkkkkkkkkkkkkkkkkkkkkkkkkkkkkkkkkkkkkkkkkk\
            kkkkkkkkkkkkkkkkkkkkkkkkkkkkkkkkkkkkkkkkkkkkkkkkkkkkkkkkkkkkkkkkkkkkkkkkkkkkkkkkkkkkkkkkkkkkkkkkkkkkkkkk\
            kkkkkkkkkkkkkkkkkkkkkkkkkkkkkkkkkkkkkkkkkkkkkkkkkkkkkkkkkkkkkkkkkkkkkkkkkkkkkkkkkkkkkkkkkkkkkkkkkkkkkkkk\
            kkkkkkkkkkkkkkkkkkkkkkkkkkkkkkkkkkkkkkkkkkkkkkkkkkkkkkkkkkkkkkkkkkkkkkkkkkkkkkkkkkkkkkkkkkkkkkkkkkkkkkkk\
            kkkkkkkkkkkkkkkkkkkkkkkkkkkkkkkkkkkkkkkkkkkkkkkkkkkkkkkkkkkkkkkkkkkkkkkkkkkkkkkkkkkkkkkkkkkkkkkkkkkkkkkk\
            kkkkkkkkkkkkkkkkkkkkkkkkkkkkkkkkkkkkkkkkkkkkkkkkkkkkkkkkkkkkkkkkkkkkkkkkkkkkkkkkkkkkkkkkkkkkkkkkkkkkkkkk\
            kkkkkkkkkkkkkkkkkkkkkkkkkkkkkkkkkkkkkkkkkkkkkkkkkkkkkkkkkkkkkkkkkkkkkkkkkkkkkkkkkkkkkkkkkkkkkkkkkkkkkkkk\
            kkkkkkkkkkkkkkkkkkkkkkkkkkkkkkkkkkkkkkkkkkkkkkkkkkkkkkkkkkkkkkkkkkkkkkkkkkkkkkkkkkkkkkkkkkkkkkkkkkkkkkkk\
            kkkkkkkkkkkkkkkkkkkkkkkkkkkkkkkkkkkkkkkkkkkkkkkkkkkkkkkkkkkkkkkkkkkkkkkkkkkkkkkkkkkkkkkkkkkkkkkkkkk HTTP\
            /1.1\r\nHost: localhost:3900\r\nx-amz-content-sha256: ba7816bf8f01cfea414140de5dae2223b00361a396177a9cb4\
            10ff61f20015ad\r\nx-amz-date: 20231114T221320Z\r\nContent-Length: 3\r\n\r\nabc",
        ACCESS_DENIED,
        LONG_PATH,
    ),
    (
        b"\
            PUT /pics/a.txt HTTP/1.1\r\nHost: localhost:3900\r\nx-amz-content-sha256: ba7816bf8f01cfea414140de5dae22\
            23b00361a396177a9cb410ff61f20015ad\r\nx-amz-date: 20231114T221320Z\r\nContent-MD5: ndTkYSaMgDT1yFZOFVxnp\
            g==\r\nContent-Length: 3\r\n\r\nabc",
        ACCESS_DENIED,
        b"/pics/a.txt",
    ),
];

/// The Authorization header is malformed, and something else is wrong.
pub const MALFORMED_PAIRS: [Pair; 11] = [
    (
        b"\
            PUT /pics/a.txt HTTP/1.1\r\nHost: localhost:3900\r\nx-amz-content-sha256: ba7816bf8f01cfea414140de5dae22\
            23b00361a396177a9cb410ff61f20015ad\r\nContent-Length: 3\r\nAuthorization: AWS4-HMAC-SHA256 Credential=GK\
            OTHER/20231114/garage/s3/aws4_request, SignedHeaders=host;x-amz-content-sha256, Signature=af88317579ac90\
            9a864ea43f3f4b21d9b40d38db6c3d6b2f56ffd8ab4e6cbdbc\r\n\r\nabc",
        AUTHORIZATION_HEADER_MALFORMED,
        b"/pics/a.txt",
    ),
    (
        b"\
            PUT /pics/a.txt HTTP/1.1\r\nHost: localhost:3900\r\nx-amz-content-sha256: ba7816bf8f01cfea414140de5dae22\
            23b00361a396177a9cb410ff61f20015ad\r\nContent-Length: 3\r\nAuthorization: AWS4-HMAC-SHA256 Credential=GK\
            FULL/20231114/garage/s3/aws4_request, SignedHeaders=host;x-amz-content-sha256, Signature=3554774364d9450\
            c4ce70741ec5e5e04227613f5f2a096910bfefd5925a1dd90\r\n\r\nabc",
        AUTHORIZATION_HEADER_MALFORMED,
        b"/pics/a.txt",
    ),
    (
        b"\
            PUT /pics/a.txt HTTP/1.1\r\nHost: localhost:3900\r\nx-amz-content-sha256: ba7816bf8f01cfea414140de5dae22\
            23b00361a396177a9cb410ff61f20015ad\r\nContent-Length: 3\r\nAuthorization: AWS4-HMAC-SHA256 Credential=GK\
            FULL/20231114/garage/s3/aws4_request, SignedHeaders=host;x-amz-content-sha256, Signature=0c6d52ee71a6a05\
            c91e1c210c92d0609d877c1564b0047e18c84ec2491203f10\r\n\r\nabc",
        AUTHORIZATION_HEADER_MALFORMED,
        b"/pics/a.txt",
    ),
    (
        b"\
            PUT /pics/a.txt HTTP/1.1\r\nHost: localhost:3900\r\nx-amz-content-sha256: ba7816bf8f01cfea414140de5dae22\
            23b00361a396177a9cb410ff61f20015ad\r\nContent-Length: 3\r\nAuthorization: AWS4-HMAC-SHA256 Credential=GK\
            READ/20231114/garage/s3/aws4_request, SignedHeaders=host;x-amz-content-sha256, Signature=a21a84f3f32e8eb\
            fb4d23475bb09b7abf00c8c0f12115023885c3f0b52a81683\r\n\r\nabc",
        AUTHORIZATION_HEADER_MALFORMED,
        b"/pics/a.txt",
    ),
    (
        b"\
            PUT /pics/a.txt HTTP/1.1\r\nHost: localhost:3900\r\nx-amz-content-sha256: e3b0c44298fc1c149afbf4c8996fb9\
            2427ae41e4649b934ca495991b7852b855\r\nAuthorization: AWS4-HMAC-SHA256 Credential=GKFULL/20231114/garage/\
            s3/aws4_request, SignedHeaders=host;x-amz-content-sha256, Signature=2fd736838a7948246029e445ff2bc237c726\
            839f74ae3f78d4029bd161cee4cd\r\n\r\n",
        AUTHORIZATION_HEADER_MALFORMED,
        b"/pics/a.txt",
    ),
    (
        b"\
            PUT /pics/a.txt HTTP/1.1\r\nHost: localhost:3900\r\nx-amz-content-sha256: e3b0c44298fc1c149afbf4c8996fb9\
            2427ae41e4649b934ca495991b7852b855\r\nContent-Length: x\r\nAuthorization: AWS4-HMAC-SHA256 Credential=GK\
            FULL/20231114/garage/s3/aws4_request, SignedHeaders=host;x-amz-content-sha256, Signature=2fd736838a79482\
            46029e445ff2bc237c726839f74ae3f78d4029bd161cee4cd\r\n\r\n",
        AUTHORIZATION_HEADER_MALFORMED,
        b"/pics/a.txt",
    ),
    (
        b"\
            PUT /pics/a.txt HTTP/1.1\r\nHost: localhost:3900\r\nx-amz-content-sha256: e3b0c44298fc1c149afbf4c8996fb9\
            2427ae41e4649b934ca495991b7852b855\r\nContent-Length: 16777217\r\nAuthorization: AWS4-HMAC-SHA256 Creden\
            tial=GKFULL/20231114/garage/s3/aws4_request, SignedHeaders=host;x-amz-content-sha256, Signature=2fd73683\
            8a7948246029e445ff2bc237c726839f74ae3f78d4029bd161cee4cd\r\n\r\n",
        AUTHORIZATION_HEADER_MALFORMED,
        b"/pics/a.txt",
    ),
    (
        b"\
            PUT /pics/a.txt HTTP/1.1\r\nHost: localhost:3900\r\nx-amz-content-sha256: e3b0c44298fc1c149afbf4c8996fb9\
            2427ae41e4649b934ca495991b7852b855\r\nContent-Length: 4\r\nAuthorization: AWS4-HMAC-SHA256 Credential=GK\
            FULL/20231114/garage/s3/aws4_request, SignedHeaders=host;x-amz-content-sha256, Signature=2fd736838a79482\
            46029e445ff2bc237c726839f74ae3f78d4029bd161cee4cd\r\n\r\n",
        AUTHORIZATION_HEADER_MALFORMED,
        b"/pics/a.txt",
    ),
    (
        b"\
            PUT /pics/a.txt HTTP/1.1\r\nHost: localhost:3900\r\nx-amz-content-sha256: 000000000000000000000000000000\
            0000000000000000000000000000000000\r\nContent-Length: 3\r\nAuthorization: AWS4-HMAC-SHA256 Credential=GK\
            FULL/20231114/garage/s3/aws4_request, SignedHeaders=host;x-amz-content-sha256, Signature=d0fc8e5dc3be008\
            2345ae49c3316014b1e958ac454b35eb0959f6c2b55934e65\r\n\r\nabd",
        AUTHORIZATION_HEADER_MALFORMED,
        b"/pics/a.txt",
    ),
    (
        b"\
            PUT /pics/kkkkkkkkkkkkkkkkkkkkkkkkkkkkkkkkkkkkkkkkkkkkkkkkkkkkkkkkkkkkkkkkkkkkkkkkkkkkkkkkkkkkkkkkkkkkkk\
            kkkkkkkkkkkkkkkkkkkkkkkkkkkkkkkkkkkkkkkkkkkkkkkkkkkkkkkkkkkkkkkkkkkkkkkkkkkkkkkkkkkkkkkkkkkkkkkkkkkkkkkk\
            kkkkkkkkkkkkkkkkkkkkkkkkkkkkkkkkkkkkkkkkkkkkkkkkkkkkkkkkkkkkkkkkkkkkkkkkkkkkkkkkkkkkkkkkkkkkkkkkkkkkkkkk\
            kkkkkkkkkkkkkkkkkkkkkkkkkkkkkkkkkkkkkkkkkkkkkkkkkkkkkkkkkkkkkkkkkkkkkkkkkkkkkkkkkkkkkkkkkkkkkkkkkkkkkkkk\
            kkkkkkkkkkkkkkkkkkkkkkkkkkkkkkkkkkkkkkkkkkkkkkkkkkkkkkkkkkkkkkkkkkkkkkkkkkkkkkkkkkkkkkkkkkkkkkkkkkkkkkkk\
            kkkkkkkkkkkkkkkkkkkkkkkkkkkkkkkkkkkkkkkkkkkkkkkkkkkkkkkkkkkkkkkkkkkkkkkkkkkkkkkkkkkkkkkkkkkkkkkkkkkkkkkk\
            kkkkkkkkkkkkkkkkkkkkkkkkkkkkkkkkkkkkkkkkkkkkkkkkkkkkkkkkkkkkkkkkkkkkkkkkkkkkkkkkkkkkkkkkkkkkkkkkkkkkkkkk\
            kkkkkkkkkkkkkkkkkkkkkkkkkkkkkkkkkkkkkkkkkkkkkkkkkkkkkkkkkkkkkkkkkkkkkkkkkkkkkkkkkkkkkkkkkkkkkkkkkkkkkkkk\
            kkkkkkkkkkkkkkkkkkkkkkkkkkkkkkkkkkkkkkkkkkkkkkkkkkkkkkkkkkkkkkkkkkkkkkkkkkkkkkkkkkkkkkkkkkkkkkkkkkkkkkkk\
            kkkkkkkkkkkkkkkkkkkkkkkkkkkkkkkkkkkkkkkkkkkkkkkkkkkkkkkkkkkkkkkkkkkkkkkkkkkkkkkkkkkkkkkkkkkkkkkkkkk HTTP\
            /1.1\r\nHost: localhost:3900\r\nx-amz-content-sha256: ba7816bf8f01cfea414140de5dae2223b00361a396177a9cb4\
            10ff61f20015ad\r\nContent-Length: 3\r\nAuthorization: AWS4-HMAC-SHA256 Credential=GKFULL/20231114/garage\
            /s3/aws4_request, SignedHeaders=host;x-amz-content-sha256, Signature=9e2788813241abe2e97a5e074a7df5da0d7\
            207be452654b181e8b1abe6fbec81\r\n\r\nabc",
        AUTHORIZATION_HEADER_MALFORMED,
        LONG_PATH,
    ),
    (
        b"\
            PUT /pics/a.txt HTTP/1.1\r\nHost: localhost:3900\r\nx-amz-content-sha256: ba7816bf8f01cfea414140de5dae22\
            23b00361a396177a9cb410ff61f20015ad\r\nContent-MD5: ndTkYSaMgDT1yFZOFVxnpg==\r\nContent-Length: 3\r\nAuth\
            orization: AWS4-HMAC-SHA256 Credential=GKFULL/20231114/garage/s3/aws4_request, SignedHeaders=host;x-amz-\
            content-sha256, Signature=4c6d52ee71a6a05c91e1c210c92d0609d877c1564b0047e18c84ec2491203f10\r\n\r\nabc",
        AUTHORIZATION_HEADER_MALFORMED,
        b"/pics/a.txt",
    ),
];

/// No key has the id, and something else is wrong.
pub const UNKNOWN_KEY_PAIRS: [Pair; 10] = [
    (
        b"\
            PUT /pics/a.txt HTTP/1.1\r\nHost: localhost:3900\r\nx-amz-content-sha256: ba7816bf8f01cfea414140de5dae22\
            23b00361a396177a9cb410ff61f20015ad\r\nx-amz-date: 20231114T215819Z\r\nContent-Length: 3\r\nAuthorization\
            : AWS4-HMAC-SHA256 Credential=GKOTHER/20231114/garage/s3/aws4_request, SignedHeaders=host;x-amz-content-\
            sha256;x-amz-date, Signature=0d1a7951a76a151f08f93d90f235a9626906b9edb4d7fb116e2802f3935220da\r\n\r\nabc",
        INVALID_ACCESS_KEY_ID,
        b"/pics/a.txt",
    ),
    (
        b"\
            PUT /pics/a.txt HTTP/1.1\r\nHost: localhost:3900\r\nx-amz-content-sha256: ba7816bf8f01cfea414140de5dae22\
            23b00361a396177a9cb410ff61f20015ad\r\nx-amz-date: 20231114T221320Z\r\nContent-Length: 3\r\nAuthorization\
            : AWS4-HMAC-SHA256 Credential=GKOTHER/20231114/garage/s3/aws4_request, SignedHeaders=host;x-amz-content-\
            sha256;x-amz-date, Signature=04126bea1e6b308a35b05ce7607f24df46ba16522514921b673b4f083ffb916f\r\n\r\nabc",
        INVALID_ACCESS_KEY_ID,
        b"/pics/a.txt",
    ),
    (
        b"\
            PUT /pics/a.txt HTTP/1.1\r\nHost: localhost:3900\r\nx-amz-content-sha256: ba7816bf8f01cfea414140de5dae22\
            23b00361a396177a9cb410ff61f20015ad\r\nx-amz-date: 20231114T221320Z\r\nContent-Length: 3\r\nAuthorization\
            : AWS4-HMAC-SHA256 Credential=GKOTHER/20231114/garage/s3/aws4_request, SignedHeaders=host;x-amz-content-\
            sha256;x-amz-date, Signature=d4126bea1e6b308a35b05ce7607f24df46ba16522514921b673b4f083ffb916f\r\n\r\nabc",
        INVALID_ACCESS_KEY_ID,
        b"/pics/a.txt",
    ),
    (
        b"\
            PUT /pics/a.txt HTTP/1.1\r\nHost: localhost:3900\r\nx-amz-content-sha256: e3b0c44298fc1c149afbf4c8996fb9\
            2427ae41e4649b934ca495991b7852b855\r\nx-amz-date: 20231114T221320Z\r\nAuthorization: AWS4-HMAC-SHA256 Cr\
            edential=GKOTHER/20231114/garage/s3/aws4_request, SignedHeaders=host;x-amz-content-sha256;x-amz-date, Si\
            gnature=1f357bb5c00f113869d56c2617ab9e738fe0fa9ffbc7a0f6f4627a94096f3d36\r\n\r\n",
        INVALID_ACCESS_KEY_ID,
        b"/pics/a.txt",
    ),
    (
        b"\
            PUT /pics/a.txt HTTP/1.1\r\nHost: localhost:3900\r\nx-amz-content-sha256: e3b0c44298fc1c149afbf4c8996fb9\
            2427ae41e4649b934ca495991b7852b855\r\nx-amz-date: 20231114T221320Z\r\nContent-Length: x\r\nAuthorization\
            : AWS4-HMAC-SHA256 Credential=GKOTHER/20231114/garage/s3/aws4_request, SignedHeaders=host;x-amz-content-\
            sha256;x-amz-date, Signature=1f357bb5c00f113869d56c2617ab9e738fe0fa9ffbc7a0f6f4627a94096f3d36\r\n\r\n",
        INVALID_ACCESS_KEY_ID,
        b"/pics/a.txt",
    ),
    (
        b"\
            PUT /pics/a.txt HTTP/1.1\r\nHost: localhost:3900\r\nx-amz-content-sha256: e3b0c44298fc1c149afbf4c8996fb9\
            2427ae41e4649b934ca495991b7852b855\r\nx-amz-date: 20231114T221320Z\r\nContent-Length: 16777217\r\nAuthor\
            ization: AWS4-HMAC-SHA256 Credential=GKOTHER/20231114/garage/s3/aws4_request, SignedHeaders=host;x-amz-c\
            ontent-sha256;x-amz-date, Signature=1f357bb5c00f113869d56c2617ab9e738fe0fa9ffbc7a0f6f4627a94096f3d36\r\n\
            \r\n",
        INVALID_ACCESS_KEY_ID,
        b"/pics/a.txt",
    ),
    (
        b"\
            PUT /pics/a.txt HTTP/1.1\r\nHost: localhost:3900\r\nx-amz-content-sha256: e3b0c44298fc1c149afbf4c8996fb9\
            2427ae41e4649b934ca495991b7852b855\r\nx-amz-date: 20231114T221320Z\r\nContent-Length: 4\r\nAuthorization\
            : AWS4-HMAC-SHA256 Credential=GKOTHER/20231114/garage/s3/aws4_request, SignedHeaders=host;x-amz-content-\
            sha256;x-amz-date, Signature=1f357bb5c00f113869d56c2617ab9e738fe0fa9ffbc7a0f6f4627a94096f3d36\r\n\r\n",
        INVALID_ACCESS_KEY_ID,
        b"/pics/a.txt",
    ),
    (
        b"\
            PUT /pics/a.txt HTTP/1.1\r\nHost: localhost:3900\r\nx-amz-content-sha256: 000000000000000000000000000000\
            0000000000000000000000000000000000\r\nx-amz-date: 20231114T221320Z\r\nContent-Length: 3\r\nAuthorization\
            : AWS4-HMAC-SHA256 Credential=GKOTHER/20231114/garage/s3/aws4_request, SignedHeaders=host;x-amz-content-\
            sha256;x-amz-date, Signature=f03bb03d55978e635e76b6c308e854a54ecd2d069782922863e14decf165d5a4\r\n\r\nabd",
        INVALID_ACCESS_KEY_ID,
        b"/pics/a.txt",
    ),
    (
        b"\
            PUT /pics/kkkkkkkkkkkkkkkkkkkkkkkkkkkkkkkkkkkkkkkkkkkkkkkkkkkkkkkkkkkkkkkkkkkkkkkkkkkkkkkkkkkkkkkkkkkkkk\
            kkkkkkkkkkkkkkkkkkkkkkkkkkkkkkkkkkkkkkkkkkkkkkkkkkkkkkkkkkkkkkkkkkkkkkkkkkkkkkkkkkkkkkkkkkkkkkkkkkkkkkkk\
            kkkkkkkkkkkkkkkkkkkkkkkkkkkkkkkkkkkkkkkkkkkkkkkkkkkkkkkkkkkkkkkkkkkkkkkkkkkkkkkkkkkkkkkkkkkkkkkkkkkkkkkk\
            kkkkkkkkkkkkkkkkkkkkkkkkkkkkkkkkkkkkkkkkkkkkkkkkkkkkkkkkkkkkkkkkkkkkkkkkkkkkkkkkkkkkkkkkkkkkkkkkkkkkkkkk\
            kkkkkkkkkkkkkkkkkkkkkkkkkkkkkkkkkkkkkkkkkkkkkkkkkkkkkkkkkkkkkkkkkkkkkkkkkkkkkkkkkkkkkkkkkkkkkkkkkkkkkkkk\
            kkkkkkkkkkkkkkkkkkkkkkkkkkkkkkkkkkkkkkkkkkkkkkkkkkkkkkkkkkkkkkkkkkkkkkkkkkkkkkkkkkkkkkkkkkkkkkkkkkkkkkkk\
            kkkkkkkkkkkkkkkkkkkkkkkkkkkkkkkkkkkkkkkkkkkkkkkkkkkkkkkkkkkkkkkkkkkkkkkkkkkkkkkkkkkkkkkkkkkkkkkkkkkkkkkk\
            kkkkkkkkkkkkkkkkkkkkkkkkkkkkkkkkkkkkkkkkkkkkkkkkkkkkkkkkkkkkkkkkkkkkkkkkkkkkkkkkkkkkkkkkkkkkkkkkkkkkkkkk\
            kkkkkkkkkkkkkkkkkkkkkkkkkkkkkkkkkkkkkkkkkkkkkkkkkkkkkkkkkkkkkkkkkkkkkkkkkkkkkkkkkkkkkkkkkkkkkkkkkkkkkkkk\
            kkkkkkkkkkkkkkkkkkkkkkkkkkkkkkkkkkkkkkkkkkkkkkkkkkkkkkkkkkkkkkkkkkkkkkkkkkkkkkkkkkkkkkkkkkkkkkkkkkk HTTP\
            /1.1\r\nHost: localhost:3900\r\nx-amz-content-sha256: ba7816bf8f01cfea414140de5dae2223b00361a396177a9cb4\
            10ff61f20015ad\r\nx-amz-date: 20231114T221320Z\r\nContent-Length: 3\r\nAuthorization: AWS4-HMAC-SHA256 C\
            redential=GKOTHER/20231114/garage/s3/aws4_request, SignedHeaders=host;x-amz-content-sha256;x-amz-date, S\
            ignature=b6b887094d9e0442db5de714bf4266b583c382a3e600d79fa8048e518f0d0571\r\n\r\nabc",
        INVALID_ACCESS_KEY_ID,
        LONG_PATH,
    ),
    (
        b"\
            PUT /pics/a.txt HTTP/1.1\r\nHost: localhost:3900\r\nx-amz-content-sha256: ba7816bf8f01cfea414140de5dae22\
            23b00361a396177a9cb410ff61f20015ad\r\nx-amz-date: 20231114T221320Z\r\nContent-MD5: ndTkYSaMgDT1yFZOFVxnp\
            g==\r\nContent-Length: 3\r\nAuthorization: AWS4-HMAC-SHA256 Credential=GKOTHER/20231114/garage/s3/aws4_r\
            equest, SignedHeaders=host;x-amz-content-sha256;x-amz-date, Signature=d4126bea1e6b308a35b05ce7607f24df46\
            ba16522514921b673b4f083ffb916f\r\n\r\nabc",
        INVALID_ACCESS_KEY_ID,
        b"/pics/a.txt",
    ),
];
