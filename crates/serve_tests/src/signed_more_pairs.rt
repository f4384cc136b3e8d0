//! Requests with two causes at once, signed by Python's hmac and hashlib: the first in the table of docs/S3.md is
//! answered.
use crate::signed_refusals::{
    ACCESS_DENIED, ENTITY_TOO_LARGE, INCOMPLETE_BODY, INVALID_REQUEST, KEY_TOO_LONG_ERROR,
    LONG_PATH, MISSING_CONTENT_LENGTH, NO_SUCH_KEY, OTHER_BODY, Pair, REQUEST_TIME_TOO_SKEWED,
    SIGNATURE_DOES_NOT_MATCH,
};

/// The date is too far away, and something else is wrong.
pub const SKEWED_PAIRS: [Pair; 9] = [
    (
        b"\
            PUT /pics/a.txt HTTP/1.1\r\nHost: localhost:3900\r\nx-amz-content-sha256: ba7816bf8f01cfea414140de5dae22\
            23b00361a396177a9cb410ff61f20015ad\r\nx-amz-date: 20231114T215819Z\r\nContent-Length: 3\r\nAuthorization\
            : AWS4-HMAC-SHA256 Credential=GKFULL/20231114/garage/s3/aws4_request, SignedHeaders=host;x-amz-content-s\
            ha256;x-amz-date, Signature=01d77083cdde570aac2cc28dd7ebbad33fdf58c50d0f2a24ac17d0c48f9b8511\r\n\r\nabc",
        REQUEST_TIME_TOO_SKEWED,
        b"/pics/a.txt",
    ),
    (
        b"\
            PUT /pics/a.txt HTTP/1.1\r\nHost: localhost:3900\r\nx-amz-content-sha256: ba7816bf8f01cfea414140de5dae22\
            23b00361a396177a9cb410ff61f20015ad\r\nx-amz-date: 20231114T215819Z\r\nContent-Length: 3\r\nAuthorization\
            : AWS4-HMAC-SHA256 Credential=GKREAD/20231114/garage/s3/aws4_request, SignedHeaders=host;x-amz-content-s\
            ha256;x-amz-date, Signature=2ce1d012bfdada7a748253b7e7803c41cd67fe9850cf1601fccee3b8d2e6ccf2\r\n\r\nabc",
        REQUEST_TIME_TOO_SKEWED,
        b"/pics/a.txt",
    ),
    (
        b"\
            PUT /pics/a.txt HTTP/1.1\r\nHost: localhost:3900\r\nx-amz-content-sha256: e3b0c44298fc1c149afbf4c8996fb9\
            2427ae41e4649b934ca495991b7852b855\r\nx-amz-date: 20231114T215819Z\r\nAuthorization: AWS4-HMAC-SHA256 Cr\
            edential=GKFULL/20231114/garage/s3/aws4_request, SignedHeaders=host;x-amz-content-sha256;x-amz-date, Sig\
            nature=7531aaef4b7f2dac06d20efeffad27c698abecd5bae54901e2a17cf515ac58ff\r\n\r\n",
        REQUEST_TIME_TOO_SKEWED,
        b"/pics/a.txt",
    ),
    (
        b"\
            PUT /pics/a.txt HTTP/1.1\r\nHost: localhost:3900\r\nx-amz-content-sha256: e3b0c44298fc1c149afbf4c8996fb9\
            2427ae41e4649b934ca495991b7852b855\r\nx-amz-date: 20231114T215819Z\r\nContent-Length: x\r\nAuthorization\
            : AWS4-HMAC-SHA256 Credential=GKFULL/20231114/garage/s3/aws4_request, SignedHeaders=host;x-amz-content-s\
            ha256;x-amz-date, Signature=7531aaef4b7f2dac06d20efeffad27c698abecd5bae54901e2a17cf515ac58ff\r\n\r\n",
        REQUEST_TIME_TOO_SKEWED,
        b"/pics/a.txt",
    ),
    (
        b"\
            PUT /pics/a.txt HTTP/1.1\r\nHost: localhost:3900\r\nx-amz-content-sha256: e3b0c44298fc1c149afbf4c8996fb9\
            2427ae41e4649b934ca495991b7852b855\r\nx-amz-date: 20231114T215819Z\r\nContent-Length: 16777217\r\nAuthor\
            ization: AWS4-HMAC-SHA256 Credential=GKFULL/20231114/garage/s3/aws4_request, SignedHeaders=host;x-amz-co\
            ntent-sha256;x-amz-date, Signature=7531aaef4b7f2dac06d20efeffad27c698abecd5bae54901e2a17cf515ac58ff\r\n\
            \r\n",
        REQUEST_TIME_TOO_SKEWED,
        b"/pics/a.txt",
    ),
    (
        b"\
            PUT /pics/a.txt HTTP/1.1\r\nHost: localhost:3900\r\nx-amz-content-sha256: e3b0c44298fc1c149afbf4c8996fb9\
            2427ae41e4649b934ca495991b7852b855\r\nx-amz-date: 20231114T215819Z\r\nContent-Length: 4\r\nAuthorization\
            : AWS4-HMAC-SHA256 Credential=GKFULL/20231114/garage/s3/aws4_request, SignedHeaders=host;x-amz-content-s\
            ha256;x-amz-date, Signature=7531aaef4b7f2dac06d20efeffad27c698abecd5bae54901e2a17cf515ac58ff\r\n\r\n",
        REQUEST_TIME_TOO_SKEWED,
        b"/pics/a.txt",
    ),
    (
        b"\
            PUT /pics/a.txt HTTP/1.1\r\nHost: localhost:3900\r\nx-amz-content-sha256: 000000000000000000000000000000\
            0000000000000000000000000000000000\r\nx-amz-date: 20231114T215819Z\r\nContent-Length: 3\r\nAuthorization\
            : AWS4-HMAC-SHA256 Credential=GKFULL/20231114/garage/s3/aws4_request, SignedHeaders=host;x-amz-content-s\
            ha256;x-amz-date, Signature=460bea10a7845a7e206c4a5ea7762c7bcfa82924d2220ee773a80355c67de724\r\n\r\nabd",
        REQUEST_TIME_TOO_SKEWED,
        b"/pics/a.txt",
    ),
    (
        b"\
            PUT /pics/kkkkkkkkkkkkkkkkkkkkkkkkkkkkkkkkkkkkkkkkkkkkkkkkkkkkkkkkkkkkkkkkkkkkkkkkkkkkkkkkkkkkkkkkkkkkkk\
            kkkkkkkkkkkkkkkkkkkkkkkkkkkkkkkkkkkkkkkkkkkkkkkkkkkkkkkkkkkkkkkkkkkkkkkkkkkkkkkkkkkkkkkkkkkkkkkkkkkkkkkk\
            kkkkkkkkkkkkkkkkkkkkkkkkkkkkkkkkkkkkkkkkkkkkkkkkkkkkkkkkkkkkkkkkkkkkkkkkkkkkkkkkkkkkkkkkkkkkkkkkkkkkkkkk\
            kkkkkkkkkkkkkkkkkkkkkkkkkkkkkkkkkkkkkkkkkkkkkkkkkkkkkkkkkkkkkkkkkkkkkkkkkkkkkkkkkkkkkkkkkkkkkkkkkkkkkkkk\
            kkkkkkkkkkkkkkkkkkkkkkkkkkkkkkkkkkkkkkkkkkkkkkkkkkkkkkkkkkkkkkkkkkkkkkkkkkkkkkkkkkkkkkkkkkkkkkkkkkkkkkkk\
            kkkkkkkkkkkkkkkkkkkkkkkkkkkkkkkkkkkkkkkkkkkkkkkkkkkkkkkkkkkkkkkkkkkkkkkkkkkkkkkkkkkkkkkkkkkkkkkkkkkkkkkk\
            kkkkkkkkkkkkkkkkkkkkkkkkkkkkkkkkkkkkkkkkkkkkkkkkkkkkkkkkkkkkkkkkkkkkkkkkkkkkkkkkkkkkkkkkkkkkkkkkkkkkkkkk\
            kkkkkkkkkkkkkkkkkkkkkkkkkkkkkkkkkkkkkkkkkkkkkkkkkkkkkkkkkkkkkkkkkkkkkkkkkkkkkkkkkkkkkkkkkkkkkkkkkkkkkkkk\
            kkkkkkkkkkkkkkkkkkkkkkkkkkkkkkkkkkkkkkkkkkkkkkkkkkkkkkkkkkkkkkkkkkkkkkkkkkkkkkkkkkkkkkkkkkkkkkkkkkkkkkkk\
            kkkkkkkkkkkkkkkkkkkkkkkkkkkkkkkkkkkkkkkkkkkkkkkkkkkkkkkkkkkkkkkkkkkkkkkkkkkkkkkkkkkkkkkkkkkkkkkkkkk HTTP\
            /1.1\r\nHost: localhost:3900\r\nx-amz-content-sha256: ba7816bf8f01cfea414140de5dae2223b00361a396177a9cb4\
            10ff61f20015ad\r\nx-amz-date: 20231114T215819Z\r\nContent-Length: 3\r\nAuthorization: AWS4-HMAC-SHA256 C\
            redential=GKFULL/20231114/garage/s3/aws4_request, SignedHeaders=host;x-amz-content-sha256;x-amz-date, Si\
            gnature=39252847f5a606d480bc6623aa56d2291d19639a5a4de0319de8579694c7b202\r\n\r\nabc",
        REQUEST_TIME_TOO_SKEWED,
        LONG_PATH,
    ),
    (
        b"\
            PUT /pics/a.txt HTTP/1.1\r\nHost: localhost:3900\r\nx-amz-content-sha256: ba7816bf8f01cfea414140de5dae22\
            23b00361a396177a9cb410ff61f20015ad\r\nx-amz-date: 20231114T215819Z\r\nContent-MD5: ndTkYSaMgDT1yFZOFVxnp\
            g==\r\nContent-Length: 3\r\nAuthorization: AWS4-HMAC-SHA256 Credential=GKFULL/20231114/garage/s3/aws4_re\
            quest, SignedHeaders=host;x-amz-content-sha256;x-amz-date, Signature=c1d77083cdde570aac2cc28dd7ebbad33fd\
            f58c50d0f2a24ac17d0c48f9b8511\r\n\r\nabc",
        REQUEST_TIME_TOO_SKEWED,
        b"/pics/a.txt",
    ),
];

/// The signature is wrong, and something else.
pub const FORGED_PAIRS: [Pair; 8] = [
    (
        b"\
            PUT /pics/a.txt HTTP/1.1\r\nHost: localhost:3900\r\nx-amz-content-sha256: ba7816bf8f01cfea414140de5dae22\
            23b00361a396177a9cb410ff61f20015ad\r\nx-amz-date: 20231114T221320Z\r\nContent-Length: 3\r\nAuthorization\
            : AWS4-HMAC-SHA256 Credential=GKREAD/20231114/garage/s3/aws4_request, SignedHeaders=host;x-amz-content-s\
            ha256;x-amz-date, Signature=00bd324955203b9698c9195e0237b13beb70c9cea0b32766b64697c2b558b712\r\n\r\nabc",
        SIGNATURE_DOES_NOT_MATCH,
        b"/pics/a.txt",
    ),
    (
        b"\
            PUT /pics/a.txt HTTP/1.1\r\nHost: localhost:3900\r\nx-amz-content-sha256: e3b0c44298fc1c149afbf4c8996fb9\
            2427ae41e4649b934ca495991b7852b855\r\nx-amz-date: 20231114T221320Z\r\nAuthorization: AWS4-HMAC-SHA256 Cr\
            edential=GKFULL/20231114/garage/s3/aws4_request, SignedHeaders=host;x-amz-content-sha256;x-amz-date, Sig\
            nature=0e0ebe047b6926065a6fb8421c071f549a90c3461b09fa99a74a8b365e97ad09\r\n\r\n",
        SIGNATURE_DOES_NOT_MATCH,
        b"/pics/a.txt",
    ),
    (
        b"\
            PUT /pics/a.txt HTTP/1.1\r\nHost: localhost:3900\r\nx-amz-content-sha256: e3b0c44298fc1c149afbf4c8996fb9\
            2427ae41e4649b934ca495991b7852b855\r\nx-amz-date: 20231114T221320Z\r\nContent-Length: x\r\nAuthorization\
            : AWS4-HMAC-SHA256 Credential=GKFULL/20231114/garage/s3/aws4_request, SignedHeaders=host;x-amz-content-s\
            ha256;x-amz-date, Signature=0e0ebe047b6926065a6fb8421c071f549a90c3461b09fa99a74a8b365e97ad09\r\n\r\n",
        SIGNATURE_DOES_NOT_MATCH,
        b"/pics/a.txt",
    ),
    (
        b"\
            PUT /pics/a.txt HTTP/1.1\r\nHost: localhost:3900\r\nx-amz-content-sha256: e3b0c44298fc1c149afbf4c8996fb9\
            2427ae41e4649b934ca495991b7852b855\r\nx-amz-date: 20231114T221320Z\r\nContent-Length: 16777217\r\nAuthor\
            ization: AWS4-HMAC-SHA256 Credential=GKFULL/20231114/garage/s3/aws4_request, SignedHeaders=host;x-amz-co\
            ntent-sha256;x-amz-date, Signature=0e0ebe047b6926065a6fb8421c071f549a90c3461b09fa99a74a8b365e97ad09\r\n\
            \r\n",
        SIGNATURE_DOES_NOT_MATCH,
        b"/pics/a.txt",
    ),
    (
        b"\
            PUT /pics/a.txt HTTP/1.1\r\nHost: localhost:3900\r\nx-amz-content-sha256: e3b0c44298fc1c149afbf4c8996fb9\
            2427ae41e4649b934ca495991b7852b855\r\nx-amz-date: 20231114T221320Z\r\nContent-Length: 4\r\nAuthorization\
            : AWS4-HMAC-SHA256 Credential=GKFULL/20231114/garage/s3/aws4_request, SignedHeaders=host;x-amz-content-s\
            ha256;x-amz-date, Signature=0e0ebe047b6926065a6fb8421c071f549a90c3461b09fa99a74a8b365e97ad09\r\n\r\n",
        SIGNATURE_DOES_NOT_MATCH,
        b"/pics/a.txt",
    ),
    (
        b"\
            PUT /pics/a.txt HTTP/1.1\r\nHost: localhost:3900\r\nx-amz-content-sha256: 000000000000000000000000000000\
            0000000000000000000000000000000000\r\nx-amz-date: 20231114T221320Z\r\nContent-Length: 3\r\nAuthorization\
            : AWS4-HMAC-SHA256 Credential=GKFULL/20231114/garage/s3/aws4_request, SignedHeaders=host;x-amz-content-s\
            ha256;x-amz-date, Signature=0784d9f1ff2f7d2f0a9757058c52b55c06a7af351e7f23c6c52817d21ef5d777\r\n\r\nabd",
        SIGNATURE_DOES_NOT_MATCH,
        b"/pics/a.txt",
    ),
    (
        b"\
            PUT /pics/kkkkkkkkkkkkkkkkkkkkkkkkkkkkkkkkkkkkkkkkkkkkkkkkkkkkkkkkkkkkkkkkkkkkkkkkkkkkkkkkkkkkkkkkkkkkkk\
            kkkkkkkkkkkkkkkkkkkkkkkkkkkkkkkkkkkkkkkkkkkkkkkkkkkkkkkkkkkkkkkkkkkkkkkkkkkkkkkkkkkkkkkkkkkkkkkkkkkkkkkk\
            kkkkkkkkkkkkkkkkkkkkkkkkkkkkkkkkkkkkkkkkkkkkkkkkkkkkkkkkkkkkkkkkkkkkkkkkkkkkkkkkkkkkkkkkkkkkkkkkkkkkkkkk\
            kkkkkkkkkkkkkkkkkkkkkkkkkkkkkkkkkkkkkkkkkkkkkkkkkkkkkkkkkkkkkkkkkkkkkkkkkkkkkkkkkkkkkkkkkkkkkkkkkkkkkkkk\
            kkkkkkkkkkkkkkkkkkkkkkkkkkkkkkkkkkkkkkkkkkkkkkkkkkkkkkkkkkkkkkkkkkkkkkkkkkkkkkkkkkkkkkkkkkkkkkkkkkkkkkkk\
            kkkkkkkkkkkkkkkkkkkkkkkkkkkkkkkkkkkkkkkkkkkkkkkkkkkkkkkkkkkkkkkkkkkkkkkkkkkkkkkkkkkkkkkkkkkkkkkkkkkkkkkk\
            kkkkkkkkkkkkkkkkkkkkkkkkkkkkkkkkkkkkkkkkkkkkkkkkkkkkkkkkkkkkkkkkkkkkkkkkkkkkkkkkkkkkkkkkkkkkkkkkkkkkkkkk\
            kkkkkkkkkkkkkkkkkkkkkkkkkkkkkkkkkkkkkkkkkkkkkkkkkkkkkkkkkkkkkkkkkkkkkkkkkkkkkkkkkkkkkkkkkkkkkkkkkkkkkkkk\
            kkkkkkkkkkkkkkkkkkkkkkkkkkkkkkkkkkkkkkkkkkkkkkkkkkkkkkkkkkkkkkkkkkkkkkkkkkkkkkkkkkkkkkkkkkkkkkkkkkkkkkkk\
            kkkkkkkkkkkkkkkkkkkkkkkkkkkkkkkkkkkkkkkkkkkkkkkkkkkkkkkkkkkkkkkkkkkkkkkkkkkkkkkkkkkkkkkkkkkkkkkkkkk HTTP\
            /1.1\r\nHost: localhost:3900\r\nx-amz-content-sha256: ba7816bf8f01cfea414140de5dae2223b00361a396177a9cb4\
            10ff61f20015ad\r\nx-amz-date: 20231114T221320Z\r\nContent-Length: 3\r\nAuthorization: AWS4-HMAC-SHA256 C\
            redential=GKFULL/20231114/garage/s3/aws4_request, SignedHeaders=host;x-amz-content-sha256;x-amz-date, Si\
            gnature=0872beda27a6d367e18d36065089a55086cb331126c91c3b0d4446901266e448\r\n\r\nabc",
        SIGNATURE_DOES_NOT_MATCH,
        LONG_PATH,
    ),
    (
        b"\
            PUT /pics/a.txt HTTP/1.1\r\nHost: localhost:3900\r\nx-amz-content-sha256: ba7816bf8f01cfea414140de5dae22\
            23b00361a396177a9cb410ff61f20015ad\r\nx-amz-date: 20231114T221320Z\r\nContent-MD5: ndTkYSaMgDT1yFZOFVxnp\
            g==\r\nContent-Length: 3\r\nAuthorization: AWS4-HMAC-SHA256 Credential=GKFULL/20231114/garage/s3/aws4_re\
            quest, SignedHeaders=host;x-amz-content-sha256;x-amz-date, Signature=0697c0acb3fe24690feaaa2fa7589136775\
            560492f8d8d27b299a69f25011f8e\r\n\r\nabc",
        SIGNATURE_DOES_NOT_MATCH,
        b"/pics/a.txt",
    ),
];

/// The key may not do it, and something else is wrong.
pub const DENIED_PAIRS: [Pair; 7] = [
    (
        b"\
            PUT /pics/a.txt HTTP/1.1\r\nHost: localhost:3900\r\nx-amz-content-sha256: e3b0c44298fc1c149afbf4c8996fb9\
            2427ae41e4649b934ca495991b7852b855\r\nx-amz-date: 20231114T221320Z\r\nAuthorization: AWS4-HMAC-SHA256 Cr\
            edential=GKREAD/20231114/garage/s3/aws4_request, SignedHeaders=host;x-amz-content-sha256;x-amz-date, Sig\
            nature=842044e8287d44c4dca5f8b4e91161ac12dee8f08414c0011394560291029200\r\n\r\n",
        ACCESS_DENIED,
        b"/pics/a.txt",
    ),
    (
        b"\
            PUT /pics/a.txt HTTP/1.1\r\nHost: localhost:3900\r\nx-amz-content-sha256: e3b0c44298fc1c149afbf4c8996fb9\
            2427ae41e4649b934ca495991b7852b855\r\nx-amz-date: 20231114T221320Z\r\nContent-Length: x\r\nAuthorization\
            : AWS4-HMAC-SHA256 Credential=GKREAD/20231114/garage/s3/aws4_request, SignedHeaders=host;x-amz-content-s\
            ha256;x-amz-date, Signature=842044e8287d44c4dca5f8b4e91161ac12dee8f08414c0011394560291029200\r\n\r\n",
        ACCESS_DENIED,
        b"/pics/a.txt",
    ),
    (
        b"\
            PUT /pics/a.txt HTTP/1.1\r\nHost: localhost:3900\r\nx-amz-content-sha256: e3b0c44298fc1c149afbf4c8996fb9\
            2427ae41e4649b934ca495991b7852b855\r\nx-amz-date: 20231114T221320Z\r\nContent-Length: 16777217\r\nAuthor\
            ization: AWS4-HMAC-SHA256 Credential=GKREAD/20231114/garage/s3/aws4_request, SignedHeaders=host;x-amz-co\
            ntent-sha256;x-amz-date, Signature=842044e8287d44c4dca5f8b4e91161ac12dee8f08414c0011394560291029200\r\n\
            \r\n",
        ACCESS_DENIED,
        b"/pics/a.txt",
    ),
    (
        b"\
            PUT /pics/a.txt HTTP/1.1\r\nHost: localhost:3900\r\nx-amz-content-sha256: e3b0c44298fc1c149afbf4c8996fb9\
            2427ae41e4649b934ca495991b7852b855\r\nx-amz-date: 20231114T221320Z\r\nContent-Length: 4\r\nAuthorization\
            : AWS4-HMAC-SHA256 Credential=GKREAD/20231114/garage/s3/aws4_request, SignedHeaders=host;x-amz-content-s\
            ha256;x-amz-date, Signature=842044e8287d44c4dca5f8b4e91161ac12dee8f08414c0011394560291029200\r\n\r\n",
        ACCESS_DENIED,
        b"/pics/a.txt",
    ),
    (
        b"\
            PUT /pics/a.txt HTTP/1.1\r\nHost: localhost:3900\r\nx-amz-content-sha256: 000000000000000000000000000000\
            0000000000000000000000000000000000\r\nx-amz-date: 20231114T221320Z\r\nContent-Length: 3\r\nAuthorization\
            : AWS4-HMAC-SHA256 Credential=GKREAD/20231114/garage/s3/aws4_request, SignedHeaders=host;x-amz-content-s\
            ha256;x-amz-date, Signature=016a1f2befd638ca9d5ddf36ca9eeda5a2ec08b79691e3b1592d44a040c960a7\r\n\r\nabd",
        ACCESS_DENIED,
        b"/pics/a.txt",
    ),
    (
        b"\
            PUT /pics/kkkkkkkkkkkkkkkkkkkkkkkkkkkkkkkkkkkkkkkkkkkkkkkkkkkkkkkkkkkkkkkkkkkkkkkkkkkkkkkkkkkkkkkkkkkkkk\
            kkkkkkkkkkkkkkkkkkkkkkkkkkkkkkkkkkkkkkkkkkkkkkkkkkkkkkkkkkkkkkkkkkkkkkkkkkkkkkkkkkkkkkkkkkkkkkkkkkkkkkkk\
            kkkkkkkkkkkkkkkkkkkkkkkkkkkkkkkkkkkkkkkkkkkkkkkkkkkkkkkkkkkkkkkkkkkkkkkkkkkkkkkkkkkkkkkkkkkkkkkkkkkkkkkk\
            kkkkkkkkkkkkkkkkkkkkkkkkkkkkkkkkkkkkkkkkkkkkkkkkkkkkkkkkkkkkkkkkkkkkkkkkkkkkkkkkkkkkkkkkkkkkkkkkkkkkkkkk\
            kkkkkkkkkkkkkkkkkkkkkkkkkkkkkkkkkkkkkkkkkkkkkkkkkkkkkkkkkkkkkkkkkkkkkkkkkkkkkkkkkkkkkkkkkkkkkkkkkkkkkkkk\
            kkkkkkkkkkkkkkkkkkkkkkkkkkkkkkkkkkkkkkkkkkkkkkkkkkkkkkkkkkkkkkkkkkkkkkkkkkkkkkkkkkkkkkkkkkkkkkkkkkkkkkkk\
            kkkkkkkkkkkkkkkkkkkkkkkkkkkkkkkkkkkkkkkkkkkkkkkkkkkkkkkkkkkkkkkkkkkkkkkkkkkkkkkkkkkkkkkkkkkkkkkkkkkkkkkk\
            kkkkkkkkkkkkkkkkkkkkkkkkkkkkkkkkkkkkkkkkkkkkkkkkkkkkkkkkkkkkkkkkkkkkkkkkkkkkkkkkkkkkkkkkkkkkkkkkkkkkkkkk\
            kkkkkkkkkkkkkkkkkkkkkkkkkkkkkkkkkkkkkkkkkkkkkkkkkkkkkkkkkkkkkkkkkkkkkkkkkkkkkkkkkkkkkkkkkkkkkkkkkkkkkkkk\
            kkkkkkkkkkkkkkkkkkkkkkkkkkkkkkkkkkkkkkkkkkkkkkkkkkkkkkkkkkkkkkkkkkkkkkkkkkkkkkkkkkkkkkkkkkkkkkkkkkk HTTP\
            /1.1\r\nHost: localhost:3900\r\nx-amz-content-sha256: ba7816bf8f01cfea414140de5dae2223b00361a396177a9cb4\
            10ff61f20015ad\r\nx-amz-date: 20231114T221320Z\r\nContent-Length: 3\r\nAuthorization: AWS4-HMAC-SHA256 C\
            redential=GKREAD/20231114/garage/s3/aws4_request, SignedHeaders=host;x-amz-content-sha256;x-amz-date, Si\
            gnature=1f132eb046a954eee8761c4e508ba311c50b8ad0f2d183800402348e0d9ff573\r\n\r\nabc",
        ACCESS_DENIED,
        LONG_PATH,
    ),
    (
        b"\
            PUT /pics/a.txt HTTP/1.1\r\nHost: localhost:3900\r\nx-amz-content-sha256: ba7816bf8f01cfea414140de5dae22\
            23b00361a396177a9cb410ff61f20015ad\r\nx-amz-date: 20231114T221320Z\r\nContent-MD5: ndTkYSaMgDT1yFZOFVxnp\
            g==\r\nContent-Length: 3\r\nAuthorization: AWS4-HMAC-SHA256 Credential=GKREAD/20231114/garage/s3/aws4_re\
            quest, SignedHeaders=host;x-amz-content-sha256;x-amz-date, Signature=60bd324955203b9698c9195e0237b13beb7\
            0c9cea0b32766b64697c2b558b712\r\n\r\nabc",
        ACCESS_DENIED,
        b"/pics/a.txt",
    ),
];

/// The announced length or what came of it is wrong, and something else.
pub const LENGTH_PAIRS: [Pair; 4] = [
    (
        b"\
            PUT /pics/a.txt HTTP/1.1\r\nHost: localhost:3900\r\nx-amz-content-sha256: 000000000000000000000000000000\
            0000000000000000000000000000000000\r\nx-amz-date: 20231114T221320Z\r\nAuthorization: AWS4-HMAC-SHA256 Cr\
            edential=GKFULL/20231114/garage/s3/aws4_request, SignedHeaders=host;x-amz-content-sha256;x-amz-date, Sig\
            nature=2784d9f1ff2f7d2f0a9757058c52b55c06a7af351e7f23c6c52817d21ef5d777\r\n\r\n",
        MISSING_CONTENT_LENGTH,
        b"/pics/a.txt",
    ),
    (
        b"\
            PUT /pics/a.txt HTTP/1.1\r\nHost: localhost:3900\r\nx-amz-content-sha256: 000000000000000000000000000000\
            0000000000000000000000000000000000\r\nx-amz-date: 20231114T221320Z\r\nContent-Length: x\r\nAuthorization\
            : AWS4-HMAC-SHA256 Credential=GKFULL/20231114/garage/s3/aws4_request, SignedHeaders=host;x-amz-content-s\
            ha256;x-amz-date, Signature=2784d9f1ff2f7d2f0a9757058c52b55c06a7af351e7f23c6c52817d21ef5d777\r\n\r\n",
        INVALID_REQUEST,
        b"/pics/a.txt",
    ),
    (
        b"\
            PUT /pics/a.txt HTTP/1.1\r\nHost: localhost:3900\r\nx-amz-content-sha256: 000000000000000000000000000000\
            0000000000000000000000000000000000\r\nx-amz-date: 20231114T221320Z\r\nContent-Length: 16777217\r\nAuthor\
            ization: AWS4-HMAC-SHA256 Credential=GKFULL/20231114/garage/s3/aws4_request, SignedHeaders=host;x-amz-co\
            ntent-sha256;x-amz-date, Signature=2784d9f1ff2f7d2f0a9757058c52b55c06a7af351e7f23c6c52817d21ef5d777\r\n\
            \r\n",
        ENTITY_TOO_LARGE,
        b"/pics/a.txt",
    ),
    (
        b"\
            PUT /pics/a.txt HTTP/1.1\r\nHost: localhost:3900\r\nx-amz-content-sha256: 000000000000000000000000000000\
            0000000000000000000000000000000000\r\nx-amz-date: 20231114T221320Z\r\nContent-Length: 4\r\nAuthorization\
            : AWS4-HMAC-SHA256 Credential=GKFULL/20231114/garage/s3/aws4_request, SignedHeaders=host;x-amz-content-s\
            ha256;x-amz-date, Signature=2784d9f1ff2f7d2f0a9757058c52b55c06a7af351e7f23c6c52817d21ef5d777\r\n\r\n",
        INCOMPLETE_BODY,
        b"/pics/a.txt",
    ),
];

/// The body isn't the one that was signed, or is, and something else is wrong.
pub const BODY_PAIRS: [Pair; 7] = [
    (
        b"\
            PUT /pics/kkkkkkkkkkkkkkkkkkkkkkkkkkkkkkkkkkkkkkkkkkkkkkkkkkkkkkkkkkkkkkkkkkkkkkkkkkkkkkkkkkkkkkkkkkkkkk\
            kkkkkkkkkkkkkkkkkkkkkkkkkkkkkkkkkkkkkkkkkkkkkkkkkkkkkkkkkkkkkkkkkkkkkkkkkkkkkkkkkkkkkkkkkkkkkkkkkkkkkkkk\
            kkkkkkkkkkkkkkkkkkkkkkkkkkkkkkkkkkkkkkkkkkkkkkkkkkkkkkkkkkkkkkkkkkkkkkkkkkkkkkkkkkkkkkkkkkkkkkkkkkkkkkkk\
            kkkkkkkkkkkkkkkkkkkkkkkkkkkkkkkkkkkkkkkkkkkkkkkkkkkkkkkkkkkkkkkkkkkkkkkkkkkkkkkkkkkkkkkkkkkkkkkkkkkkkkkk\
            kkkkkkkkkkkkkkkkkkkkkkkkkkkkkkkkkkkkkkkkkkkkkkkkkkkkkkkkkkkkkkkkkkkkkkkkkkkkkkkkkkkkkkkkkkkkkkkkkkkkkkkk\
            kkkkkkkkkkkkkkkkkkkkkkkkkkkkkkkkkkkkkkkkkkkkkkkkkkkkkkkkkkkkkkkkkkkkkkkkkkkkkkkkkkkkkkkkkkkkkkkkkkkkkkkk\
            kkkkkkkkkkkkkkkkkkkkkkkkkkkkkkkkkkkkkkkkkkkkkkkkkkkkkkkkkkkkkkkkkkkkkkkkkkkkkkkkkkkkkkkkkkkkkkkkkkkkkkkk\
            kkkkkkkkkkkkkkkkkkkkkkkkkkkkkkkkkkkkkkkkkkkkkkkkkkkkkkkkkkkkkkkkkkkkkkkkkkkkkkkkkkkkkkkkkkkkkkkkkkkkkkkk\
            kkkkkkkkkkkkkkkkkkkkkkkkkkkkkkkkkkkkkkkkkkkkkkkkkkkkkkkkkkkkkkkkkkkkkkkkkkkkkkkkkkkkkkkkkkkkkkkkkkkkkkkk\
            kkkkkkkkkkkkkkkkkkkkkkkkkkkkkkkkkkkkkkkkkkkkkkkkkkkkkkkkkkkkkkkkkkkkkkkkkkkkkkkkkkkkkkkkkkkkkkkkkkk HTTP\
            /1.1\r\nHost: localhost:3900\r\nx-amz-content-sha256: 00000000000000000000000000000000000000000000000000\
            00000000000000\r\nx-amz-date: 20231114T221320Z\r\nContent-Length: 3\r\nAuthorization: AWS4-HMAC-SHA256 C\
            redential=GKFULL/20231114/garage/s3/aws4_request, SignedHeaders=host;x-amz-content-sha256;x-amz-date, Si\
            gnature=259db0867f67d0308908a91dffcc68510cc269b13b3111868b6cba392990a0c6\r\n\r\nabc",
        OTHER_BODY,
        LONG_PATH,
    ),
    (
        b"\
            PUT /pics/a.txt HTTP/1.1\r\nHost: localhost:3900\r\nx-amz-content-sha256: 000000000000000000000000000000\
            0000000000000000000000000000000000\r\nx-amz-date: 20231114T221320Z\r\nContent-MD5: ndTkYSaMgDT1yFZOFVxnp\
            g==\r\nContent-Length: 3\r\nAuthorization: AWS4-HMAC-SHA256 Credential=GKFULL/20231114/garage/s3/aws4_re\
            quest, SignedHeaders=host;x-amz-content-sha256;x-amz-date, Signature=2784d9f1ff2f7d2f0a9757058c52b55c06a\
            7af351e7f23c6c52817d21ef5d777\r\n\r\nabc",
        OTHER_BODY,
        b"/pics/a.txt",
    ),
    (
        b"\
            GET /pics?list-type=2&max-keys=x HTTP/1.1\r\nHost: localhost:3900\r\nx-amz-content-sha256: 0000000000000\
            000000000000000000000000000000000000000000000000000\r\nx-amz-date: 20231114T221320Z\r\nContent-Length: 3\
            \r\nAuthorization: AWS4-HMAC-SHA256 Credential=GKFULL/20231114/garage/s3/aws4_request, SignedHeaders=hos\
            t;x-amz-content-sha256;x-amz-date, Signature=fd269b7eba59ce76bea9ccee191499528d1c68a79715b7f6d5a6157aaee\
            5269a\r\n\r\nabc",
        OTHER_BODY,
        b"/pics",
    ),
    (
        b"\
            PUT /pics/b HTTP/1.1\r\nHost: localhost:3900\r\nx-amz-content-sha256: 0000000000000000000000000000000000\
            000000000000000000000000000000\r\nx-amz-date: 20231114T221320Z\r\nx-amz-copy-source: /pics/a\r\nContent-\
            Length: 3\r\nAuthorization: AWS4-HMAC-SHA256 Credential=GKCOPY/20231114/garage/s3/aws4_request, SignedHe\
            aders=host;x-amz-content-sha256;x-amz-copy-source;x-amz-date, Signature=61fb9ec8dc8bb517658a4e77e7bb9b24\
            511958e447e945771aad0e071989dd71\r\n\r\nabc",
        OTHER_BODY,
        b"/pics/b",
    ),
    (
        b"\
            PUT /pics/kkkkkkkkkkkkkkkkkkkkkkkkkkkkkkkkkkkkkkkkkkkkkkkkkkkkkkkkkkkkkkkkkkkkkkkkkkkkkkkkkkkkkkkkkkkkkk\
            kkkkkkkkkkkkkkkkkkkkkkkkkkkkkkkkkkkkkkkkkkkkkkkkkkkkkkkkkkkkkkkkkkkkkkkkkkkkkkkkkkkkkkkkkkkkkkkkkkkkkkkk\
            kkkkkkkkkkkkkkkkkkkkkkkkkkkkkkkkkkkkkkkkkkkkkkkkkkkkkkkkkkkkkkkkkkkkkkkkkkkkkkkkkkkkkkkkkkkkkkkkkkkkkkkk\
            kkkkkkkkkkkkkkkkkkkkkkkkkkkkkkkkkkkkkkkkkkkkkkkkkkkkkkkkkkkkkkkkkkkkkkkkkkkkkkkkkkkkkkkkkkkkkkkkkkkkkkkk\
            kkkkkkkkkkkkkkkkkkkkkkkkkkkkkkkkkkkkkkkkkkkkkkkkkkkkkkkkkkkkkkkkkkkkkkkkkkkkkkkkkkkkkkkkkkkkkkkkkkkkkkkk\
            kkkkkkkkkkkkkkkkkkkkkkkkkkkkkkkkkkkkkkkkkkkkkkkkkkkkkkkkkkkkkkkkkkkkkkkkkkkkkkkkkkkkkkkkkkkkkkkkkkkkkkkk\
            kkkkkkkkkkkkkkkkkkkkkkkkkkkkkkkkkkkkkkkkkkkkkkkkkkkkkkkkkkkkkkkkkkkkkkkkkkkkkkkkkkkkkkkkkkkkkkkkkkkkkkkk\
            kkkkkkkkkkkkkkkkkkkkkkkkkkkkkkkkkkkkkkkkkkkkkkkkkkkkkkkkkkkkkkkkkkkkkkkkkkkkkkkkkkkkkkkkkkkkkkkkkkkkkkkk\
            kkkkkkkkkkkkkkkkkkkkkkkkkkkkkkkkkkkkkkkkkkkkkkkkkkkkkkkkkkkkkkkkkkkkkkkkkkkkkkkkkkkkkkkkkkkkkkkkkkkkkkkk\
            kkkkkkkkkkkkkkkkkkkkkkkkkkkkkkkkkkkkkkkkkkkkkkkkkkkkkkkkkkkkkkkkkkkkkkkkkkkkkkkkkkkkkkkkkkkkkkkkkkk HTTP\
            /1.1\r\nHost: localhost:3900\r\nx-amz-content-sha256: e3b0c44298fc1c149afbf4c8996fb92427ae41e4649b934ca4\
            95991b7852b855\r\nx-amz-date: 20231114T221320Z\r\nx-amz-copy-source: /pics/a\r\nContent-Length: 0\r\nAut\
            horization: AWS4-HMAC-SHA256 Credential=GKCOPY/20231114/garage/s3/aws4_request, SignedHeaders=host;x-amz\
            -content-sha256;x-amz-copy-source;x-amz-date, Signature=e78b9c943240aa3925dd7e75256e54af552e339faa290dc4\
            6f16c1286a64efcd\r\n\r\n",
        KEY_TOO_LONG_ERROR,
        LONG_PATH,
    ),
    (
        b"\
            PUT /pics/b HTTP/1.1\r\nHost: localhost:3900\r\nx-amz-content-sha256: e3b0c44298fc1c149afbf4c8996fb92427\
            ae41e4649b934ca495991b7852b855\r\nx-amz-date: 20231114T221320Z\r\nx-amz-copy-source: /docs/none\r\nConte\
            nt-Length: 0\r\nAuthorization: AWS4-HMAC-SHA256 Credential=GKCOPY/20231114/garage/s3/aws4_request, Signe\
            dHeaders=host;x-amz-content-sha256;x-amz-copy-source;x-amz-date, Signature=dfcf74fa35c8d49ec37af68f3fe5c\
            51b7b033031ceeeb97fe2182873960b5433\r\n\r\n",
        NO_SUCH_KEY,
        b"/pics/b",
    ),
    (
        b"\
            GET /pics/a.txt HTTP/1.1\r\nHost: localhost:3900\r\nx-amz-content-sha256: 000000000000000000000000000000\
            0000000000000000000000000000000000\r\nx-amz-date: 20231114T221320Z\r\nRange: bytes=9-\r\nContent-Length: \
            3\r\nAuthorization: AWS4-HMAC-SHA256 Credential=GKFULL/20231114/garage/s3/aws4_request, SignedHeaders=ho\
            st;x-amz-content-sha256;x-amz-date, Signature=993a38015d52ef7ad8252d84b7c2dd9596887304a9e403c709ac869833\
            bad45d\r\n\r\nabc",
        OTHER_BODY,
        b"/pics/a.txt",
    ),
];
