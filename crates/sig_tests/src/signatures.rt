//! Keyed digests and signatures: RFC 4231, Python's hmac, and the worked examples of AWS's documentation for S3.
use sig_v4::{hmac_sha256, signature, text_to_sign};
use std::test::Fail;

// Keys and texts as a byte and how often it stands, and the digest. Those of 20 to 131 bytes are cases of
// RFC 4231, the others are Python's.
const FILLED: [((u8, usize), (u8, usize), &str); 4] = [
    (
        (0xaa, 20),
        (0xdd, 50),
        "773ea91e36800e46854db8ebd09181a72959098b3ef8c122d9635514ced565fe",
    ),
    (
        (b'k', 64),
        (0, 0),
        "83026a325aaee70e36cfe607536aa1054104ad1077c36134810d4ccded1ccd3b",
    ),
    (
        (b'k', 65),
        (0, 0),
        "41f1c4cc3107cd5b8d92460f61032902bfdb06484eef17e861b83a5012d3b7f3",
    ),
    (
        (0, 0),
        (0, 0),
        "b613679a0814d9ec772f95d778c35fc5ff1697c493715653c6c712144292c5ad",
    ),
];

#[test]
fn hmac_of_filled_keys(rt: HostRuntime) -> Result<(), Fail> {
    for ((k, k_count), (t, t_count), digest) in FILLED {
        let (mut key, mut text) = (Vec::new(rt.alloc()), Vec::new(rt.alloc()));
        key.resize(k_count, k)?;
        text.resize(t_count, t)?;
        let hex = hex::encode(rt.alloc(), &hmac_sha256(&key, &text))?;
        assert_eq!(rt; hex.as_str(), digest);
    }
    Ok(())
}

// RFC 4231, cases 2, 6 and 7: the last two under a key of 131 bytes.
const TEXTS: [(bool, &[u8], &str); 3] = [
    (
        false,
        b"what do ya want for nothing?",
        "5bdcc146bf60754e6a042426089575c75a003f089d2739839dec58b964ec3843",
    ),
    (
        true,
        b"Test Using Larger Than Block-Size Key - Hash Key First",
        "60e431591ee0b67f0d8a26aacbf5b77f8e0bc6213728c5140546040f0ee37f54",
    ),
    (
        true,
        b"\
            This is a test using a larger than block-size key and a larger than block-size data. \
            The key needs to be hashed before being used by the HMAC algorithm.",
        "9b09ffa71b942fcb27635fbcd5b0e944bfdc63644f0713938a7f51535c3a35e2",
    ),
];

#[test]
fn hmac_vector(rt: HostRuntime) -> Result<(), Fail> {
    let mut long = Vec::new(rt.alloc());
    long.resize(131, 0xaau8)?;
    for (is_long, text, digest) in TEXTS {
        let key = if is_long { long.as_slice() } else { b"Jefe" };
        let hex = hex::encode(rt.alloc(), &hmac_sha256(key, text))?;
        assert_eq!(rt; hex.as_str(), digest);
    }
    Ok(())
}

const SECRET: &[u8] = b"wJalrXUtnFEMI/K7MDENG/bPxRfiCYEXAMPLEKEY";

// The canonical requests of AWS's examples (GET of an object with a range, PUT of an object, GET of a bucket's
// lifecycle, GET of a bucket's list), and their signatures.
const EXAMPLES: [(&[u8], &[u8]); 4] = [
    (
        b"\
            GET\n\
            /test.txt\n\n\
            host:examplebucket.s3.amazonaws.com\n\
            range:bytes=0-9\n\
            x-amz-content-sha256:e3b0c44298fc1c149afbf4c8996fb92427ae41e4649b934ca495991b7852b855\n\
            x-amz-date:20130524T000000Z\n\n\
            host;range;x-amz-content-sha256;x-amz-date\n\
            e3b0c44298fc1c149afbf4c8996fb92427ae41e4649b934ca495991b7852b855",
        b"f0e8bdb87c964420e857bd35b5d6ed310bd44f0170aba48dd91039c6036bdb41",
    ),
    (
        b"\
            PUT\n\
            /test%24file.text\n\n\
            date:Fri, 24 May 2013 00:00:00 GMT\n\
            host:examplebucket.s3.amazonaws.com\n\
            x-amz-content-sha256:44ce7dd67c959e0d3524ffac1771dfbba87d2b6b4b4e99e42034a8b803f8b072\n\
            x-amz-date:20130524T000000Z\n\
            x-amz-storage-class:REDUCED_REDUNDANCY\n\n\
            date;host;x-amz-content-sha256;x-amz-date;x-amz-storage-class\n\
            44ce7dd67c959e0d3524ffac1771dfbba87d2b6b4b4e99e42034a8b803f8b072",
        b"98ad721746da40c64f1a55b78f14c238d841ea1380cd77a1b5971af0ece108bd",
    ),
    (
        b"\
            GET\n\
            /\n\
            lifecycle=\n\
            host:examplebucket.s3.amazonaws.com\n\
            x-amz-content-sha256:e3b0c44298fc1c149afbf4c8996fb92427ae41e4649b934ca495991b7852b855\n\
            x-amz-date:20130524T000000Z\n\n\
            host;x-amz-content-sha256;x-amz-date\n\
            e3b0c44298fc1c149afbf4c8996fb92427ae41e4649b934ca495991b7852b855",
        b"fea454ca298b7da1c68078a5d1bdbfbbe0d65c699e0f91ac7a200a0136783543",
    ),
    (
        b"\
            GET\n\
            /\n\
            max-keys=2&prefix=J\n\
            host:examplebucket.s3.amazonaws.com\n\
            x-amz-content-sha256:e3b0c44298fc1c149afbf4c8996fb92427ae41e4649b934ca495991b7852b855\n\
            x-amz-date:20130524T000000Z\n\n\
            host;x-amz-content-sha256;x-amz-date\n\
            e3b0c44298fc1c149afbf4c8996fb92427ae41e4649b934ca495991b7852b855",
        b"34b48302e7b5fa45bde8084f4b7868a86f0a534bc59db6670ed5711ef69dc6f7",
    ),
];

#[test]
fn signatures_of_the_documentation(rt: HostRuntime) -> Result<(), Fail> {
    let alloc = rt.alloc();
    let (time, date, region) = (b"20130524T000000Z", b"20130524", b"us-east-1");
    for (request, expected) in EXAMPLES {
        let text = text_to_sign(alloc, time, date, region, request)?;
        let signature = signature(alloc, SECRET, date, region, text.as_slice())?;
        assert_eq!(rt; signature.as_slice(), expected);
    }
    Ok(())
}

// The text to sign of the first example.
const TEXT: &[u8] = b"\
    AWS4-HMAC-SHA256\n\
    20130524T000000Z\n\
    20130524/us-east-1/s3/aws4_request\n\
    7344ae5b7ee6c3e7e6b0fe0640412a37625d1fbfff95c48bbb2dc43964946972";

#[test]
fn text_of_the_documentation(rt: HostRuntime) -> Result<(), Fail> {
    let text = text_to_sign(
        rt.alloc(),
        b"20130524T000000Z",
        b"20130524",
        b"us-east-1",
        EXAMPLES[0].0,
    )?;
    assert_eq!(rt; text.as_slice(), TEXT);
    Ok(())
}
