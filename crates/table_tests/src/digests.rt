//! Digests from outside: of the RFC, and of Python's hashlib.
use blake2_hash::{Blake2b, Hash32, blake2b, blake2b_256};
use std::test::Fail;

const MESSAGE_LEN: usize = 1000;

// Byte i is i modulo 251.
fn message() -> [u8; MESSAGE_LEN] {
    let mut message = [0u8; MESSAGE_LEN];
    for i in 0..MESSAGE_LEN {
        message[i] = (i % 251) as u8;
    }
    message
}

// RFC 7693, appendix A.
#[test]
fn blake2b_abc(rt: HostRuntime) -> Result<(), Fail> {
    let mut digest = [0u8; 64];
    blake2b(b"abc", &mut digest);
    let expected =
        "ba80a53f981c4d0d6a2797b69f12f6e94c212f14685ac4b74b12bb6fdbffa2d17d87c5392aab792dc252d5de4533cc9518d38aa8dbf1925ab92386edd4009923";
    assert_eq!(rt; hex::encode(rt.alloc(), &digest)?.as_str(), expected);
    Ok(())
}

// Lengths of messages, and their digests of 32 bytes.
const DIGESTS: [(usize, &str); 8] = [
    (
        0,
        "0e5751c026e543b2e8ab2eb06099daa1d1e5df47778f7787faab45cdf12fe3a8",
    ),
    (
        1,
        "03170a2e7597b7b7e3d84c05391d139a62b157e78786d8c082f29dcf4c111314",
    ),
    (
        127,
        "f2fe67ff342e21b8f45e8f2e0bcd1d9243245d50ee6c78042e9c491388791c72",
    ),
    (
        128,
        "c3582f71ebb2be66fa5dd750f80baae97554f3b015663c8be377cfcb2488c1d1",
    ),
    (
        129,
        "f7f3c46ba2564ff4c4c162da1f5b605f9f1c4aa6a20652a9f9a337c1a2f5b9c9",
    ),
    (
        255,
        "d9ef0fc521b4266d16df662bec231bc2ec3989e7adeaf63169c295dc239dbbea",
    ),
    (
        256,
        "582f782226018ec33076bd8d1c42413530ac7e1126260ffc0f306ba3befc3f24",
    ),
    (
        1000,
        "b372d0608f720c8c3dd41e9c8eecb10143b41abe520b616607e754bf79c08331",
    ),
];

#[test]
fn digests_by_length(rt: HostRuntime) -> Result<(), Fail> {
    let message = message();
    for (len, expected) in DIGESTS {
        let digest = blake2b_256(&message[..len.min(MESSAGE_LEN)]);
        assert_eq!(rt; hex::encode(rt.alloc(), &digest.0)?.as_str(), expected);
    }
    Ok(())
}

fn in_pieces(message: &[u8]) -> Hash32 {
    let mut hasher = Blake2b::new();
    for piece in message.chunks(129) {
        hasher.update(piece);
    }
    hasher.finish()
}

#[test]
fn digest_of_pieces(rt: HostRuntime) {
    let message = message();
    assert!(rt; in_pieces(&message) == blake2b_256(&message));
}
