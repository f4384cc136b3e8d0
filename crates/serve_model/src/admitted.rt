//! A request whose head nothing refuses.
use crdt_core::Bytes;
use s3_model::Ask;

/// Who asks by a head.
#[derive(Drop)]
pub struct Signer {
    /// The place of the key that signed it; none where nobody need sign.
    pub who: Option<usize>,
    /// The SHA-256 of the body in lower-case hexadecimal, where it was signed.
    pub digest: Option<Bytes>,
}

/// What a head asks that nothing in it refuses, and who asks it.
#[derive(Drop)]
pub struct Admitted {
    pub ask: Ask,
    /// The place of the key that signed it; none where nobody need sign.
    pub who: Option<usize>,
    /// The SHA-256 of the body in lower-case hexadecimal, where it was signed.
    pub digest: Option<Bytes>,
}
