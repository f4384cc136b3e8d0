//! What is signed of a body.
ghost use Rattle.std.specs.Prelude.{◌≡◌, ℕ, List, IfOk};
ghost use Rattle.sha2.specs.Sha256.{sha256};
ghost use Rattle.crdt_core.specs.Outcomes.{OnlyWant};
ghost use Rattle.sig_v4.specs.Bodies as spec;

use crate::signing::hexadecimal;
use crdt_core::{Bytes, Memory};
use sha2::{Digest, Sha256};
use std::alloc::Global;

/// The digest of the body, which is said to be this, where the body is signed.
pub(crate) fn digest_of(payload: Bytes) -> Option<Bytes>
    ensures { result ≡ spec.digest_of payload }
{
    if payload.as_slice() == b"UNSIGNED-PAYLOAD".as_slice() {
        None
    } else {
        Some(payload)
    }
}

/// Whether a body has this digest: its SHA-256 in lower-case hexadecimal.
pub fn is_body_of(alloc: Global, digest: &[u8], body: &[u8]) -> Result<bool, Memory>
    ensures same { IfOk result (λ same. same ≡ spec.is_body_of digest.now body.now) }
    ensures want { OnlyWant result }
{
    is_sha256(alloc, digest, &Sha256::digest(body))
}

/// The same of a body of which the SHA-256 is known.
pub fn is_sha256(alloc: Global, digest: &[u8], sum: &[u8; 32]) -> Result<bool, Memory>
    ensures same { IfOk result (λ same. (body : List ℕ) → sum.now ≡ sha256 body →
        same ≡ spec.is_body_of digest.now body) }
    ensures want { OnlyWant result }
{
    let due = hexadecimal(alloc, sum)?;
    Ok(digest == due.as_slice())
}
