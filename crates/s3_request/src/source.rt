//! What is judged once a request's bucket is known: where a copy comes from, and the digest of a body.
ghost use Rattle.std.specs.Prelude.{◌≡◌, ℕ, List, IfOk, option_map};
ghost use Rattle.md5.specs.Md5.{md5};
ghost use Rattle.crdt_core.specs.Outcomes.{OnlyWant};
ghost use Rattle.s3_model.specs.Sources.{past_slash as past, source_in as source_within, source_of, is_digest_of};

use crate::pieces::{after, before, decoded, holds};
use base64::engine::general_purpose::STANDARD;
use crdt_core::{Bytes, Memory};
use md5::{Digest, Md5};
use std::alloc::Global;

// A text without one slash in front.
fn past_slash(text: &[u8]) -> &[u8]
    ensures { result.now ≡ past text.now }
{
    text.strip_prefix(b"/".as_slice()).unwrap_or(text)
}

// A bucket and a key, on both sides of the first slash.
fn source_in(alloc: Global, text: &[u8]) -> Result<Option<(Bytes, Bytes)>, Memory>
    ensures same { IfOk result (λ source. source ≡ source_within text.now) }
    ensures want { OnlyWant result }
{
    if !holds(text, b'/') {
        return Ok(None);
    }
    let bucket = Bytes::from_slice(alloc, before(text, b'/'))?;
    let key = Bytes::from_slice(alloc, after(text, b'/'))?;
    Ok(Some((bucket, key)))
}

/// The bucket and the key that the value of x-amz-copy-source names. There are none where no slash stands between
/// them, which is `InvalidArgument`.
pub fn copy_source(from: &Bytes) -> Result<Option<(Bytes, Bytes)>, Memory>
    ensures same { IfOk result (λ source. source ≡ source_of from.now) }
    ensures want { OnlyWant result }
{
    let alloc = from.allocator();
    let text = decoded(alloc, from.as_slice())?;
    let source = source_in(alloc, past_slash(text.as_slice()))?;
    Ok(source)
}

/// The value of Content-MD5 is that of the body: the base64 of its MD5 digest (RFC 1864).
pub fn is_digest(value: &Bytes, body: &[u8]) -> Result<bool, Memory>
    ensures same { IfOk result (λ same. same ≡ is_digest_of value.now body.now) }
    ensures want { OnlyWant result }
{
    is_md5(value, &Md5::digest(body))
}

/// The same of a body of which the MD5 digest is known.
pub fn is_md5(value: &Bytes, digest: &[u8; 16]) -> Result<bool, Memory>
    ensures same { IfOk result (λ same. (body : List ℕ) → digest.now ≡ md5 body →
        same ≡ is_digest_of value.now body) }
    ensures want { OnlyWant result }
{
    let text = STANDARD.encode(value.allocator(), digest)?;
    Ok(value.as_slice() == text.as_bytes())
}
