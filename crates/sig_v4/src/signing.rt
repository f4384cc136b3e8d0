//! Signatures of texts.
ghost use Rattle.std.specs.Prelude.{◌≡◌, ◌++◌, codes, IfOk};
ghost use Rattle.crdt_core.specs.Outcomes.{OnlyWant};
ghost use Rattle.hex.specs.Hex.{encode_lower};
ghost use Rattle.sig_v4.specs.Signing as signing;

use crate::mac::hmac_sha256;
use crdt_core::{Bytes, Memory};
use sha2::{Digest, Sha256};
use std::alloc::Global;

/// Bytes in hexadecimal, in lower case.
pub(crate) fn hexadecimal(alloc: Global, bytes: &[u8]) -> Result<Bytes, Memory>
    ensures text { IfOk result (λ text. text ≡ encode_lower bytes.now) }
    ensures want { OnlyWant result }
{
    let text = hex::encode(alloc, bytes)?;
    Bytes::from_slice(alloc, text.as_bytes())
}

/// What a key of a day and a region may sign: `DATE/REGION/s3/aws4_request`.
fn scope(alloc: Global, date: &[u8], region: &[u8]) -> Result<Bytes, Memory>
    ensures text { IfOk result (λ text. text ≡ signing.scope date.now region.now) }
    ensures want { OnlyWant result }
{
    let mut text = Bytes::from_slice(alloc, date)?;
    text.extend_from_slice(b"/")?;
    text.extend_from_slice(region)?;
    text.extend_from_slice(b"/s3/aws4_request")?;
    Ok(text)
}

/// The algorithm's line, and the line of the time.
fn first_lines(alloc: Global, time: &[u8]) -> Result<Bytes, Memory>
    ensures text { IfOk result
        (λ text. text ≡ codes "AWS4-HMAC-SHA256\n" ++ time.now ++ codes "\n") }
    ensures want { OnlyWant result }
{
    let mut text = Bytes::from_slice(alloc, b"AWS4-HMAC-SHA256\n")?;
    text.extend_from_slice(time)?;
    text.extend_from_slice(b"\n")?;
    Ok(text)
}

/// The text to sign for a canonical request. `time` is `YYYYMMDDTHHMMSSZ`, `date` its day, `YYYYMMDD`.
pub fn text_to_sign(
    alloc: Global,
    time: &[u8],
    date: &[u8],
    region: &[u8],
    request: &[u8],
) -> Result<Bytes, Memory>
    ensures text { IfOk result
        (λ text. text ≡ signing.text_to_sign time.now date.now region.now request.now) }
    ensures want { OnlyWant result }
{
    let scope = scope(alloc, date, region)?;
    let digest = Sha256::digest(request);
    let digest = hexadecimal(alloc, &digest)?;
    let mut text = first_lines(alloc, time)?;
    text.extend_from_slice(scope.as_slice())?;
    text.extend_from_slice(b"\n")?;
    text.extend_from_slice(digest.as_slice())?;
    Ok(text)
}

/// The key for a day, a region and S3.
fn signing_key(alloc: Global, secret: &[u8], date: &[u8], region: &[u8]) -> Result<[u8; 32], Memory>
    ensures key { IfOk result (λ key. key ≡ signing.signing_key secret.now date.now region.now) }
    ensures want { OnlyWant result }
{
    let mut first = Bytes::from_slice(alloc, b"AWS4")?;
    first.extend_from_slice(secret)?;
    let of_day = hmac_sha256(first.as_slice(), date);
    let of_region = hmac_sha256(&of_day, region);
    let of_service = hmac_sha256(&of_region, b"s3");
    Ok(hmac_sha256(&of_service, b"aws4_request"))
}

/// The signature of a text under a secret, for a day and a region: 64 hexadecimal digits.
pub fn signature(
    alloc: Global,
    secret: &[u8],
    date: &[u8],
    region: &[u8],
    text: &[u8],
) -> Result<Bytes, Memory>
    ensures signature { IfOk result
        (λ s. s ≡ signing.signature secret.now date.now region.now text.now) }
    ensures want { OnlyWant result }
{
    let key = signing_key(alloc, secret, date, region)?;
    let digest = hmac_sha256(&key, text);
    hexadecimal(alloc, &digest)
}
