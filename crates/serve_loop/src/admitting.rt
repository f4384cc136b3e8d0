//! What a head asks and who asks it, or the first refusal of a head.
ghost use Rattle.std.specs.Prelude.{◌≡◌, Some, Ok};
ghost use Rattle.s3_model.specs.Asks.{asked_of};
ghost use Rattle.serve_model.specs.Keys.{may_read as reads, may_write as writes, may as may_ask};
ghost use Rattle.serve_model.specs.Admitting.{code_of, if_allowed, IsSigner, Admits};

use crate::judging::has_bucket;
use http_wire::Head;
use layout_text::Access;
use s3_model::{Ask, AskFault, Code, S3Fault};
use s3_request::{head_fault, length_refusal, understand};
use serve_model::{Admitted, Signer};
use sig_v4::{Refusal, check};
use std::alloc::Global;

// Whether the key at a place reads a bucket.
fn is_read_by(access: &Access, place: usize, bucket: &[u8]) -> bool
    ensures { result ≡ reads access.now (Some place) bucket.now }
{
    match access.keys.get(place) {
        Some(key) => has_bucket(key.read.as_slice(), bucket),
        None => false,
    }
}

// Whether the key at a place writes in a bucket.
fn is_written_by(access: &Access, place: usize, bucket: &[u8]) -> bool
    ensures { result ≡ writes access.now (Some place) bucket.now }
{
    match access.keys.get(place) {
        Some(key) => has_bucket(key.write.as_slice(), bucket),
        None => false,
    }
}

/// Whether who asks may read a bucket.
pub(crate) fn may_read(access: &Access, who: Option<usize>, bucket: &[u8]) -> bool
    ensures { result ≡ reads access.now who bucket.now }
{
    match who {
        Some(place) => is_read_by(access, place, bucket),
        None => true,
    }
}

fn may_write(access: &Access, who: Option<usize>, bucket: &[u8]) -> bool
    ensures { result ≡ writes access.now who bucket.now }
{
    match who {
        Some(place) => is_written_by(access, place, bucket),
        None => true,
    }
}

// Whether who asks may do what is asked in the bucket that is asked.
fn may(access: &Access, who: Option<usize>, ask: &Ask) -> bool
    ensures { result ≡ may_ask access.now who ask.now }
{
    match ask {
        Ask::ListBuckets => true,
        Ask::HeadBucket(bucket)
        | Ask::BadList(bucket)
        | Ask::List { bucket, .. }
        | Ask::Get { bucket, .. }
        | Ask::Head { bucket, .. } => may_read(access, who, bucket.as_slice()),
        Ask::Delete { bucket, .. } | Ask::Put { bucket, .. } | Ask::Copy { bucket, .. } =>
            may_write(access, who, bucket.as_slice()),
    }
}

// The code with which a signature is refused.
fn code(refusal: Refusal) -> Code
    ensures { result ≡ code_of refusal }
{
    match refusal {
        Refusal::Unsigned | Refusal::Memory => Code::AccessDenied,
        Refusal::Malformed => Code::AuthorizationHeaderMalformed,
        Refusal::UnknownKey => Code::InvalidAccessKeyId,
        Refusal::Skewed => Code::RequestTimeTooSkewed,
        Refusal::WrongSignature => Code::SignatureDoesNotMatch,
    }
}

// Who signed a head, or why it is refused.
fn signer(alloc: Global, access: &Access, head: &Head, now: u64) -> Result<Signer, AskFault>
    ensures { IsSigner access.now now head.now result }
{
    if access.keys.is_empty() {
        return Ok(Signer {
            who: None,
            digest: None,
        });
    }
    let (keys, region) = (access.keys.as_slice(), access.region.as_slice());
    match check(alloc, head, keys, region, now) {
        Ok(signed) => Ok(Signer {
            who: Some(signed.place),
            digest: signed.digest,
        }),
        Err(Refusal::Memory) => Err(AskFault::Memory),
        Err(refusal) => Err(AskFault::Refused(head_fault(code(refusal)))),
    }
}

// An ask of somebody, if they may ask it and its length is in order.
fn if_allowed(access: &Access, head: &Head, asked: Admitted) -> Result<Admitted, S3Fault>
    ensures { result ≡ if_allowed access.now head.now asked }
{
    if !may(access, asked.who, &asked.ask) {
        return Err(head_fault(Code::AccessDenied));
    }
    match length_refusal(head, &asked.ask) {
        Some(fault) => Err(fault),
        None => Ok(asked),
    }
}

// Who asks what was understood of a head, or the first refusal of the head that is left.
fn admit_asked(
    alloc: Global,
    access: &Access,
    head: &Head,
    ask: Ask,
    now: u64,
) -> Result<Admitted, AskFault>
    requires { asked_of head.now ≡ Ok ask }
    ensures { Admits access.now now head.now result }
{
    match signer(alloc, access, head, now) {
        Ok(Signer { who, digest }) => {
            match if_allowed(access, head, Admitted { ask, who, digest }) {
                Ok(admitted) => Ok(admitted),
                Err(fault) => Err(AskFault::Refused(fault)),
            }
        }
        Err(fault) => Err(fault),
    }
}

/// What a head asks and who asks it, at a time in milliseconds; or the first refusal that applies, in this order: what it
/// asks isn't served, its signature, whether its key may ask it, its length.
pub(crate) fn admit(
    alloc: Global,
    access: &Access,
    head: &Head,
    now: u64,
) -> Result<Admitted, AskFault>
    ensures { Admits access.now now head.now result }
{
    match understand(head) {
        Ok(ask) => admit_asked(alloc, access, head, ask, now),
        Err(fault) => Err(fault),
    }
}
