//! What a request says of its signature.
ghost use Rattle.std.specs.Prelude.{◌≡◌, [], ◌∷◌, ◌&&◌, codes, IfOk};
ghost use Rattle.crdt_core.specs.Outcomes.{OnlyWant};
ghost use Rattle.sig_request.specs.Fields.{values_of as fields_named};
ghost use Rattle.sig_request.specs.Texts.{parts as parts_of};
ghost use Rattle.layout_roles.specs.Zones.{same_name};
ghost use Rattle.sig_v4.specs.Claims as spec;
ghost use Rattle.sig_v4.specs.Checks.{Answers};

use crate::clock::seconds_of;
use crate::refusal::Refusal;
use crdt_core::{Bytes, Memory};
use sig_request::{behind, is_digest, may_be_signed, parts, unspaced, values_of};
use std::alloc::Global;

/// The parts of an Authorization header's value.
#[derive(Debug, Drop)]
pub struct Authorization {
    pub credential: Bytes,
    pub names: Bytes,
    pub signature: Bytes,
}

/// What the headers of a request say of its signature, where they are well-formed.
#[derive(Debug, Drop)]
pub struct Claim {
    /// Whose key signed it.
    pub id: Bytes,
    /// When, as `YYYYMMDDTHHMMSSZ`.
    pub time: Bytes,
    /// The same in seconds, from the first day of jiff's calendar on.
    pub seconds: u64,
    /// The names of the signed headers, with `;` between.
    pub names: Bytes,
    /// What is said of the body: its SHA-256, or `UNSIGNED-PAYLOAD`.
    pub payload: Bytes,
    /// 64 hexadecimal digits.
    pub signature: Bytes,
}

// The value of the one Authorization header.
fn lone_value(alloc: Global, fields: &[(Bytes, Bytes)]) -> Result<Bytes, Refusal>
    ensures { Answers (spec.lone_value (fields_named (codes "authorization") fields.now)) result }
{
    let values = values_of(alloc, b"authorization", fields)?;
    match values.as_slice() {
        [] => Err(Refusal::Unsigned),
        [value] => Ok(Bytes::from_slice(alloc, value.as_slice())?),
        _ => Err(Refusal::Malformed),
    }
}

// The three parts of the header's value, in this order.
fn three_parts(
    alloc: Global,
    first: &[u8],
    second: &[u8],
    third: &[u8],
) -> Result<Option<Authorization>, Memory>
    ensures parts { IfOk result
        (λ found. found ≡ spec.authorization_of (first.now ∷ second.now ∷ third.now ∷ [])) }
    ensures want { OnlyWant result }
{
    let credential = behind(b"AWS4-HMAC-SHA256 Credential=", first);
    let names = behind(b"SignedHeaders=", unspaced(second));
    let signature = behind(b"Signature=", unspaced(third));
    match (credential, names, signature) {
        (Some(credential), Some(names), Some(signature)) => Ok(Some(Authorization {
            credential: Bytes::from_slice(alloc, credential)?,
            names: Bytes::from_slice(alloc, names)?,
            signature: Bytes::from_slice(alloc, signature)?,
        })),
        _ => Ok(None),
    }
}

fn authorization_of(alloc: Global, value: &[u8]) -> Result<Option<Authorization>, Memory>
    ensures parts { IfOk result (λ found. found ≡ spec.authorization_of (parts_of 44 value.now)) }
    ensures want { OnlyWant result }
{
    let parts = parts(alloc, b',', value)?;
    match parts.as_slice() {
        [first, second, third] => three_parts(
            alloc,
            first.as_slice(),
            second.as_slice(),
            third.as_slice(),
        ),
        _ => Ok(None),
    }
}

#[tactic(auto, unfolding(crate::specs::Claims::authorization_in))]
fn authorization_in(alloc: Global, fields: &[(Bytes, Bytes)]) -> Result<Authorization, Refusal>
    ensures { Answers (spec.authorization_in fields.now) result }
{
    let value = lone_value(alloc, fields)?;
    match authorization_of(alloc, value.as_slice())? {
        Some(authorization) => Ok(authorization),
        None => Err(Refusal::Malformed),
    }
}

// Whether the parts of a credential are this day and this region.
fn is_of(day: &[u8], region: &[u8], first: &Bytes, second: &Bytes) -> bool
    ensures { result ≡ (same_name first.now day.now && same_name second.now region.now) }
{
    first.as_slice() == day && second.as_slice() == region
}

// Whether the last parts of a credential are those of S3.
fn are_last(third: &Bytes, fourth: &Bytes) -> bool
    ensures { result ≡ (same_name third.now (codes "s3") && same_name fourth.now
        (codes "aws4_request")) }
{
    third.as_slice() == b"s3".as_slice() && fourth.as_slice() == b"aws4_request".as_slice()
}

// The id of a credential for this day and this region.
fn credential_id(
    alloc: Global,
    day: &[u8],
    region: &[u8],
    credential: &[u8],
) -> Result<Option<Bytes>, Memory>
    ensures id { IfOk result (λ id. id ≡ spec.credential_id day.now region.now
        (parts_of 47 credential.now)) }
    ensures want { OnlyWant result }
{
    let parts = parts(alloc, b'/', credential)?;
    match parts.as_slice() {
        [id, first, second, third, fourth] => {
            if is_of(day, region, first, second) && are_last(third, fourth) {
                let id = Bytes::from_slice(alloc, id.as_slice())?;
                Ok(Some(id))
            } else {
                Ok(None)
            }
        }
        _ => Ok(None),
    }
}

// The first value that a header has.
fn first_value(
    alloc: Global,
    name: &[u8],
    fields: &[(Bytes, Bytes)],
) -> Result<Option<Bytes>, Memory>
    ensures value { IfOk result (λ value. value ≡ spec.first_value name.now fields.now) }
    ensures want { OnlyWant result }
{
    let values = values_of(alloc, name, fields)?;
    match values.get(0) {
        Some(value) => {
            let value = Bytes::from_slice(alloc, value.as_slice())?;
            Ok(Some(value))
        }
        None => Ok(None),
    }
}

fn is_payload(text: &[u8]) -> bool
    ensures { result ≡ spec.is_payload text.now }
{
    text == b"UNSIGNED-PAYLOAD".as_slice() || is_digest(text)
}

// What is said of the body.
fn payload_in(alloc: Global, fields: &[(Bytes, Bytes)]) -> Result<Option<Bytes>, Memory>
    ensures payload { IfOk result (λ payload. payload ≡ spec.payload_in fields.now) }
    ensures want { OnlyWant result }
{
    match first_value(alloc, b"x-amz-content-sha256", fields)? {
        Some(text) if is_payload(text.as_slice()) => Ok(Some(text)),
        _ => Ok(None),
    }
}

/// The day of a time.
pub(crate) fn day_of(time: &[u8]) -> &[u8]
    ensures { result.now ≡ spec.day_of time.now }
{
    if time.len() < 8 { time } else { &time[..8] }
}

#[tactic(auto, unfolding(crate::specs::Claims::is_signed_list))]
// Whether the names may be signed, and the signature has its form.
fn is_signed_list(
    alloc: Global,
    fields: &[(Bytes, Bytes)],
    authorization: &Authorization,
) -> Result<bool, Memory>
    ensures fine { IfOk result (λ fine. fine ≡ spec.is_signed_list fields.now authorization.now) }
    ensures want { OnlyWant result }
{
    let names = parts(alloc, b';', authorization.names.as_slice())?;
    Ok(may_be_signed(fields, names.as_slice()) && is_digest(authorization.signature.as_slice()))
}

#[tactic(auto, unfolding(crate::specs::Claims::claim_in))]
/// What the headers claim: the key's id, the time, the signed names, what is said of the body, the signature.
pub(crate) fn claim_in(
    alloc: Global,
    region: &[u8],
    fields: &[(Bytes, Bytes)],
) -> Result<Claim, Refusal>
    ensures { Answers (spec.claim_in region.now fields.now) result }
{
    let authorization = authorization_in(alloc, fields)?;
    let time = first_value(alloc, b"x-amz-date", fields)?.ok_or(Refusal::Malformed)?;
    let seconds = seconds_of(time.as_slice()).ok_or(Refusal::Malformed)?;
    let credential = authorization.credential.as_slice();
    let id = credential_id(alloc, day_of(time.as_slice()), region, credential)?;
    let id = id.ok_or(Refusal::Malformed)?;
    let payload = payload_in(alloc, fields)?.ok_or(Refusal::Malformed)?;
    if is_signed_list(alloc, fields, &authorization)? {
        Ok(Claim {
            id,
            time,
            seconds,
            names: authorization.names,
            payload,
            signature: authorization.signature,
        })
    } else {
        Err(Refusal::Malformed)
    }
}
