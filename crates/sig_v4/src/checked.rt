//! The check of a signed request.
ghost use Rattle.std.specs.Prelude.{◌≡◌, ◌<◌, ◌==◌, length, IfOk, IfSome};
ghost use Rattle.crdt_core.specs.Outcomes.{OnlyWant};
ghost use Rattle.layout_roles.specs.Zones.{same_name};
ghost use Rattle.sig_v4.specs.Checks as spec;
ghost use Rattle.sig_v4.specs.Checks.{Answers};

use crate::body::digest_of;
use crate::claim::{Claim, claim_in, day_of};
use crate::clock::is_skewed;
use crate::refusal::Refusal;
use crate::signed::Signed;
use crate::signing::{signature, text_to_sign};
use crdt_core::{Bytes, Memory};
use http_model::Head;
use layout_text::Key;
use sig_request::{canonical_request, fields_of};
use std::alloc::Global;

// The differences of texts of one length, all in one byte. Each byte is looked at, wherever they differ.
fn differences(given: &[u8], due: &[u8]) -> u8
    requires { length given.now ≡ length due.now }
    ensures { (result == 0) ≡ same_name given.now due.now }
{
    let mut difference = 0u8;
    for (i, byte) in given.iter().enumerate() {
        difference |= *byte ^ due[i];
    }
    difference
}

// Whether two texts are the same, in a time that depends on their lengths alone, so that nobody learns from it
// how much of a guess was right.
fn is_same(given: &[u8], due: &[u8]) -> bool
    ensures { result ≡ same_name given.now due.now }
{
    given.len() == due.len() && differences(given, due) == 0
}

#[tactic(auto, unfolding(crate::specs::Checks::due_signature))]
// The signature that a request must have under a secret.
fn due_signature(
    alloc: Global,
    head: &Head,
    secret: &[u8],
    region: &[u8],
    claim: &Claim,
) -> Result<Bytes, Memory>
    ensures signature { IfOk result
        (λ due. due ≡ spec.due_signature head.now secret.now region.now claim.now) }
    ensures want { OnlyWant result }
{
    let time = claim.time.as_slice();
    let day = day_of(time);
    let request = canonical_request(
        alloc,
        head,
        claim.names.as_slice(),
        claim.payload.as_slice(),
    )?;
    let text = text_to_sign(alloc, time, day, region, request.as_slice())?;
    let due = signature(alloc, secret, day, region, text.as_slice())?;
    Ok(due)
}

// Whether a request has another signature than the one that it must have.
fn is_forged(
    alloc: Global,
    head: &Head,
    secret: &[u8],
    region: &[u8],
    claim: &Claim,
) -> Result<bool, Memory>
    ensures forged { IfOk result
        (λ forged. forged ≡ spec.is_forged head.now secret.now region.now claim.now) }
    ensures want { OnlyWant result }
{
    let due = due_signature(alloc, head, secret, region, claim)?;
    Ok(!is_same(claim.signature.as_slice(), due.as_slice()))
}

fn place_of(keys: &[Key], id: &[u8]) -> Option<usize>
    ensures place { result ≡ spec.place_of keys.now id.now }
    ensures within { IfSome result (λ place. place < length keys.now) }
{
    keys.iter().position(|key| key.id.as_slice() == id)
}

fn secret_at(keys: &[Key], place: usize) -> &[u8]
    ensures { result.now ≡ spec.secret_at keys.now place }
{
    match keys.get(place) {
        Some(key) => key.secret.as_slice(),
        None => &[],
    }
}

#[tactic(auto, unfolding(crate::specs::Checks::checked))]
/// The place of the key that signed a request, among keys with different ids, and the digest of the body that it
/// signed; or the first of the refusals, in the order of `Refusal`, that applies. `region` is the server's own, `now` is
/// in milliseconds since 1970. The body isn't looked at.
pub fn check(
    alloc: Global,
    head: &Head,
    keys: &[Key],
    region: &[u8],
    now: u64,
) -> Result<Signed, Refusal>
    ensures checked { Answers (spec.checked head.now keys.now region.now now) result }
    ensures within { IfOk result (λ signed. signed.place < length keys.now) }
{
    let fields = fields_of(alloc, head)?;
    let claim = claim_in(alloc, region, fields.as_slice())?;
    let place = place_of(keys, claim.id.as_slice()).ok_or(Refusal::UnknownKey)?;
    if is_skewed(now, claim.seconds) {
        return Err(Refusal::Skewed);
    }
    if is_forged(alloc, head, secret_at(keys, place), region, &claim)? {
        return Err(Refusal::WrongSignature);
    }
    let digest = digest_of(claim.payload);
    Ok(Signed { place, digest })
}
