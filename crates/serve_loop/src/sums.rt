//! The digests of a body that comes part by part.
ghost use Rattle.std.specs.Prelude.{◌≡◌, ℕ, List, [], ◌++◌, option_map, IfOk};
ghost use Rattle.crdt_core.specs.Outcomes.{OnlyWant};
ghost use Rattle.serve_model.specs.declared.request.Request.{Request as Asked};
ghost use Rattle.serve_model.specs.Judging.{differs as other_body};
ghost use Rattle.serve_loop.specs.Sums.{IsMd5Of, IsSha256Of, AreSums, sent_md5 as sent_with, is_other_md5, refusal_of_sums};

use crdt_core::{Bytes, Memory};
use md5::{Digest as Summing, Md5};
use s3_model::{Ask, Code};
use s3_request::is_md5;
use serve_model::Request;
use sha2::{Digest as Hashing, Sha256};
use sig_v4::is_sha256;
use std::alloc::Global;

/// The digests of the bytes of a body that have come: those that its request says.
#[derive(Drop)]
pub(crate) struct Sums {
    md5: Option<Md5>,
    sha256: Option<Sha256>,
}

// The Content-MD5 that was sent with an upload.
fn sent_md5(ask: &Ask) -> Option<&Bytes>
    ensures { option_map (λ b. b.now) result ≡ sent_with ask.now }
{
    match ask {
        Ask::Put { md5, .. } => md5.as_ref(),
        _ => None,
    }
}

// The MD5 of the body isn't the one that was sent.
fn is_other_md5(sent: Option<&Bytes>, hasher: Option<Md5>) -> Result<bool, Memory>
    ensures same { IfOk result (λ other. (bytes : List ℕ) →
        IsMd5Of (option_map (λ b. b.now) sent.entry) hasher bytes →
        other ≡ is_other_md5 (option_map (λ b. b.now) sent.entry) bytes) }
    ensures want { OnlyWant result }
{
    match (sent, hasher) {
        (Some(sent), Some(hasher)) => Ok(!is_md5(sent, &hasher.finalize())?),
        _ => Ok(false),
    }
}

// The SHA-256 of the body isn't the one that was signed.
fn is_other_sha256(
    alloc: Global,
    signed: &Option<Bytes>,
    hasher: Option<Sha256>,
) -> Result<bool, Memory>
    ensures same { IfOk result (λ other. (bytes : List ℕ) → IsSha256Of signed.now hasher bytes →
        other ≡ other_body signed.now bytes) }
    ensures want { OnlyWant result }
{
    match (signed, hasher) {
        (Some(signed), Some(hasher)) => Ok(!is_sha256(
            alloc,
            signed.as_slice(),
            &hasher.finalize(),
        )?),
        _ => Ok(false),
    }
}

impl Sums {
    /// Of no bytes.
    pub(crate) fn new(request: &Request) -> Sums
        ensures { AreSums request.now result [] }
    {
        let md5 = match sent_md5(&request.ask) {
            Some(_) => Some(Md5::new()),
            None => None,
        };
        let sha256 = match &request.digest {
            Some(_) => Some(Sha256::new()),
            None => None,
        };
        Sums { md5, sha256 }
    }

    /// The next bytes came.
    pub(crate) fn add(&mut self, part: &[u8])
        ensures { (r : Asked) (bytes : List ℕ) → AreSums r self.old bytes →
            AreSums r self.new (bytes ++ part.now) }
    {
        if let Some(hasher) = &mut self.md5 {
            hasher.update(part);
        }
        if let Some(hasher) = &mut self.sha256 {
            hasher.update(part);
        }
    }

    /// The refusal of a body that has another digest than its request says.
    pub(crate) fn refusal(self, alloc: Global, request: &Request) -> Result<Option<Code>, Memory>
        ensures same { IfOk result (λ code. (bytes : List ℕ) → AreSums request.now self bytes →
            code ≡ refusal_of_sums request.now bytes) }
        ensures want { OnlyWant result }
    {
        let Sums { md5, sha256 } = self;
        if is_other_sha256(alloc, &request.digest, sha256)? {
            return Ok(Some(Code::XAmzContentSHA256Mismatch));
        }
        if is_other_md5(sent_md5(&request.ask), md5)? {
            return Ok(Some(Code::BadDigest));
        }
        Ok(None)
    }
}
