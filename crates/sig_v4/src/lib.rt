//! AWS Signature Version 4, as S3 requests are signed by it: which key signed a request, or why it is refused.
//!
//! `hmac_sha256` is HMAC (RFC 2104) over SHA-256. `text_to_sign` puts a request's time, scope and digest under
//! one another, and `signature` signs a text under a secret, for a day and a region. `check` reads the head of a
//! request: what it claims (`claim`), when (`clock`, where `jiff` reads the date), and whether its signature is that
//! of its canonical form; it answers the place of the key and the digest of the body that was signed, or the first
//! refusal that applies; `is_body_of` compares that digest with a body. No text that these calls give has a secret in
//! it.
#![tactic(auto)]

mod body;
mod checked;
mod claim;
mod clock;
mod mac;
mod refusal;
mod signed;
mod signing;

pub use crate::body::{is_body_of, is_sha256};
pub use crate::checked::check;
pub use crate::mac::hmac_sha256;
pub use crate::refusal::Refusal;
pub use crate::signed::Signed;
pub use crate::signing::{signature, text_to_sign};
