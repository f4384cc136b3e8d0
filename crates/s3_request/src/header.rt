//! The headers of a request: those that aren't served, and the length that they announce.
ghost use Rattle.std.specs.Prelude.{◌≡◌, ◌&&◌, ◌||◌, not, codes, bytes_eq};
ghost use Rattle.std.specs.List.{list_all};
ghost use Rattle.s3_model.specs.Headers.{has_refused_name, has_refused_value, has_refused_header, is_bad_length, length_of, put_length};
ghost use Rattle.s3_model.specs.Numbers.{is_number as is_number_of, digit_limit};
ghost use Rattle.s3_model.specs.Words.{is_word as is_word_of};

use crate::number::{DIGIT_LIMIT, is_number, number};
use crate::pieces::holds;
use crate::word::{begins_word, header, holds_word, is_one_of, is_word};
use crdt_core::Bytes;
use http_model::Head;

/// Headers that ask for what isn't served: parts of a body, and conditions.
const REFUSED: [&[u8]; 6] = [
    b"transfer-encoding",
    b"if-match",
    b"if-none-match",
    b"if-modified-since",
    b"if-unmodified-since",
    b"if-range",
];

// The name alone asks for what isn't served.
fn has_refused_name(name: &[u8]) -> bool
    ensures { result ≡ has_refused_name name.now }
{
    is_one_of(&REFUSED, name)
        || begins_word(name, b"x-amz-server-side-encryption")
        || begins_word(name, b"x-amz-copy-source-if")
}

// The value does: a body in signed pieces, or a copy of one version.
fn has_refused_value(name: &[u8], value: &[u8]) -> bool
    ensures { result ≡ has_refused_value name.now value.now }
{
    (is_word(name, b"x-amz-content-sha256") && begins_word(value, b"STREAMING-"))
        || (is_word(name, b"content-encoding") && holds_word(value, b"aws-chunked"))
        || (is_word(name, b"x-amz-copy-source") && holds(value, b'?'))
}

/// Some header asks for what isn't served.
pub(crate) fn has_refused_header(headers: &[(Bytes, Bytes)]) -> bool
    ensures { result ≡ has_refused_header headers.now }
{
    headers.iter().any(|h| {
        has_refused_name(h.0.as_slice()) || has_refused_value(h.0.as_slice(), h.1.as_slice())
    })
}

// Each announced length is a number, and is this text.
fn are_lengths(headers: &[(Bytes, Bytes)], text: &[u8]) -> bool
    ensures { result ≡ list_all
        (λ h. not (is_word_of h.0 (codes "content-length")) ||
        (is_number_of digit_limit h.1 && bytes_eq text.now h.1)) headers.now }
{
    headers.iter().all(|h| {
        !is_word(h.0.as_slice(), b"content-length")
            || (is_number(h.1.as_slice(), DIGIT_LIMIT) && text == h.1.as_slice())
    })
}

/// An announced length isn't a number, or two of them differ.
pub(crate) fn is_bad_length(headers: &[(Bytes, Bytes)]) -> bool
    ensures { result ≡ is_bad_length headers.now }
{
    match header(headers, b"content-length") {
        Some(text) => !are_lengths(headers, text),
        None => false,
    }
}

/// The length in bytes of the body that follows a head. Without a Content-Length it is 0, and so it is where the
/// first one isn't 1 to 18 digits, which `length_refusal` refuses.
pub fn announced(head: &Head) -> u64
    ensures { result ≡ length_of head.now.headers }
{
    match header(head.headers.as_slice(), b"content-length") {
        Some(text) => number(text, DIGIT_LIMIT).unwrap_or(0),
        None => 0,
    }
}

/// The length of an upload, 0 where none is announced that is in order.
pub(crate) fn put_length(head: &Head) -> u64
    ensures { result ≡ put_length head.now.headers }
{
    if is_bad_length(head.headers.as_slice()) {
        0
    } else {
        announced(head)
    }
}
