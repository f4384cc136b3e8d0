//! What a head says of its connection.
ghost use Rattle.std.specs.Prelude.{◌≡◌, ◌&&◌, codes};
ghost use Rattle.std.specs.List.{list_any};
ghost use Rattle.s3_model.specs.Connections.{closes as closes_of, expects as expects_of};
ghost use Rattle.s3_model.specs.Words.{is_word as is_word_of, holds_word as holds_word_of};

use crate::word::{holds_word, is_word};
use crdt_core::Bytes;
use http_model::Head;

fn asks_to_close(headers: &[(Bytes, Bytes)]) -> bool
    ensures { result ≡ list_any
        (λ h. is_word_of h.0 (codes "connection") && holds_word_of h.1
        (codes "close")) headers.now }
{
    headers.iter().any(|h| is_word(h.0.as_slice(), b"connection")
        && holds_word(h.1.as_slice(), b"close"))
}

fn asks_to_wait(headers: &[(Bytes, Bytes)]) -> bool
    ensures { result ≡ list_any
        (λ h. is_word_of h.0 (codes "expect") && is_word_of h.1
        (codes "100-continue")) headers.now }
{
    headers.iter().any(|h| is_word(h.0.as_slice(), b"expect")
        && is_word(h.1.as_slice(), b"100-continue"))
}

/// The connection closes after the answer, since the request asks for it: it is of HTTP/1.0, or a Connection header
/// holds `close`.
pub fn closes(head: &Head) -> bool
    ensures { result ≡ closes_of head.now }
{
    head.minor == 0 || asks_to_close(head.headers.as_slice())
}

/// The client waits for `100 Continue` before it sends the body, if there is one (RFC 9110, section 10.1.1).
pub fn expects(head: &Head) -> bool
    ensures { result ≡ expects_of head.now }
{
    head.minor != 0 && asks_to_wait(head.headers.as_slice())
}
