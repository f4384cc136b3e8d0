//! Texts, cut at a byte.
ghost use Rattle.std.specs.Prelude.{◌≡◌, ◌==◌, ◌≤◌, length, IfOk};
ghost use Rattle.std.specs.List.{list_any, position_or_len, before_first, after_first};
ghost use Rattle.percent_encoding.specs.Percent.{percent_decode};
ghost use Rattle.crdt_core.specs.Outcomes.{OnlyWant};

use crdt_core::{Bytes, Memory};
use percent_encoding::percent_decode;
use std::alloc::Global;

fn place_of(text: &[u8], mark: u8) -> usize
    ensures place { result ≡ position_or_len (λ b. b == mark) text.now }
    ensures within { result ≤ length text.now }
{
    text.iter()
        .position(|byte| *byte == mark)
        .unwrap_or(text.len())
}

/// The byte stands somewhere in the text.
pub(crate) fn holds(text: &[u8], mark: u8) -> bool
    ensures { result ≡ list_any (λ b. b == mark) text.now }
{
    text.contains(&mark)
}

/// What stands before the first such byte, or all where there is none.
pub(crate) fn before(text: &[u8], mark: u8) -> &[u8]
    ensures { result.now ≡ before_first (λ b. b == mark) text.now }
{
    &text[..place_of(text, mark)]
}

/// What stands after the first such byte, or nothing where there is none.
pub(crate) fn after(text: &[u8], mark: u8) -> &[u8]
    ensures { result.now ≡ after_first (λ b. b == mark) text.now }
{
    match &text[place_of(text, mark)..] {
        [_, rest @ ..] => rest,
        [] => &[],
    }
}

/// The text with each `%` and two hexadecimal digits replaced by their byte (RFC 3986, section 2.1).
pub(crate) fn decoded(alloc: Global, text: &[u8]) -> Result<Bytes, Memory>
    ensures same { IfOk result (λ bytes. bytes ≡ percent_decode text.now) }
    ensures want { OnlyWant result }
{
    let mut bytes = Vec::new(alloc);
    percent_decode(text).append_to(&mut bytes)?;
    Ok(Bytes::from_vec(bytes))
}
