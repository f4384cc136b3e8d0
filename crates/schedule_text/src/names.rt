//! Words that are names.
ghost use Rattle.std.specs.Prelude.{◌≡◌, ◌↔◌, IsTrue};
ghost use Rattle.std.specs.List.{list_all};
ghost use Rattle.layout_roles.specs.Names.{is_between, is_bucket_name, is_zone_name};
ghost use Rattle.text_model.specs.Grammar.{is_key_byte, is_key, prefix_word, is_prefix};
ghost use Rattle.schedule_text.specs.Reads.{Reads};

use crate::fault::LineFault;
use crdt_core::Bytes;
use layout_roles::{is_bucket_name, is_zone_name};
use std::alloc::Global;

/// Whether a word is this name.
pub fn is(word: &[u8], name: &[u8]) -> bool
    ensures { IsTrue result ↔ (word.now ≡ name.now) }
{
    word == name
}

fn is_key_byte(byte: u8) -> bool
    ensures { result ≡ is_key_byte byte }
{
    matches!(byte, b'a'..=b'z' | b'A'..=b'Z' | b'0'..=b'9' | b'.' | b'_' | b'/' | b'-')
}

fn is_between(n: usize, low: usize, high: usize) -> bool
    ensures { result ≡ is_between low high n }
{
    low <= n && n <= high
}

fn are_key_bytes(word: &[u8]) -> bool
    ensures { result ≡ list_all is_key_byte word.now }
{
    word.iter().all(|byte| is_key_byte(*byte))
}

fn is_key(word: &[u8]) -> bool
    ensures { result ≡ is_key word.now }
{
    is_between(word.len(), 1, 64) && are_key_bytes(word)
}

/// A bucket's name has 3 to 63 lower-case letters, digits, `-` and `.`, the first and the last a letter or digit.
pub(crate) fn bucket_name(alloc: Global, word: &[u8]) -> Result<Bytes, LineFault>
    ensures { Reads (λ name. (name ≡ word.now) × IsTrue (is_bucket_name name)) result }
{
    if !is_bucket_name(word) {
        return Err(LineFault::Outside);
    }
    Ok(Bytes::from_slice(alloc, word)?)
}

/// A zone's name has 1 to 16 lower-case letters and digits.
pub fn zone_name(alloc: Global, word: &[u8]) -> Result<Bytes, LineFault>
    ensures { Reads (λ name. (name ≡ word.now) × IsTrue (is_zone_name name)) result }
{
    if !is_zone_name(word) {
        return Err(LineFault::Outside);
    }
    Ok(Bytes::from_slice(alloc, word)?)
}

/// A key has 1 to 64 letters, digits, `.`, `_`, `/` and `-`.
pub fn object_key(alloc: Global, word: &[u8]) -> Result<Bytes, LineFault>
    ensures { Reads (λ key. (key ≡ word.now) × IsTrue (is_key key)) result }
{
    if !is_key(word) {
        return Err(LineFault::Outside);
    }
    Ok(Bytes::from_slice(alloc, word)?)
}

/// `*` for the empty prefix, or as a key.
pub(crate) fn key_prefix(alloc: Global, word: &[u8]) -> Result<Bytes, LineFault>
    ensures { Reads (λ prefix. (word.now ≡ prefix_word prefix) × IsTrue (is_prefix prefix)) result }
{
    if is(word, b"*") {
        return Ok(Bytes::new(alloc));
    }
    object_key(alloc, word)
}
