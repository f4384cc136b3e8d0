//! Which keys are listed, and under which common prefix.
ghost use Rattle.std.specs.Prelude.{◌≡◌, ◌+◌, ◌-◌, ◌≤◌, nat_eq, drop, length, take, IsTrue, IfSome, option_map};
ghost use Rattle.std.specs.List.{starts_with};
ghost use Rattle.s3_model.specs.Page.{is_past, is_listed, delimiter_place, common_of};

use s3_model::{After, ListAsk};
use std::cmp::Ordering;

fn is_past(after: &After, key: &[u8]) -> bool
    ensures { result ≡ is_past after.now key.now }
{
    match after {
        After::Key(last) => key.cmp(&last.as_slice()).is_gt(),
        After::Prefix(last) => {
            key.cmp(&last.as_slice()).is_gt() && !key.starts_with(last.as_slice())
        }
    }
}

/// The key is one of those that are asked.
pub(crate) fn is_listed(ask: &ListAsk, key: &[u8]) -> bool
    ensures { result ≡ is_listed ask.now key.now }
{
    key.starts_with(ask.prefix.as_slice()) && is_past(&ask.after, key)
}

/// These bytes stand in the key at this place.
fn stands_at(bytes: &[u8], place: usize, key: &[u8]) -> bool
    requires { place ≤ length key.now }
    ensures same { result ≡ starts_with nat_eq (drop place key.now) bytes.now }
    ensures within { IsTrue result → place + length bytes.now ≤ length key.now }
{
    key[place..].starts_with(bytes)
}

/// Where the delimiter first stands in the key, past so many bytes.
fn delimiter_place(delimiter: &[u8], from: usize, key: &[u8]) -> Option<usize>
    ensures place { result ≡ delimiter_place delimiter.now from key.now }
    ensures within { IfSome result (λ i. i + length delimiter.now ≤ length key.now) }
{
    for place in from..key.len() {
        if stands_at(delimiter, place, key) {
            return Some(place);
        }
    }
    None
}

/// The part of the key that is its common prefix, if it is shown under one.
pub(crate) fn common_of<'a>(ask: &ListAsk, key: &'a [u8]) -> Option<&'a [u8]>
    ensures { option_map (λ common. common.now) result ≡ common_of ask.now key.now }
{
    if ask.delimiter.is_empty() {
        return None;
    }
    match delimiter_place(ask.delimiter.as_slice(), ask.prefix.len(), key) {
        Some(place) => Some(&key[..place + ask.delimiter.len()]),
        None => None,
    }
}
