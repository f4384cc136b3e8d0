//! Words that are numbers.
ghost use Rattle.std.specs.Prelude.{◌≡◌, ◌<◌, ◌^◌, [], ◌∷◌, decimal};
ghost use Rattle.text_model.specs.Grammar.{IsFrom};
ghost use Rattle.schedule_text.specs.Reads.{Finds, Reads};
ghost use Rattle.schedule_text.specs.Kinds.{texts, IsFilling};

use crate::fault::LineFault;
use itoa::Buffer;
use std::str::from_utf8;

/// The number that a word spells in decimal digits, without a leading zero.
pub fn decimal_number(word: &[u8]) -> Option<u64>
    ensures { Finds (λ n. (word.now ≡ decimal n) × (n < 2 ^ 64)) result }
{
    let n = from_utf8(word).ok()?.parse::<u64>().ok()?;
    // A sign and zeros in front are read too, but aren't how the number is spelled.
    if Buffer::new().format(n).as_bytes() == word {
        Some(n)
    } else {
        None
    }
}

/// The number from `low` to `high` that a word spells in decimal digits, without a leading zero.
pub fn number(word: &[u8], low: u64, high: u64) -> Result<u64, LineFault>
    ensures { Reads (λ n. (word.now ≡ decimal n) × IsFrom low high n) result }
{
    let n = decimal_number(word).ok_or(LineFault::Outside)?;
    if low <= n && n <= high {
        Ok(n)
    } else {
        Err(LineFault::Outside)
    }
}

/// A node's number.
pub(crate) fn node(word: &[u8]) -> Result<u8, LineFault>
    ensures { Reads (λ n. (word.now ≡ decimal n) × IsFrom 1 16 n) result }
{
    Ok(number(word, 1, 16)? as u8)
}

/// The number from `low` to `high` that the one word spells.
pub fn number_alone(words: &[&[u8]], low: u64, high: u64) -> Result<u64, LineFault>
    ensures { Reads (λ n. (texts words.now ≡ decimal n ∷ []) × IsFrom low high n) result }
{
    match *words {
        [word] => number(word, low, high),
        _ => Err(LineFault::Outside),
    }
}

/// The node that the one word names.
pub(crate) fn node_alone(words: &[&[u8]]) -> Result<u8, LineFault>
    ensures { Reads (λ n. (texts words.now ≡ decimal n ∷ []) × IsFrom 1 16 n) result }
{
    Ok(number_alone(words, 1, 16)? as u8)
}

/// The number of a message or request that the one word spells.
pub(crate) fn issued_alone(words: &[&[u8]]) -> Result<u64, LineFault>
    ensures { Reads (λ n. (texts words.now ≡ decimal n ∷ []) × IsFrom 1 4294967295 n) result }
{
    number_alone(words, 1, 4_294_967_295)
}

/// An object's size and first byte.
pub(crate) fn filling(words: &[&[u8]]) -> Result<(u32, u8), LineFault>
    ensures { Reads (IsFilling (texts words.now)) result }
{
    match *words {
        [size, fill] => Ok((number(size, 0, 65_536)? as u32, number(fill, 0, 250)? as u8)),
        _ => Err(LineFault::Outside),
    }
}
