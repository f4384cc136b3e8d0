//! Words that are numbers, and digests.
ghost use Rattle.std.specs.Prelude.{◌≡◌, ◌<◌, ◌^◌, decimal};
ghost use Rattle.schedule_text.specs.Reads.{Finds, Reads};
ghost use Rattle.schedule_text.specs.Kinds.{texts};
ghost use Rattle.audit_model.specs.Lines.{IsNumber};
ghost use Rattle.transcript_text.specs.Words.{IsAlone, IsPair, IsTriple, IsDigest};

use hex::{FromHex, encode_to_slice};
use schedule_text::{LineFault, decimal_number, is, number};

/// A number.
pub(crate) fn whole(word: &[u8]) -> Result<u64, LineFault>
    ensures { Reads (λ n. (word.now ≡ decimal n) × IsNumber n) result }
{
    decimal_number(word).ok_or(LineFault::Outside)
}

/// A layout version.
pub(crate) fn layout_version(word: &[u8]) -> Result<u32, LineFault>
    ensures { Reads (λ n. (word.now ≡ decimal n) × (n < 2 ^ 32)) result }
{
    Ok(number(word, 0, 4_294_967_295)? as u32)
}

/// A count of nodes or zones.
pub(crate) fn small_count(word: &[u8]) -> Result<u8, LineFault>
    ensures { Reads (λ n. (word.now ≡ decimal n) × (n < 2 ^ 8)) result }
{
    Ok(number(word, 0, 255)? as u8)
}

/// The number that the one word spells.
pub(crate) fn alone(words: &[&[u8]]) -> Result<u64, LineFault>
    ensures { Reads (IsAlone (texts words.now)) result }
{
    match *words {
        [word] => whole(word),
        _ => Err(LineFault::Outside),
    }
}

pub(crate) fn pair(words: &[&[u8]]) -> Result<(u64, u64), LineFault>
    ensures { Reads (IsPair (texts words.now)) result }
{
    match *words {
        [first, second] => Ok((whole(first)?, whole(second)?)),
        _ => Err(LineFault::Outside),
    }
}

pub(crate) fn triple(words: &[&[u8]]) -> Result<(u64, u64, u64), LineFault>
    ensures { Reads (IsTriple (texts words.now)) result }
{
    match *words {
        [first, second, third] => Ok((whole(first)?, whole(second)?, whole(third)?)),
        _ => Err(LineFault::Outside),
    }
}

fn sixteen_bytes(word: &[u8]) -> Option<[u8; 16]>
    ensures { Finds (IsDigest 16 word.now) result }
{
    let bytes = <[u8; 16] as FromHex>::from_hex(word).ok()?;
    // Capital letters are read too, but aren't how bytes are spelled.
    let mut text_of_sixteen = [0; 32];
    encode_to_slice(&bytes, &mut text_of_sixteen).ok()?;
    if is(&text_of_sixteen, word) {
        Some(bytes)
    } else {
        None
    }
}

fn thirty_two_bytes(word: &[u8]) -> Option<[u8; 32]>
    ensures { Finds (IsDigest 32 word.now) result }
{
    let bytes = <[u8; 32] as FromHex>::from_hex(word).ok()?;
    let mut text = [0; 64];
    encode_to_slice(&bytes, &mut text).ok()?;
    if is(&text, word) { Some(bytes) } else { None }
}

/// An MD5 in lower-case hexadecimal.
pub(crate) fn md5(word: &[u8]) -> Result<[u8; 16], LineFault>
    ensures { Reads (IsDigest 16 word.now) result }
{
    sixteen_bytes(word).ok_or(LineFault::Outside)
}

/// A hash in lower-case hexadecimal.
pub(crate) fn hash(word: &[u8]) -> Result<[u8; 32], LineFault>
    ensures { Reads (IsDigest 32 word.now) result }
{
    thirty_two_bytes(word).ok_or(LineFault::Outside)
}
