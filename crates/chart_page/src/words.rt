//! Words of a line.
ghost use Rattle.std.specs.Prelude.{◌≡◌, ◌≤◌, decimal, IfSome};

use itoa::Buffer;

/// The number that a word spells in decimal digits, without a leading zero.
pub fn number_of(word: &str) -> Option<u64>
    ensures { IfSome result (λ n. word.now ≡ decimal n) }
{
    let n = word.parse::<u64>().ok()?;
    // A sign and zeros in front are read too, but aren't how the number is spelled.
    if Buffer::new().format(n).as_bytes() == word.as_bytes() {
        Some(n)
    } else {
        None
    }
}

/// The number from 1 to `greatest` that a word spells.
pub fn node_of(word: &str, greatest: u64) -> Option<u64>
    ensures { IfSome result (λ n. n ≤ greatest) }
{
    let n = number_of(word)?;
    if n == 0 || n > greatest {
        return None;
    }
    Some(n)
}

/// Whether a word is one of these.
pub fn is_one_of(word: &str, names: &[&str]) -> bool {
    for name in names {
        if *name == word {
            return true;
        }
    }
    false
}
