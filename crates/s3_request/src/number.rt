//! Decimal numbers.
ghost use Rattle.std.specs.Prelude.{◌≡◌, ◌≤◌};
ghost use Rattle.std.specs.Char.{is_ascii_digit};
ghost use Rattle.std.specs.List.{list_all};
ghost use Rattle.s3_model.specs.Numbers.{is_number, number_in};

use std::str::from_utf8;

/// How many digits a length or a place may have.
pub(crate) const DIGIT_LIMIT: usize = 18;

fn are_digits(text: &[u8]) -> bool
    ensures { result ≡ list_all (λ b. is_ascii_digit b) text.now }
{
    text.iter().all(|byte| byte.is_ascii_digit())
}

/// The text is one digit or more, up to so many.
pub(crate) fn is_number(text: &[u8], most: usize) -> bool
    ensures { result ≡ is_number most text.now }
{
    !text.is_empty() && text.len() <= most && are_digits(text)
}

/// The number that a text of so many digits at most writes.
pub(crate) fn number(text: &[u8], most: usize) -> Option<u64>
    requires { most ≤ 18 }
    ensures { result ≡ number_in most text.now }
{
    if is_number(text, most) {
        from_utf8(text).ok()?.parse::<u64>().ok()
    } else {
        None
    }
}
