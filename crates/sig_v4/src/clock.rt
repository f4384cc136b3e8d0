//! The date of a request, and whether the server's clock is near it.
ghost use Rattle.std.specs.Prelude.{◌≡◌, length};
ghost use Rattle.std.specs.Bool.{OnTrue};
ghost use Rattle.std.specs.List.{list_all};
ghost use Rattle.std.specs.Char.{is_ascii_digit};
ghost use Rattle.jiff_fmt.specs.Temporal.{date_parts, time_parts};
ghost use Rattle.date_model.specs.Texts as texts;
ghost use Rattle.sig_v4.specs.Checks as spec;

use jiff::fmt::temporal::parse_datetime;
use jiff_core::civil::DateTime;

/// How many days before 1970 the first of jiff's calendar is.
const EPOCH_DAYS: u64 = 4_371_587;

fn are_digits(bytes: &[u8]) -> bool
    ensures { result ≡ list_all is_ascii_digit bytes.now }
{
    bytes.iter().all(|byte| byte.is_ascii_digit())
}

#[tactic(auto, unfolding(date_model::specs::Texts::has_form))]
fn has_form(text: &[u8]) -> bool
    ensures form { result ≡ texts.has_form text.now }
    ensures long { OnTrue result (length text.now ≡ 16) }
{
    text.len() == 16
        && are_digits(&text[..8])
        && text[8] == b'T'
        && are_digits(&text[9..15])
        && text[15] == b'Z'
        && text[13] < b'6'
}

// The seconds of a date and a time, from the first day of jiff's calendar on.
fn seconds_at(civil: DateTime) -> u64
    ensures { result ≡ texts.seconds_at (date_parts civil.date) (time_parts civil.time) }
{
    civil.date.days_since_min() as u64 * 86_400 + civil.time.to_second() as u64
}

#[tactic(auto, unfolding(date_model::specs::Texts::seconds_of))]
/// The seconds of a date `YYYYMMDDTHHMMSSZ`, from the first day of jiff's calendar on, where the text is one.
pub(crate) fn seconds_of(text: &[u8]) -> Option<u64>
    ensures { result ≡ texts.seconds_of text.now }
{
    if !has_form(text) {
        return None;
    }
    match parse_datetime(&text[..15]) {
        Ok(civil) => Some(seconds_at(civil)),
        Err(_) => None,
    }
}

/// Whether the clock, in milliseconds since 1970, and a date differ by more than 900 seconds.
pub(crate) fn is_skewed(now: u64, seconds: u64) -> bool
    ensures { result ≡ spec.is_skewed now seconds }
{
    let now = u128::from(now) + u128::from(EPOCH_DAYS) * 86_400_000;
    let then = u128::from(seconds) * 1000;
    now.abs_diff(then) > 900_000
}
