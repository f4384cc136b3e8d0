//! Ranges of bytes (RFC 9110, section 14.1.2).
ghost use Rattle.std.specs.Prelude.{◌≡◌};
ghost use Rattle.s3_model.specs.Ranges.{between as between_of, range_with as range_of_sides, range_in as range_of_set, range_of, span_of};

use crate::number::{DIGIT_LIMIT, number};
use crate::pieces::{after, before, holds};
use s3_model::Range;

fn between(first: Option<u64>, last: Option<u64>) -> Option<Range>
    ensures { result ≡ between_of first last }
{
    let (first, last) = (first?, last?);
    if first <= last {
        Some(Range::Between(first, last))
    } else {
        None
    }
}

// The range with these texts before and after its hyphen.
fn range_with(first: &[u8], last: &[u8]) -> Option<Range>
    ensures { result ≡ range_of_sides first.now last.now }
{
    match (first.is_empty(), last.is_empty()) {
        (true, _) => Some(Range::Last(number(last, DIGIT_LIMIT)?)),
        (false, true) => Some(Range::From(number(first, DIGIT_LIMIT)?)),
        (false, false) => between(number(first, DIGIT_LIMIT), number(last, DIGIT_LIMIT)),
    }
}

fn range_in(text: &[u8]) -> Option<Range>
    ensures { result ≡ range_of_set text.now }
{
    if holds(text, b'-') {
        range_with(before(text, b'-'), after(text, b'-'))
    } else {
        None
    }
}

/// What the value of a Range header asks, if it has one of the forms that are served.
pub(crate) fn range(text: &[u8]) -> Option<Range>
    ensures { result ≡ range_of text.now }
{
    range_in(text.strip_prefix(b"bytes=".as_slice())?)
}

/// The first and the last place of the bytes that a range is of an object of `size` bytes, counted from 0. There is
/// none where the range starts at or past the object's end, or is its last 0 bytes.
pub fn span(range: Range, size: u64) -> Option<(u64, u64)>
    ensures { result ≡ span_of range size }
{
    match range {
        Range::Between(first, last) if first < size => Some((first, last.min(size - 1))),
        Range::From(first) if first < size => Some((first, size - 1)),
        Range::Last(count) if count != 0 && size != 0 => Some((size - count.min(size), size - 1)),
        _ => None,
    }
}
