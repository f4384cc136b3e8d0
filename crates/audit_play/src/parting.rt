//! Where a transcript and the text of a run part.
ghost use Rattle.std.specs.Prelude.{◌≡◌, ◌≤◌, ◌+◌, nat_eq, length, take, drop};
ghost use Rattle.std.specs.List.{common_prefix_len};
ghost use Rattle.audit_play.specs.Parting.{line_at, differs_in, ends_in};

/// How many bytes at the beginning of two texts are the same.
fn common(a: &[u8], b: &[u8]) -> usize
    ensures same { result ≡ common_prefix_len nat_eq a.now b.now }
    ensures within { result ≤ length a.now }
{
    let mut n = 0;
    while n < a.len() && n < b.len() && a[n] == b[n] {
        n += 1;
    }
    n
}

/// The number of the line in which a place of a text is, counted from 1.
fn line_at(text: &[u8], place: usize) -> u64
    requires { place ≤ length text.now }
    ensures { result ≡ line_at text.now place }
{
    let feeds = text[..place].iter().filter(|byte| **byte == b'\n').count();
    feeds as u64 + 1
}

/// The first line in which what stands in a text from a place on differs from what was told, as far as that goes.
pub(crate) fn differs_in(text: &[u8], place: usize, told: &[u8]) -> Option<u64>
    requires { place ≤ length text.now }
    ensures { result ≡ differs_in text.now place told.now }
{
    let same = common(&text[place..], told);
    if same == told.len() {
        None
    } else {
        Some(line_at(text, place + same))
    }
}

/// The first line in which what stands in a text from a place on differs from what was told, where nothing may follow it.
pub(crate) fn ends_in(text: &[u8], place: usize, told: &[u8]) -> Option<u64>
    requires { place ≤ length text.now }
    ensures { result ≡ ends_in text.now place told.now }
{
    let same = common(&text[place..], told);
    if same == told.len() && place + same == text.len() {
        None
    } else {
        Some(line_at(text, place + same))
    }
}
