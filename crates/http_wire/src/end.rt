//! Where a head ends.
ghost use Rattle.std.specs.Prelude.{◌≡◌, ◌+◌, ◌<◌, ◌≤◌, ◌||◌, IfSome, IfNone, length, take, false};
ghost use Rattle.std.specs.List.{list_any};
ghost use Rattle.http_model.specs.Cut.{is_text, ends_in_empty_line as is_line_end, ends_head, head_end};

/// How many bytes a head may have.
pub const HEAD_LIMIT: usize = 16384;

/// These bytes end in an empty line: with a line feed that follows directly on a line feed, or on a line feed
/// and one carriage return.
fn ends_in_empty_line(front: &[u8]) -> bool
    ensures { result ≡ is_line_end front.now }
{
    match front.last() {
        Some(b'\n') => front.ends_with(b"\n\n") || front.ends_with(b"\n\r\n"),
        _ => false,
    }
}

/// There was text, or this byte is neither a carriage return nor a line feed.
fn has_text(before: bool, byte: u8) -> bool
    ensures { result ≡ (before || is_text byte) }
{
    before || !(byte == b'\r' || byte == b'\n')
}

/// A head ends with these bytes: they end in an empty line, and there is text among them.
#[tactic(auto, unfolding(http_model::specs::Cut::ends_head))]
fn is_head_end(front: &[u8], text: bool) -> bool
    requires { text ≡ list_any is_text front.now }
    ensures { result ≡ ends_head front.now }
{
    ends_in_empty_line(front) && text
}

/// A search for a head's end in bytes that grow. It looks at each byte once.
#[derive(Debug, Clone, Copy, PartialEq, Eq)]
pub struct Search {
    /// How many bytes were searched. No head ends in them.
    place: usize,
    /// Whether there was text among them.
    text: bool,
}

impl Search {
    ghost use Rattle.http_wire.specs.Pieces.{IsSearched};

    pub fn new() -> Search
        ensures place { result.place ≡ 0 }
        ensures text { result.text ≡ false }
    {
        Search {
            place: 0,
            text: false,
        }
    }

    /// How many bytes the head has, if it ends in these bytes and isn't too long. They begin with those that
    /// were searched before.
    pub fn head_end(&mut self, bytes: &[u8]) -> Option<usize>
        requires { IsSearched bytes.now self.old }
        ensures end { result ≡ head_end bytes.now }
        ensures within { IfSome result (λ n. n ≤ length bytes.now) }
        ensures searched { IfNone result (IsSearched bytes.now self.new) }
    {
        let count = bytes.len().min(HEAD_LIMIT);
        'bytes: while self.place < count {
            if self.ends_with_next(bytes) {
                return Some(self.place);
            }
        }
        None
    }

    /// Searches one byte more, and says whether the head ends with it.
    fn ends_with_next(&mut self, bytes: &[u8]) -> bool
        requires within { self.old.place < length bytes.now }
        requires text { self.old.text ≡ list_any is_text (take self.old.place bytes.now) }
        ensures ends { result ≡ ends_head (take self.new.place bytes.now) }
        ensures place { self.new.place ≡ self.old.place + 1 }
        ensures text { self.new.text ≡ list_any is_text (take self.new.place bytes.now) }
    {
        self.text = has_text(self.text, bytes[self.place]);
        self.place += 1;
        is_head_end(&bytes[..self.place], self.text)
    }
}
