//! What a line tells of, by its first word.
ghost use Rattle.std.specs.Prelude.{◌≡◌};
ghost use Rattle.schedule_text.specs.Reads.{Finds};
ghost use Rattle.transcript_text.specs.Words.{first_text};

use schedule_text::is;

/// What a line tells of, by its first word; a line that begins otherwise can only be an event's.
#[derive(Clone, Copy, Debug, PartialEq, Eq)]
pub(crate) enum Kind {
    Size,
    Redundancy,
    Sets,
    Cut,
    Side,
    Nodes,
    Got,
    Sent,
    Synced,
    Dropped,
    Done,
    Key,
    Ended,
    Node,
    Fresh,
    End,
}

pub(crate) fn kind_of(word: &[u8]) -> Option<Kind>
    ensures { Finds (λ kind. word.now ≡ first_text kind) result }
{
    if is(word, b"size") {
        Some(Kind::Size)
    } else if is(word, b"redundancy") {
        Some(Kind::Redundancy)
    } else if is(word, b"p") {
        Some(Kind::Sets)
    } else if is(word, b"cut") {
        Some(Kind::Cut)
    } else if is(word, b"c") {
        Some(Kind::Side)
    } else if is(word, b"cn") {
        Some(Kind::Nodes)
    } else if is(word, b"got") {
        Some(Kind::Got)
    } else if is(word, b"sent") {
        Some(Kind::Sent)
    } else if is(word, b"synced") {
        Some(Kind::Synced)
    } else if is(word, b"dropped") {
        Some(Kind::Dropped)
    } else if is(word, b"done") {
        Some(Kind::Done)
    } else if is(word, b"key") {
        Some(Kind::Key)
    } else if is(word, b"ended") {
        Some(Kind::Ended)
    } else if is(word, b"node") {
        Some(Kind::Node)
    } else if is(word, b"fresh") {
        Some(Kind::Fresh)
    } else if is(word, b"end") {
        Some(Kind::End)
    } else {
        None
    }
}
