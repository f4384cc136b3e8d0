//! Words that say with what a request finished.
ghost use Rattle.std.specs.Prelude.{◌≡◌, ◌==◌, position};
ghost use Rattle.text_model.specs.Transcript.{kind_text, done_text, end_word};
ghost use Rattle.schedule_text.specs.Reads.{Finds, Reads};
ghost use Rattle.schedule_text.specs.Kinds.{texts};
ghost use Rattle.transcript_text.specs.Words.{IsVersion, IsAnswered, IsDone, IsListed};
ghost use Rattle.cluster_machine.specs.declared.line.DoneWord.TheVariants.{Put, Get, Head, Copy};

use crate::numbers::{md5, whole};
use audit_model::Answered;
use cluster_machine::{DoneWord, EndWord, SentKind};
use schedule_text::{LineFault, decimal_number, is};

fn kind_of(word: &[u8]) -> Option<SentKind>
    ensures { Finds (λ kind. word.now ≡ kind_text kind) result }
{
    if is(word, b"get") {
        Some(SentKind::Get)
    } else if is(word, b"row") {
        Some(SentKind::Row)
    } else if is(word, b"range") {
        Some(SentKind::Range)
    } else if is(word, b"rows") {
        Some(SentKind::Rows)
    } else if is(word, b"store") {
        Some(SentKind::Store)
    } else if is(word, b"stored") {
        Some(SentKind::Stored)
    } else if is(word, b"behind") {
        Some(SentKind::Behind)
    } else if is(word, b"nothere") {
        Some(SentKind::NotHere)
    } else if is(word, b"blockget") {
        Some(SentKind::BlockGet)
    } else if is(word, b"block") {
        Some(SentKind::Block)
    } else if is(word, b"noblock") {
        Some(SentKind::NoBlock)
    } else if is(word, b"tomb") {
        Some(SentKind::Tomb)
    } else if is(word, b"tombed") {
        Some(SentKind::Tombed)
    } else if is(word, b"forget") {
        Some(SentKind::Forget)
    } else if is(word, b"view") {
        Some(SentKind::View)
    } else if is(word, b"walk") {
        Some(SentKind::Walk)
    } else if is(word, b"same") {
        Some(SentKind::Same)
    } else if is(word, b"differ") {
        Some(SentKind::Differ)
    } else {
        None
    }
}

/// The kind of a message.
pub(crate) fn sent_kind(word: &[u8]) -> Result<SentKind, LineFault>
    ensures { Reads (λ kind. word.now ≡ kind_text kind) result }
{
    kind_of(word).ok_or(LineFault::Outside)
}

// The kind of a request, but a list.
fn done_word(word: &[u8]) -> Result<DoneWord, LineFault>
    ensures { Reads (λ kind. word.now ≡ done_text kind) result }
{
    if is(word, b"put") {
        Ok(DoneWord::Put)
    } else if is(word, b"get") {
        Ok(DoneWord::Get)
    } else if is(word, b"head") {
        Ok(DoneWord::Head)
    } else if is(word, b"delete") {
        Ok(DoneWord::Delete)
    } else if is(word, b"copy") {
        Ok(DoneWord::Copy)
    } else {
        Err(LineFault::Outside)
    }
}

/// Why a request ended without an answer.
pub(crate) fn end_word(word: &[u8]) -> Result<EndWord, LineFault>
    ensures { Reads (λ cause. word.now ≡ end_word cause) result }
{
    if is(word, b"expired") {
        Ok(EndWord::Expired)
    } else if is(word, b"restarted") {
        Ok(EndWord::Restarted)
    } else if is(word, b"superseded") {
        Ok(EndWord::Superseded)
    } else {
        Err(LineFault::Outside)
    }
}

fn slash(word: &[u8]) -> Option<usize>
    ensures { result ≡ position (λ b. b == 47) word.now }
{
    word.iter().position(|byte| *byte == b'/')
}

/// A version: its timestamp and its identifier, with a slash between them.
pub(crate) fn version(word: &[u8]) -> Result<(u64, u64), LineFault>
    ensures { Reads (IsVersion word.now) result }
{
    match slash(word) {
        Some(place) => {
            let ts = whole(&word[..place])?;
            let id = whole(&word[place + 1..])?;
            Ok((ts, id))
        }
        None => Err(LineFault::Outside),
    }
}

// The version that a write finished with.
fn written(words: &[&[u8]]) -> Result<Answered, LineFault>
    ensures { Reads (IsAnswered Put (texts words.now)) result }
{
    match *words {
        [word] => Ok(Answered::Version {
            version: version(word)?,
            size: None,
            md5: None,
        }),
        _ => Err(LineFault::Outside),
    }
}

// The same of a copy, whose source may have been missing.
fn copied(words: &[&[u8]]) -> Result<Answered, LineFault>
    ensures { Reads (IsAnswered Copy (texts words.now)) result }
{
    match *words {
        [word] if is(word, b"none") => Ok(Answered::None),
        [word] => Ok(Answered::Version {
            version: version(word)?,
            size: None,
            md5: None,
        }),
        _ => Err(LineFault::Outside),
    }
}

// What a get found: a version, with the size of its bytes and their MD5, or none.
fn found(words: &[&[u8]]) -> Result<Answered, LineFault>
    ensures { Reads (IsAnswered Get (texts words.now)) result }
{
    match *words {
        [word] if is(word, b"none") => Ok(Answered::None),
        [stamp, size, digest] => Ok(Answered::Version {
            version: version(stamp)?,
            size: Some(whole(size)?),
            md5: Some(md5(digest)?),
        }),
        _ => Err(LineFault::Outside),
    }
}

// What a head found: a version with the size of its bytes, or none.
fn sized(words: &[&[u8]]) -> Result<Answered, LineFault>
    ensures { Reads (IsAnswered Head (texts words.now)) result }
{
    match *words {
        [word] if is(word, b"none") => Ok(Answered::None),
        [stamp, size] => Ok(Answered::Version {
            version: version(stamp)?,
            size: Some(whole(size)?),
            md5: None,
        }),
        _ => Err(LineFault::Outside),
    }
}

// With what a request of this kind finished.
fn answered(word: DoneWord, words: &[&[u8]]) -> Result<Answered, LineFault>
    ensures { Reads (IsAnswered word (texts words.now)) result }
{
    match word {
        DoneWord::Put | DoneWord::Delete => written(words),
        DoneWord::Get => found(words),
        DoneWord::Head => sized(words),
        DoneWord::Copy => copied(words),
    }
}

/// A request that finished, its kind and its answer.
pub(crate) fn finished(words: &[&[u8]]) -> Result<(u64, DoneWord, Answered), LineFault>
    ensures { Reads (IsDone (texts words.now)) result }
{
    let [first, second, rest @ ..] = words else {
        return Err(LineFault::Outside);
    };
    let request = whole(first)?;
    let word = done_word(second)?;
    let answer = answered(word, rest)?;
    Ok((request, word, answer))
}

/// A list that finished, and how many keys it has.
pub(crate) fn listed(words: &[&[u8]]) -> Option<(u64, u64)>
    ensures { Finds (IsListed (texts words.now)) result }
{
    match *words {
        [request, word, count] if is(word, b"list") => {
            Some((decimal_number(request)?, decimal_number(count)?))
        }
        _ => None,
    }
}
