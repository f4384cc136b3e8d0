//! The line of an event.
ghost use Rattle.std.specs.Prelude.{◌≡◌, ◌∷◌, [], IsTrue};
ghost use Rattle.std.specs.List.{list_all};
ghost use Rattle.schedule_text.specs.Reads.{Reads};
ghost use Rattle.schedule_text.specs.Kinds.{texts};
ghost use Rattle.audit_model.specs.Lines.{is_letter};
ghost use Rattle.transcript_text.specs.Words.{IsAnswer, IsRefusal, IsTold, IsEvent};

use crate::numbers::{layout_version, small_count, whole};
use audit_model::Told;
use cluster_machine::{Refusal, Words};
use crdt_core::Bytes;
use schedule_text::{LineFault, is};
use std::alloc::Global;

// What an accepted event answers.
fn answer(words: &[&[u8]]) -> Result<Words, LineFault>
    ensures { Reads (IsAnswer (texts words.now)) result }
{
    match *words {
        [] => Ok(Words::Empty),
        [number] => Ok(Words::One(whole(number)?)),
        [first, second] => Ok(Words::Two(whole(first)?, whole(second)?)),
        [word, read, least] if is(word, b"idle") => {
            Ok(Words::Idle(layout_version(read)?, layout_version(least)?))
        }
        _ => Err(LineFault::Outside),
    }
}

// A refusal without numbers.
fn plain_refusal(name: &[u8]) -> Result<Refusal<u64>, LineFault>
    ensures { Reads (IsRefusal (name.now ∷ [])) result }
{
    if is(name, b"VersionLimit") {
        Ok(Refusal::VersionLimit)
    } else if is(name, b"NotMember") {
        Ok(Refusal::NotMember)
    } else if is(name, b"NoSuchBucket") {
        Ok(Refusal::NoSuchBucket)
    } else if is(name, b"NoSuchMessage") {
        Ok(Refusal::NoSuchMessage)
    } else if is(name, b"Lost") {
        Ok(Refusal::Lost)
    } else if is(name, b"NoSuchRequest") {
        Ok(Refusal::NoSuchRequest)
    } else if is(name, b"AlreadyEnded") {
        Ok(Refusal::AlreadyEnded)
    } else {
        Err(LineFault::Outside)
    }
}

// A refusal with one number.
fn numbered_refusal(name: &[u8], number: &[u8]) -> Result<Refusal<u64>, LineFault>
    ensures { Reads (IsRefusal (name.now ∷ number.now ∷ [])) result }
{
    if is(name, b"VersionTaken") {
        Ok(Refusal::VersionTaken(layout_version(number)?))
    } else if is(name, b"TooFewNodes") {
        Ok(Refusal::TooFewNodes(small_count(number)?))
    } else if is(name, b"NoAssignment") {
        Ok(Refusal::NoAssignment(whole(number)?))
    } else {
        Err(LineFault::Outside)
    }
}

// Why an event was refused.
fn refusal(words: &[&[u8]]) -> Result<Refusal<u64>, LineFault>
    ensures { Reads (IsRefusal (texts words.now)) result }
{
    match *words {
        [name] => plain_refusal(name),
        [name, number] => numbered_refusal(name, number),
        [name, zones, wanted] if is(name, b"TooFewZones") => Ok(Refusal::TooFewZones(
            small_count(zones)?,
            small_count(wanted)?,
        )),
        _ => Err(LineFault::Outside),
    }
}

// What an event answered.
fn told(words: &[&[u8]]) -> Result<Told, LineFault>
    ensures { Reads (IsTold (texts words.now)) result }
{
    let [first, rest @ ..] = words else {
        return Err(LineFault::Outside);
    };
    if is(first, b"ok") {
        let words = answer(rest)?;
        return Ok(Told::Accepted(words));
    }
    if is(first, b"refused") {
        let reason = refusal(rest)?;
        return Ok(Told::Refused(reason));
    }
    Err(LineFault::Outside)
}

fn is_letter(byte: u8) -> bool
    ensures { result ≡ is_letter byte }
{
    matches!(byte, b'a'..=b'z')
}

fn are_letters(word: &[u8]) -> bool
    ensures { result ≡ list_all is_letter word.now }
{
    word.iter().all(|byte| is_letter(*byte))
}

// A name of letters a to z.
fn name(alloc: Global, word: &[u8]) -> Result<Bytes, LineFault>
    ensures { Reads (λ name. (name ≡ word.now) × IsTrue (list_all is_letter name)) result }
{
    if !are_letters(word) {
        return Err(LineFault::Outside);
    }
    Ok(Bytes::from_slice(alloc, word)?)
}

/// An event's line in the schedule, its name and what it answered.
pub(crate) fn event(alloc: Global, words: &[&[u8]]) -> Result<(u64, Bytes, Told), LineFault>
    ensures { Reads (IsEvent (texts words.now)) result }
{
    let [first, second, rest @ ..] = words else {
        return Err(LineFault::Outside);
    };
    let line = whole(first)?;
    let told = told(rest)?;
    let name = name(alloc, second)?;
    Ok((line, name, told))
}
