//! What an audit finds of a transcript, in the order in which findings come.
ghost use Rattle.std.specs.Prelude.{IfOk};
ghost use Rattle.crdt_core.specs.Outcomes.{OnlyWant};
ghost use Rattle.audit_run.specs.Answer.{IsFound};
ghost use Rattle.audit_run.specs.Judging.{IsToJudge, IsReadFresh, IsRead, IsComparedFresh};

use crate::reply::{Reply, numbered, plain};
use audit_play::{Compared, compare};
use audit_prints::{Judged, Sheet, judge};
use audit_reading::{Reading, Text, read};
use crdt_core::Memory;
use history_model::History;
use lab_outside::Status;
use std::alloc::Global;
use store_model::Numbered;
use world_history::{first_stale, pairs};

/// What is found where the run can be compared with the transcript.
fn compared(
    alloc: Global,
    events: &[Numbered],
    sheets: &[Sheet],
    history: &History,
    text: &[u8],
) -> Result<Reply, Memory>
    requires { IsComparedFresh events.now text.now history.now.0 sheets.now }
    ensures found { IfOk result (λ reply. IsFound events.now text.now reply.status reply.text) }
    ensures want { OnlyWant result }
{
    match compare(alloc, events, sheets, text)? {
        Compared::Differs(line) => numbered(alloc, Status::Refused, b"differs", line),
        Compared::TooMuch => plain(alloc, Status::Limit, b"limit sent 268435456"),
        Compared::Same => {
            let count = pairs(alloc, history)?;
            numbered(alloc, Status::Done, b"audit ok", count)
        }
    }
}

/// What is found where the account is fresh.
fn judged(
    alloc: Global,
    events: &[Numbered],
    reading: &Reading,
    text: &[u8],
) -> Result<Reply, Memory>
    requires { IsReadFresh events.now text.now reading.now.saids reading.now.history.0 }
    ensures found { IfOk result (λ reply. IsFound events.now text.now reply.status reply.text) }
    ensures want { OnlyWant result }
{
    match judge(alloc, events, reading.saids.as_slice())? {
        Judged::Unlawful(line) => numbered(alloc, Status::Refused, b"unlawful", line),
        Judged::Lawful(sheets) => {
            compared(alloc, events, sheets.as_slice(), &reading.history, text)
        }
    }
}

/// What is found where the transcript can be read.
fn weighed(
    alloc: Global,
    events: &[Numbered],
    reading: &Reading,
    text: &[u8],
) -> Result<Reply, Memory>
    requires { IsRead events.now text.now reading.now.saids reading.now.history.0 }
    ensures found { IfOk result (λ reply. IsFound events.now text.now reply.status reply.text) }
    ensures want { OnlyWant result }
{
    match first_stale(alloc, &reading.history)? {
        Some(request) => numbered(alloc, Status::Refused, b"stale", request),
        None => judged(alloc, events, reading, text),
    }
}

/// What is found first of a transcript of these events, as the line that says it.
pub fn found(alloc: Global, events: &[Numbered], text: &[u8]) -> Result<Reply, Memory>
    requires { IsToJudge events.now text.now }
    ensures found { IfOk result (λ reply. IsFound events.now text.now reply.status reply.text) }
    ensures want { OnlyWant result }
{
    match read(alloc, events, text)? {
        Text::Unreadable(line) => numbered(alloc, Status::Refused, b"unreadable", line),
        Text::Readable(reading) => weighed(alloc, events, &reading, text),
    }
}
