//! What is told of a request that ended by itself: its record in the history, and its lines.
ghost use Rattle.std.specs.Prelude.{◌≡◌, ◌++◌, [], ◌∷◌, IfOk, OnOk};
ghost use Rattle.crdt_core.specs.Outcomes.{OnlyWant};
ghost use Rattle.store_model.specs.Answers.{record_of as record_of_end, lines_of_end, found_line as line_of_found, word_of as word_of_kind, versions_of, lines_of as lines_of_entries, entries};

use cluster_machine::applied::Line;
use cluster_machine::{DoneWord, EndWord};
use crdt_core::{Bytes, List, Memory, Value};
use crdt_rows::{Body, Meta, ObjectRow, Version};
use flow_model::FlowEnd;
use history_model::{Answer, Cause, Kind, Record};
use object_bytes::Pieces;
use shared_value::Shared;
use std::alloc::Global;

// Appends the key of a row with its version, where a list shows it.
fn push_version(shown: &mut List<(Bytes, Version)>, row: &ObjectRow) -> Result<(), Memory>
    ensures ok { OnOk result (shown.new ≡ shown.old ++ versions_of (entries (row.now ∷ []))) }
    ensures want { OnlyWant result }
{
    match row.newest() {
        Some((version, Body::Inline(_, _))) => shown.push((row.key.copy()?, version)),
        Some((version, Body::Blocks(_, _))) => shown.push((row.key.copy()?, version)),
        Some((_, Body::Marker)) => Ok(()),
        None => Ok(()),
    }
}

// The keys of rows that a list shows, with their versions.
#[tactic(auto, using(crate::proofs::Listed::versions_first))]
fn versions_in(
    alloc: Global,
    rows: &List<Shared<ObjectRow>>,
) -> Result<List<(Bytes, Version)>, Memory>
    ensures are { IfOk result (λ shown. shown ≡ versions_of (entries rows.now)) }
    ensures want { OnlyWant result }
{
    let mut shown = List::new(alloc);
    for row in rows.as_slice() {
        push_version(&mut shown, row.get())?;
    }
    Ok(shown)
}

// Appends the key of a row with timestamp, identifier and size, where a list shows it.
fn push_line(shown: &mut List<(Bytes, u64, u64, u64)>, row: &ObjectRow) -> Result<(), Memory>
    ensures ok { OnOk result (shown.new ≡ shown.old ++ lines_of_entries (entries (row.now ∷ []))) }
    ensures want { OnlyWant result }
{
    match row.newest() {
        Some((version, Body::Inline(meta, _))) => {
            shown.push((row.key.copy()?, version.ts, version.id, meta.size))
        }
        Some((version, Body::Blocks(meta, _))) => {
            shown.push((row.key.copy()?, version.ts, version.id, meta.size))
        }
        Some((_, Body::Marker)) => Ok(()),
        None => Ok(()),
    }
}

// The keys of rows that a list shows, each with timestamp, identifier and size.
#[tactic(auto, using(crate::proofs::Listed::lines_first))]
fn lines_in(
    alloc: Global,
    rows: &List<Shared<ObjectRow>>,
) -> Result<List<(Bytes, u64, u64, u64)>, Memory>
    ensures are { IfOk result (λ shown. shown ≡ lines_of_entries (entries rows.now)) }
    ensures want { OnlyWant result }
{
    let mut shown = List::new(alloc);
    for row in rows.as_slice() {
        push_line(&mut shown, row.get())?;
    }
    Ok(shown)
}

/// What the history has of a request that ended so.
pub fn record_of(alloc: Global, request: u64, end: &FlowEnd) -> Result<Record, Memory>
    ensures is { IfOk result (λ r. r ≡ record_of_end request end.now) }
    ensures want { OnlyWant result }
{
    match end {
        FlowEnd::Stored { version, .. } => Ok(Record::Finished {
            request,
            answer: Answer::Version(*version),
        }),
        FlowEnd::Found { version, .. } => Ok(Record::Finished {
            request,
            answer: Answer::Version(*version),
        }),
        FlowEnd::Nothing => Ok(Record::Finished {
            request,
            answer: Answer::None,
        }),
        FlowEnd::Listed(rows) => Ok(Record::Finished {
            request,
            answer: Answer::Listed(versions_in(alloc, rows)?),
        }),
        FlowEnd::Superseded(id) => Ok(Record::Ended {
            request,
            cause: Cause::Superseded(*id),
        }),
        FlowEnd::Aborted => Ok(Record::Ended {
            request,
            cause: Cause::Aborted,
        }),
    }
}

// The word of a request's line; a list has a line of its own.
fn word_of(kind: Kind) -> DoneWord
    ensures { result ≡ word_of_kind kind }
{
    match kind {
        Kind::Put => DoneWord::Put,
        Kind::Get => DoneWord::Get,
        Kind::Head => DoneWord::Head,
        Kind::Delete => DoneWord::Delete,
        Kind::Copy => DoneWord::Copy,
        Kind::List => DoneWord::Get,
    }
}

// The line of a request that found this version: of a get with size and MD5 of the bytes, of a head with the size.
fn found_line(request: u64, kind: Kind, version: Version, meta: &Meta, body: &Pieces) -> Line
    ensures { result ≡ line_of_found request kind version meta.now body.now }
{
    let (word, size, md5) = match kind {
        Kind::Head => (DoneWord::Head, meta.size, None),
        _ => (DoneWord::Get, body.len() as u64, Some(body.md5())),
    };
    Line::Done {
        request,
        word,
        version: Some((version.ts, version.id)),
        size: Some(size),
        md5,
    }
}

// A line alone.
fn one(alloc: Global, line: Line) -> Result<List<Line>, Memory>
    ensures is { IfOk result (λ lines. lines ≡ line ∷ []) }
    ensures want { OnlyWant result }
{
    let mut lines = List::new(alloc);
    lines.push(line)?;
    Ok(lines)
}

/// The lines of a request of this kind that ended so.
pub fn lines_of(
    alloc: Global,
    request: u64,
    kind: Kind,
    end: &FlowEnd,
) -> Result<List<Line>, Memory>
    ensures are { IfOk result (λ lines. lines ≡ lines_of_end request kind end.now) }
    ensures want { OnlyWant result }
{
    match end {
        FlowEnd::Stored { version, .. } => one(
            alloc,
            Line::Done {
                request,
                word: word_of(kind),
                version: Some((version.ts, version.id)),
                size: None,
                md5: None,
            },
        ),
        FlowEnd::Found {
            version,
            meta,
            body,
        } => one(alloc, found_line(request, kind, *version, meta, body)),
        FlowEnd::Nothing => one(
            alloc,
            Line::Done {
                request,
                word: word_of(kind),
                version: None,
                size: None,
                md5: None,
            },
        ),
        FlowEnd::Listed(rows) => {
            let keys = lines_in(alloc, rows)?;
            one(alloc, Line::Listed { request, keys })
        }
        FlowEnd::Superseded(_) => one(
            alloc,
            Line::Ended {
                request,
                word: EndWord::Superseded,
            },
        ),
        FlowEnd::Aborted => Ok(List::new(alloc)),
    }
}
