//! What a line adds to what was heard.
ghost use Rattle.std.specs.Prelude.{◌≡◌, true, IfOk, option_map};
ghost use Rattle.crdt_core.specs.Outcomes.{OnlyWant};
ghost use Rattle.history_model.specs.declared.record.Record.TheVariants.{Finished, Ended as HasEnded};
ghost use Rattle.audit_model.specs.Heard.{Heard as Model, AscendFrom, is_word_of, kind_at, of_request, answer_of, cause_of, accepts, tells, lists, listed, heard, hears, asking_of};
ghost use Rattle.audit_reading.specs.Kept.{listing_of, StandsFor, IsNext, Follows};

use crate::asking::{asking_of, is_answer};
use crate::heard::{Heard, Listing};
use crate::words::{answer_of, cause_of, is_word_of, version_of};
use audit_model::{Answered, Said, Told};
use cluster_machine::{DoneWord, EndWord, Words};
use crdt_core::{List, Memory, Value};
use event_places::event_at;
use history_model::Record;
use std::alloc::Global;
use store_model::{Event, Numbered};

// An event was accepted.
fn accept(kept: &mut Heard, event: &Event, words: Words) -> Result<bool, Memory>
    ensures follows { IfOk result (Follows kept.old kept.new
        (λ h. accepts h event.now (asking_of event.now) words)) }
    ensures want { OnlyWant result }
{
    let Some(asking) = asking_of(event) else {
        return Ok(is_answer(event, words));
    };
    let Words::One(request) = words else {
        return Ok(false);
    };
    let began = asking.began(request)?;
    kept.begin(request, asking.kind, began)?;
    Ok(true)
}

// An event of the schedule, or of no schedule, was told this.
fn tell(kept: &mut Heard, event: Option<&Event>, told: &Told) -> Result<bool, Memory>
    ensures follows { IfOk result (Follows kept.old kept.new
        (λ h. tells h (option_map (λ e. e.now) event.entry) told.now)) }
    ensures want { OnlyWant result }
{
    let Some(event) = event else {
        return Ok(false);
    };
    match told {
        Told::Accepted(words) => accept(kept, event, *words),
        Told::Refused(_) => Ok(true),
    }
}

// A request finished, but a list.
fn finish(kept: &mut Heard, request: u64, word: DoneWord, answer: &Answered) -> Result<bool, Memory>
    ensures follows { IfOk result (Follows kept.old kept.new
        (λ h. of_request h (is_word_of word) (kind_at h.asked request) (Finished request (answer_of answer.now)))) }
    ensures want { OnlyWant result }
{
    let Some(kind) = kept.kind(request) else {
        return Ok(false);
    };
    if !is_word_of(word, kind) {
        return Ok(false);
    }
    kept.add(Record::Finished {
        request,
        answer: answer_of(answer),
    })?;
    Ok(true)
}

// A request ended without an answer.
fn end(kept: &mut Heard, request: u64, word: EndWord) -> Result<bool, Memory>
    ensures follows { IfOk result (Follows kept.old kept.new
        (λ h. of_request h (λ k. true) (kind_at h.asked request) (HasEnded request (cause_of word)))) }
    ensures want { OnlyWant result }
{
    if kept.kind(request).is_none() {
        return Ok(false);
    }
    kept.add(Record::Ended {
        request,
        cause: cause_of(word),
    })?;
    Ok(true)
}

// A list finished, with so many keys.
fn list(alloc: Global, kept: &mut Heard, request: u64, count: u64) -> Result<bool, Memory>
    ensures follows { IfOk result (Follows kept.old kept.new
        (λ h. lists h request count (kind_at h.asked request))) }
    ensures want { OnlyWant result }
{
    let Some(kind) = kept.kind(request) else {
        return Ok(false);
    };
    if !kind.is_list() {
        return Ok(false);
    }
    kept.list(Listing {
        request,
        left: count,
        keys: List::new(alloc),
    })?;
    Ok(true)
}

// A line comes while no keys are awaited.
fn take_line(
    alloc: Global,
    events: &[Numbered],
    kept: &mut Heard,
    said: &Said,
) -> Result<bool, Memory>
    requires { AscendFrom 0 events.now }
    ensures follows { IfOk result (Follows kept.old kept.new (λ h. heard events.now h said.now)) }
    ensures want { OnlyWant result }
{
    match said {
        Said::Event { line, name, told } => {
            tell(kept, event_at(events, *line, name.as_slice()), told)
        }
        Said::Done {
            request,
            word,
            answer,
        } => finish(kept, *request, *word, answer),
        Said::Listed { request, count } => list(alloc, kept, *request, *count),
        Said::Ended { request, word } => end(kept, *request, *word),
        Said::Key { .. } => Ok(false),
        _ => Ok(true),
    }
}

// A line comes while keys of a list are awaited: one of these, or it can't be heard.
fn take_key(kept: &mut Heard, mut listing: Listing, said: &Said) -> Result<bool, Memory>
    ensures follows { IfOk result (λ could. (h : Model) →
        StandsFor kept.old (record h { listing = None }) →
        IsNext kept.new (listed h (listing_of listing) said.now) could) }
    ensures want { OnlyWant result }
{
    let Said::Key { key, version, .. } = said else {
        return Ok(false);
    };
    listing.keys.push((key.copy()?, version_of(*version)))?;
    listing.left = listing.left.saturating_sub(1);
    kept.list(listing)?;
    Ok(true)
}

/// Adds what a line says. Whether it can be heard after the lines before it.
pub fn hear(
    alloc: Global,
    events: &[Numbered],
    kept: &mut Heard,
    said: &Said,
) -> Result<bool, Memory>
    requires { AscendFrom 0 events.now }
    ensures follows { IfOk result (Follows kept.old kept.new (λ h. hears events.now h said.now)) }
    ensures want { OnlyWant result }
{
    match kept.listing.take() {
        Some(listing) => take_key(kept, listing, said),
        None => take_line(alloc, events, kept, said),
    }
}
