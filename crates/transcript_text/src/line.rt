//! What a line says.
ghost use Rattle.std.specs.Prelude.{◌≡◌, ◌∷◌, codes, IfOk};
ghost use Rattle.crdt_core.specs.Outcomes.{OnlyWant};
ghost use Rattle.text_model.specs.Words.{words_in};
ghost use Rattle.schedule_text.specs.Reads.{Finds, Reads};
ghost use Rattle.schedule_text.specs.Kinds.{texts};
ghost use Rattle.audit_model.specs.Lines.{Says};
ghost use Rattle.audit_model.specs.Reading.{said_of};
ghost use Rattle.transcript_text.specs.Words.{first_text, IsSpelledBy};

use crate::answers::{finished, listed};
use crate::event::event;
use crate::line_kind::{Kind, kind_of};
use crate::numbers::{alone, pair, triple};
use crate::parts::{dropping, ending, list_key, message, node_state, set_run};
use crate::vertices::{nodes, side_run};
use audit_model::Said;
use crdt_core::Memory;
use schedule_text::{LineFault, number_alone};
use std::alloc::{AllocError, Global};

fn size(words: &[&[u8]]) -> Result<Said, LineFault>
    ensures { Reads (IsSpelledBy (codes "size" ∷ texts words.now)) result }
{
    let size = alone(words)?;
    Ok(Said::Size(size))
}

fn redundancy(words: &[&[u8]]) -> Result<Said, LineFault>
    ensures { Reads (IsSpelledBy (codes "redundancy" ∷ texts words.now)) result }
{
    let zones = number_alone(words, 1, 3)?;
    Ok(Said::Redundancy(zones))
}

fn sets(words: &[&[u8]]) -> Result<Said, LineFault>
    ensures { Reads (IsSpelledBy (codes "p" ∷ texts words.now)) result }
{
    let (first, last, set) = set_run(words)?;
    Ok(Said::Sets { first, last, set })
}

fn cut(words: &[&[u8]]) -> Result<Said, LineFault>
    ensures { Reads (IsSpelledBy (codes "cut" ∷ texts words.now)) result }
{
    let (size, weight) = pair(words)?;
    Ok(Said::Cut { size, weight })
}

fn side(alloc: Global, words: &[&[u8]]) -> Result<Said, LineFault>
    ensures { Reads (IsSpelledBy (codes "c" ∷ texts words.now)) result }
{
    let (first, last, up, down, zones) = side_run(alloc, words)?;
    Ok(Said::Side {
        first,
        last,
        up,
        down,
        zones,
    })
}

fn node_list(alloc: Global, words: &[&[u8]]) -> Result<Said, LineFault>
    ensures { Reads (IsSpelledBy (codes "cn" ∷ texts words.now)) result }
{
    let nodes = nodes(alloc, words)?;
    Ok(Said::Nodes(nodes))
}

fn got(words: &[&[u8]]) -> Result<Said, LineFault>
    ensures { Reads (IsSpelledBy (codes "got" ∷ texts words.now)) result }
{
    let number = alone(words)?;
    Ok(Said::Got(number))
}

fn sent(words: &[&[u8]]) -> Result<Said, LineFault>
    ensures { Reads (IsSpelledBy (codes "sent" ∷ texts words.now)) result }
{
    let (number, kind, from, to) = message(words)?;
    Ok(Said::Sent {
        number,
        kind,
        from,
        to,
    })
}

fn synced(words: &[&[u8]]) -> Result<Said, LineFault>
    ensures { Reads (IsSpelledBy (codes "synced" ∷ texts words.now)) result }
{
    let (node, version) = pair(words)?;
    Ok(Said::Synced { node, version })
}

fn dropped(words: &[&[u8]]) -> Result<Said, LineFault>
    ensures { Reads (IsSpelledBy (codes "dropped" ∷ texts words.now)) result }
{
    let (node, version) = dropping(words)?;
    Ok(Said::Dropped { node, version })
}

fn key(alloc: Global, words: &[&[u8]]) -> Result<Said, LineFault>
    ensures { Reads (IsSpelledBy (codes "key" ∷ texts words.now)) result }
{
    let (key, version, size) = list_key(alloc, words)?;
    Ok(Said::Key { key, version, size })
}

fn ended(words: &[&[u8]]) -> Result<Said, LineFault>
    ensures { Reads (IsSpelledBy (codes "ended" ∷ texts words.now)) result }
{
    let (request, word) = ending(words)?;
    Ok(Said::Ended { request, word })
}

fn node(words: &[&[u8]]) -> Result<Said, LineFault>
    ensures { Reads (IsSpelledBy (codes "node" ∷ texts words.now)) result }
{
    let (node, rows, blocks, top) = node_state(words)?;
    Ok(Said::Node {
        node,
        rows,
        blocks,
        top,
    })
}

fn fresh(words: &[&[u8]]) -> Result<Said, LineFault>
    ensures { Reads (IsSpelledBy (codes "fresh" ∷ texts words.now)) result }
{
    let pairs = alone(words)?;
    Ok(Said::Fresh(pairs))
}

fn end(words: &[&[u8]]) -> Result<Said, LineFault>
    ensures { Reads (IsSpelledBy (codes "end" ∷ texts words.now)) result }
{
    let (events, requests, messages) = triple(words)?;
    Ok(Said::End {
        events,
        requests,
        messages,
    })
}

// A request that finished: a list with a count of keys, another one with its answer.
fn done(words: &[&[u8]]) -> Result<Said, LineFault>
    ensures { Reads (IsSpelledBy (codes "done" ∷ texts words.now)) result }
{
    if let Some((request, count)) = listed(words) {
        return Ok(Said::Listed { request, count });
    }
    let (request, word, answer) = finished(words)?;
    Ok(Said::Done {
        request,
        word,
        answer,
    })
}

// What the words of a line say whose first word is that of a kind.
fn of_kind(alloc: Global, kind: Kind, words: &[&[u8]]) -> Result<Said, LineFault>
    ensures { Reads (IsSpelledBy (first_text kind ∷ texts words.now)) result }
{
    match kind {
        Kind::Size => size(words),
        Kind::Redundancy => redundancy(words),
        Kind::Sets => sets(words),
        Kind::Cut => cut(words),
        Kind::Side => side(alloc, words),
        Kind::Nodes => node_list(alloc, words),
        Kind::Got => got(words),
        Kind::Sent => sent(words),
        Kind::Synced => synced(words),
        Kind::Dropped => dropped(words),
        Kind::Done => done(words),
        Kind::Key => key(alloc, words),
        Kind::Ended => ended(words),
        Kind::Node => node(words),
        Kind::Fresh => fresh(words),
        Kind::End => end(words),
    }
}

// What the words of a line say.
fn spelled(alloc: Global, words: &[&[u8]]) -> Result<Said, LineFault>
    ensures { Reads (IsSpelledBy (texts words.now)) result }
{
    let [first, rest @ ..] = words else {
        return Err(LineFault::Outside);
    };
    match kind_of(first) {
        Some(kind) => of_kind(alloc, kind, rest),
        None => {
            let (line, name, told) = event(alloc, words)?;
            Ok(Said::Event { line, name, told })
        }
    }
}

// The parts of a line between its spaces.
fn words(alloc: Global, line: &[u8]) -> Result<Vec<&[u8]>, AllocError>
    ensures { IfOk result (λ words. texts words.items ≡ words_in line.now) }
{
    line.split(|byte| *byte == b' ').collect(alloc)
}

fn said_in(alloc: Global, line: &[u8]) -> Result<Said, LineFault>
    ensures { Reads (Says line.now) result }
{
    let words = words(alloc, line)?;
    spelled(alloc, &words)
}

/// What a line of a transcript says, without its line feed, or none where it says nothing. Numbers have no leading zero,
/// hexadecimal is in lower case, and words stand one space apart.
pub fn said(alloc: Global, line: &[u8]) -> Result<Option<Said>, Memory>
    ensures says { IfOk result (λ found. Finds (Says line.now) found) }
    ensures read { IfOk result (λ found. found ≡ said_of line.now) }
    ensures want { OnlyWant result }
{
    match said_in(alloc, line) {
        Ok(said) => Ok(Some(said)),
        Err(LineFault::Outside) => Ok(None),
        Err(LineFault::Memory) => Err(Memory::Want),
    }
}
