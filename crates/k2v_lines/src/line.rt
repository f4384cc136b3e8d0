//! The event that a line spells.
ghost use Rattle.std.specs.Prelude.{◌≡◌, ◌∷◌, codes, take, IfOk};
ghost use Rattle.crdt_core.specs.Outcomes.{OnlyWant};
ghost use Rattle.schedule_text.specs.Kinds.{texts};
ghost use Rattle.schedule_text.specs.Reads.{Finds, Reads};
ghost use Rattle.text_model.specs.Words.{words_in};
ghost use Rattle.k2v_text.specs.Grammar.{Spells, is_common};
ghost use Rattle.k2v_lines.specs.Words.{IsSpelledBy, IsCommon};

use crate::words::item;
use crdt_core::Memory;
use k2v_text::ItemEvent;
use schedule_text::{LineFault, event_line, is, number};
use std::alloc::{AllocError, Global};
use store_model::Event;

/// The greatest number that a token may have.
const TOKEN_LIMIT: u64 = 4_294_967_295;

/// A request to write a value, by the words behind its name.
fn put(alloc: Global, words: &[&[u8]]) -> Result<ItemEvent, LineFault>
    ensures { Reads (IsSpelledBy (codes "kput" ∷ texts words.now)) result }
{
    match *words {
        [at, bucket, pk, sk, size, fill, token] => Ok(ItemEvent::Put {
            node: number(at, 1, 16)? as u8,
            item: item(alloc, bucket, pk, sk)?,
            size: number(size, 0, 65_536)? as u32,
            fill: number(fill, 0, 250)? as u8,
            token: number(token, 0, TOKEN_LIMIT)?,
        }),
        _ => Err(LineFault::Outside),
    }
}

/// A request to write that there is no value, by the words behind its name.
fn delete(alloc: Global, words: &[&[u8]]) -> Result<ItemEvent, LineFault>
    ensures { Reads (IsSpelledBy (codes "kdel" ∷ texts words.now)) result }
{
    match *words {
        [at, bucket, pk, sk, token] => Ok(ItemEvent::Delete {
            node: number(at, 1, 16)? as u8,
            item: item(alloc, bucket, pk, sk)?,
            token: number(token, 0, TOKEN_LIMIT)?,
        }),
        _ => Err(LineFault::Outside),
    }
}

/// A request to read, by the words behind its name.
fn get(alloc: Global, words: &[&[u8]]) -> Result<ItemEvent, LineFault>
    ensures { Reads (IsSpelledBy (codes "kget" ∷ texts words.now)) result }
{
    match *words {
        [at, bucket, pk, sk] => Ok(ItemEvent::Get {
            node: number(at, 1, 16)? as u8,
            item: item(alloc, bucket, pk, sk)?,
        }),
        _ => Err(LineFault::Outside),
    }
}

/// Whether both kinds of schedules have an event: it concerns no object and no size of blocks.
fn is_common(event: &Event) -> bool
    ensures { result ≡ is_common event.now }
{
    !matches!(
        event,
        Event::Block(_)
            | Event::Put { .. }
            | Event::Get { .. }
            | Event::Head { .. }
            | Event::Delete { .. }
            | Event::Copy { .. }
            | Event::List { .. }
    )
}

/// The event of a line that schedules of objects have too.
fn common(alloc: Global, line: &[u8]) -> Result<ItemEvent, LineFault>
    ensures { Reads (IsCommon line.now) result }
{
    let Some(event) = event_line(alloc, line)? else {
        return Err(LineFault::Outside);
    };
    if !is_common(&event) {
        return Err(LineFault::Outside);
    }
    Ok(ItemEvent::Common(event))
}

/// The first words of a line: no event has more than eight, so a ninth stands for all the others.
fn words(alloc: Global, line: &[u8]) -> Result<Vec<&[u8]>, AllocError>
    ensures { IfOk result (λ words. texts words.items ≡ take 9 (words_in line.now)) }
{
    line.split(|byte| *byte == b' ').take(9).collect(alloc)
}

/// The event that the words of a line spell, which begins so, or that the line spells as one that schedules of objects have.
fn spelled(alloc: Global, line: &[u8], name: &[u8], words: &[&[u8]]) -> Result<ItemEvent, LineFault>
    requires first { take 9 (words_in line.now) ≡ name.now ∷ texts words.now }
    ensures { Reads (Spells line.now) result }
{
    if is(name, b"kput") {
        put(alloc, words)
    } else if is(name, b"kdel") {
        delete(alloc, words)
    } else if is(name, b"kget") {
        get(alloc, words)
    } else {
        common(alloc, line)
    }
}

/// The event that a line spells.
fn event_in(alloc: Global, line: &[u8]) -> Result<ItemEvent, LineFault>
    ensures { Reads (Spells line.now) result }
{
    let words = words(alloc, line)?;
    match words.as_slice() {
        [name, rest @ ..] => spelled(alloc, line, name, rest),
        [] => Err(LineFault::Outside),
    }
}

/// The event that a line of a schedule over items spells, or none where it spells none: also where the line is empty or
/// begins with `#`.
pub fn item_line(alloc: Global, line: &[u8]) -> Result<Option<ItemEvent>, Memory>
    ensures spelled { IfOk result (Finds (Spells line.now)) }
    ensures want { OnlyWant result }
{
    match event_in(alloc, line) {
        Ok(event) => Ok(Some(event)),
        Err(LineFault::Outside) => Ok(None),
        Err(LineFault::Memory) => Err(Memory::Want),
    }
}
