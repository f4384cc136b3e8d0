//! The event that a line spells.
ghost use Rattle.std.specs.Prelude.{◌≡◌, ◌∷◌, codes, take, IfOk};
ghost use Rattle.text_model.specs.Grammar.{Spells};
ghost use Rattle.text_model.specs.Words.{words_in, IsSpelledBy};
ghost use Rattle.crdt_core.specs.Outcomes.{OnlyWant};
ghost use Rattle.schedule_text.specs.Reads.{Finds, Reads};
ghost use Rattle.schedule_text.specs.Kinds.{texts};

use crate::fault::LineFault;
use crate::line_kind::{Kind, kind_of};
use crate::names::bucket_name;
use crate::numbers::{filling, issued_alone, node, node_alone, number_alone};
use crate::places::{object, place, prefixed, split_three};
use crate::roles::{role_of, wanted};
use crdt_core::Memory;
use std::alloc::{AllocError, Global};
use store_model::Event;

fn trio(words: &[&[u8]]) -> Result<Event, LineFault>
    ensures { Reads (IsSpelledBy (codes "trio" ∷ texts words.now)) result }
{
    match words {
        [] => Ok(Event::Trio),
        _ => Err(LineFault::Outside),
    }
}

fn block(words: &[&[u8]]) -> Result<Event, LineFault>
    ensures { Reads (IsSpelledBy (codes "block" ∷ texts words.now)) result }
{
    Ok(Event::Block(number_alone(words, 16, 1_048_576)? as u32))
}

fn bucket(alloc: Global, words: &[&[u8]]) -> Result<Event, LineFault>
    ensures { Reads (IsSpelledBy (codes "bucket" ∷ texts words.now)) result }
{
    match *words {
        [name] => Ok(Event::Bucket(bucket_name(alloc, name)?)),
        _ => Err(LineFault::Outside),
    }
}

fn role(alloc: Global, words: &[&[u8]]) -> Result<Event, LineFault>
    ensures { Reads (IsSpelledBy (codes "role" ∷ texts words.now)) result }
{
    let [at, rest @ ..] = words else {
        return Err(LineFault::Outside);
    };
    Ok(Event::Role {
        node: node(at)?,
        role: role_of(alloc, rest)?,
    })
}

fn redundancy(words: &[&[u8]]) -> Result<Event, LineFault>
    ensures { Reads (IsSpelledBy (codes "redundancy" ∷ texts words.now)) result }
{
    match *words {
        [word] => Ok(Event::Redundancy(wanted(word)?)),
        _ => Err(LineFault::Outside),
    }
}

fn apply(words: &[&[u8]]) -> Result<Event, LineFault>
    ensures { Reads (IsSpelledBy (codes "apply" ∷ texts words.now)) result }
{
    Ok(Event::Apply(node_alone(words)?))
}

fn tick(words: &[&[u8]]) -> Result<Event, LineFault>
    ensures { Reads (IsSpelledBy (codes "tick" ∷ texts words.now)) result }
{
    Ok(Event::Tick(number_alone(words, 0, 86_400_000)?))
}

fn skew(words: &[&[u8]]) -> Result<Event, LineFault>
    ensures { Reads (IsSpelledBy (codes "skew" ∷ texts words.now)) result }
{
    let [at, rest @ ..] = words else {
        return Err(LineFault::Outside);
    };
    Ok(Event::Skew {
        node: node(at)?,
        ms: number_alone(rest, 0, 3_600_000)?,
    })
}

fn put(alloc: Global, words: &[&[u8]]) -> Result<Event, LineFault>
    ensures { Reads (IsSpelledBy (codes "put" ∷ texts words.now)) result }
{
    let (front, rest) = split_three(words);
    let (node, bucket, key) = place(alloc, front)?;
    let (size, fill) = filling(rest)?;
    Ok(Event::Put {
        node,
        bucket,
        key,
        size,
        fill,
    })
}

fn get(alloc: Global, words: &[&[u8]]) -> Result<Event, LineFault>
    ensures { Reads (IsSpelledBy (codes "get" ∷ texts words.now)) result }
{
    let (node, bucket, key) = place(alloc, words)?;
    Ok(Event::Get { node, bucket, key })
}

fn head(alloc: Global, words: &[&[u8]]) -> Result<Event, LineFault>
    ensures { Reads (IsSpelledBy (codes "head" ∷ texts words.now)) result }
{
    let (node, bucket, key) = place(alloc, words)?;
    Ok(Event::Head { node, bucket, key })
}

fn delete(alloc: Global, words: &[&[u8]]) -> Result<Event, LineFault>
    ensures { Reads (IsSpelledBy (codes "delete" ∷ texts words.now)) result }
{
    let (node, bucket, key) = place(alloc, words)?;
    Ok(Event::Delete { node, bucket, key })
}

fn copy(alloc: Global, words: &[&[u8]]) -> Result<Event, LineFault>
    ensures { Reads (IsSpelledBy (codes "copy" ∷ texts words.now)) result }
{
    let (front, rest) = split_three(words);
    let (node, from_bucket, from_key) = place(alloc, front)?;
    let (bucket, key) = object(alloc, rest)?;
    Ok(Event::Copy {
        node,
        from_bucket,
        from_key,
        bucket,
        key,
    })
}

fn list(alloc: Global, words: &[&[u8]]) -> Result<Event, LineFault>
    ensures { Reads (IsSpelledBy (codes "list" ∷ texts words.now)) result }
{
    let [at, rest @ ..] = words else {
        return Err(LineFault::Outside);
    };
    let (bucket, prefix) = prefixed(alloc, rest)?;
    Ok(Event::List {
        node: node(at)?,
        bucket,
        prefix,
    })
}

fn deliver(words: &[&[u8]]) -> Result<Event, LineFault>
    ensures { Reads (IsSpelledBy (codes "deliver" ∷ texts words.now)) result }
{
    Ok(Event::Deliver(issued_alone(words)?))
}

fn lose(words: &[&[u8]]) -> Result<Event, LineFault>
    ensures { Reads (IsSpelledBy (codes "lose" ∷ texts words.now)) result }
{
    Ok(Event::Lose(issued_alone(words)?))
}

fn drain(words: &[&[u8]]) -> Result<Event, LineFault>
    ensures { Reads (IsSpelledBy (codes "drain" ∷ texts words.now)) result }
{
    Ok(Event::Drain(number_alone(words, 1, 1_000_000)? as u32))
}

fn expire(words: &[&[u8]]) -> Result<Event, LineFault>
    ensures { Reads (IsSpelledBy (codes "expire" ∷ texts words.now)) result }
{
    Ok(Event::Expire(issued_alone(words)?))
}

fn restart(words: &[&[u8]]) -> Result<Event, LineFault>
    ensures { Reads (IsSpelledBy (codes "restart" ∷ texts words.now)) result }
{
    Ok(Event::Restart(node_alone(words)?))
}

fn gossip(words: &[&[u8]]) -> Result<Event, LineFault>
    ensures { Reads (IsSpelledBy (codes "gossip" ∷ texts words.now)) result }
{
    match *words {
        [from, to] => Ok(Event::Gossip {
            from: node(from)?,
            to: node(to)?,
        }),
        _ => Err(LineFault::Outside),
    }
}

fn ack(words: &[&[u8]]) -> Result<Event, LineFault>
    ensures { Reads (IsSpelledBy (codes "ack" ∷ texts words.now)) result }
{
    Ok(Event::Ack(node_alone(words)?))
}

fn sync(words: &[&[u8]]) -> Result<Event, LineFault>
    ensures { Reads (IsSpelledBy (codes "sync" ∷ texts words.now)) result }
{
    Ok(Event::Sync(node_alone(words)?))
}

fn sync_ack(words: &[&[u8]]) -> Result<Event, LineFault>
    ensures { Reads (IsSpelledBy (codes "syncack" ∷ texts words.now)) result }
{
    Ok(Event::SyncAck(node_alone(words)?))
}

fn clean(words: &[&[u8]]) -> Result<Event, LineFault>
    ensures { Reads (IsSpelledBy (codes "clean" ∷ texts words.now)) result }
{
    Ok(Event::Clean(node_alone(words)?))
}

fn work(words: &[&[u8]]) -> Result<Event, LineFault>
    ensures { Reads (IsSpelledBy (codes "work" ∷ texts words.now)) result }
{
    Ok(Event::Work(node_alone(words)?))
}

fn repair(words: &[&[u8]]) -> Result<Event, LineFault>
    ensures { Reads (IsSpelledBy (codes "repair" ∷ texts words.now)) result }
{
    Ok(Event::Repair(node_alone(words)?))
}

fn collect(words: &[&[u8]]) -> Result<Event, LineFault>
    ensures { Reads (IsSpelledBy (codes "collect" ∷ texts words.now)) result }
{
    Ok(Event::Collect(node_alone(words)?))
}

/// The event that the words of a line spell.
fn spelled(alloc: Global, words: &[&[u8]]) -> Result<Event, LineFault>
    ensures { Reads (IsSpelledBy (texts words.now)) result }
{
    let [first, rest @ ..] = words else {
        return Err(LineFault::Outside);
    };
    match kind_of(first).ok_or(LineFault::Outside)? {
        Kind::Trio => trio(rest),
        Kind::Block => block(rest),
        Kind::Bucket => bucket(alloc, rest),
        Kind::Role => role(alloc, rest),
        Kind::Redundancy => redundancy(rest),
        Kind::Apply => apply(rest),
        Kind::Tick => tick(rest),
        Kind::Skew => skew(rest),
        Kind::Put => put(alloc, rest),
        Kind::Get => get(alloc, rest),
        Kind::Head => head(alloc, rest),
        Kind::Delete => delete(alloc, rest),
        Kind::Copy => copy(alloc, rest),
        Kind::List => list(alloc, rest),
        Kind::Deliver => deliver(rest),
        Kind::Lose => lose(rest),
        Kind::Drain => drain(rest),
        Kind::Expire => expire(rest),
        Kind::Restart => restart(rest),
        Kind::Gossip => gossip(rest),
        Kind::Ack => ack(rest),
        Kind::Sync => sync(rest),
        Kind::SyncAck => sync_ack(rest),
        Kind::Clean => clean(rest),
        Kind::Work => work(rest),
        Kind::Repair => repair(rest),
        Kind::Collect => collect(rest),
    }
}

/// The first words of a line: no event has more than six, so a seventh stands for all the others.
fn words(alloc: Global, line: &[u8]) -> Result<Vec<&[u8]>, AllocError>
    ensures { IfOk result (λ words. texts words.items ≡ take 7 (words_in line.now)) }
{
    line.split(|byte| *byte == b' ').take(7).collect(alloc)
}

/// The event that a line spells.
pub(crate) fn event_in(alloc: Global, line: &[u8]) -> Result<Event, LineFault>
    ensures { Reads (Spells line.now) result }
{
    let words = words(alloc, line)?;
    spelled(alloc, &words)
}

/// The event that a line of a schedule spells, or none where it spells none: also where the line is empty or begins with
/// `#`. Numbers have no leading zero, and words stand one space apart.
pub fn event_line(alloc: Global, line: &[u8]) -> Result<Option<Event>, Memory>
    ensures spelled { IfOk result (λ found. Finds (Spells line.now) found) }
    ensures want { OnlyWant result }
{
    match event_in(alloc, line) {
        Ok(event) => Ok(Some(event)),
        Err(LineFault::Outside) => Ok(None),
        Err(LineFault::Memory) => Err(Memory::Want),
    }
}
