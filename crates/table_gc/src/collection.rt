//! What answers make of one collection.
ghost use Rattle.std.specs.Prelude.{◌≡◌, Some, OnOk, OnErr, IfOk};
ghost use Rattle.crdt_core.specs.Outcomes.{OnlyWant};
ghost use Rattle.quorum_model.specs.Quorum.{is_among};
ghost use Rattle.gc_model.specs.Rounds.{given, is_closed};
ghost use Rattle.gc_model.specs.Collecting.{has_confirmed, confirmed_count, is_other, end_of, after_answer, told, is_ready, in_second, missing_of};

use crdt_core::{List, Memory};
use gc_model::{Collection, GcEnd};
use std::alloc::Global;

/// How many nodes confirm a round.
pub const NODES: usize = 16;

pub fn is_closed(end: GcEnd) -> bool
    ensures { result ≡ is_closed end }
{
    matches!(end, GcEnd::Closed)
}

fn is_among(node: u8, nodes: &[u8]) -> bool
    ensures { result ≡ is_among node nodes.now }
{
    nodes.iter().any(|other| *other == node)
}

fn given(node: u8, first: &[(u8, u32)]) -> Option<u32>
    ensures { result ≡ given node first.now }
{
    match first.iter().find(|answer| answer.0 == node) {
        Some(answer) => Some(answer.1),
        None => None,
    }
}

fn has_confirmed(collection: &Collection, node: u8) -> bool
    ensures { result ≡ has_confirmed node collection.now }
{
    if collection.round == 1 {
        given(node, collection.first.as_slice()).is_some()
    } else {
        is_among(node, collection.again.as_slice())
    }
}

fn confirmed_count(collection: &Collection) -> usize
    ensures { result ≡ confirmed_count collection.now }
{
    if collection.round == 1 {
        collection.first.len()
    } else {
        collection.again.len()
    }
}

// The node gave another newest version in round 1.
fn is_other(collection: &Collection, node: u8, newest: u32) -> bool
    ensures { result ≡ is_other node newest collection.now }
{
    match given(node, collection.first.as_slice()) {
        Some(first) => first != newest,
        None => true,
    }
}

/// Where an answer of this round leads.
pub fn end_of(collection: &Collection, round: u8, node: u8, newest: u32) -> GcEnd
    ensures { result ≡ end_of round node newest collection.now }
{
    if round != collection.round {
        return GcEnd::Wait;
    }
    if round == 2 && is_other(collection, node, newest) {
        return GcEnd::Closed;
    }
    if !has_confirmed(collection, node) && confirmed_count(collection) == NODES - 1 {
        return GcEnd::Complete;
    }
    GcEnd::Wait
}

/// Takes an answer that doesn't close the collection. One of another round changes nothing.
pub fn tell(
    collection: &mut Collection,
    round: u8,
    node: u8,
    newest: u32,
    now: u64,
) -> Result<(), Memory>
    ensures ok { OnOk result (collection.new ≡ told round node newest now collection.old) }
    ensures err { OnErr result (collection.new ≡ collection.old) }
    ensures want { OnlyWant result }
{
    if round == collection.round {
        return confirm(collection, node, newest, now);
    }
    Ok(())
}

// Takes an answer of the open round that doesn't close the collection.
fn confirm(collection: &mut Collection, node: u8, newest: u32, now: u64) -> Result<(), Memory>
    ensures ok { OnOk result (collection.new ≡ after_answer node newest now collection.old) }
    ensures err { OnErr result (collection.new ≡ collection.old) }
    ensures want { OnlyWant result }
{
    if has_confirmed(collection, node) {
        return Ok(());
    }
    if collection.round == 1 {
        collection.first.push((node, newest))?;
        if collection.first.len() == NODES {
            collection.ready = Some(now);
        }
        return Ok(());
    }
    collection.again.push(node)
}

/// Round 1 is complete, and round 2 hasn't begun.
pub fn is_ready(collection: &Collection) -> bool
    ensures { result ≡ is_ready (Some collection.now) }
{
    collection.round == 1 && collection.ready.is_some()
}

/// Begins round 2, which the own node confirms.
pub fn begin_second(collection: &mut Collection) -> Result<(), Memory>
    ensures ok { OnOk result (collection.new ≡ in_second collection.old) }
    ensures err { OnErr result (collection.new ≡ collection.old) }
    ensures want { OnlyWant result }
{
    let mut again = List::new(collection.again.allocator());
    again.push(collection.own)?;
    collection.round = 2;
    collection.again = again;
    Ok(())
}

/// The nodes from 1 to 16 that haven't confirmed the open round.
pub fn missing(collection: &Collection, alloc: Global) -> Result<Vec<u8>, Memory>
    ensures nodes { IfOk result (λ v. v.items ≡ missing_of collection.now) }
    ensures want { OnlyWant result }
{
    let nodes = [1, 2, 3, 4, 5, 6, 7, 8, 9, 10, 11, 12, 13, 14, 15, 16];
    let waited = nodes
        .iter()
        .filter(|node| !has_confirmed(collection, **node));
    Ok(waited.map(|node| *node).collect(alloc)?)
}
