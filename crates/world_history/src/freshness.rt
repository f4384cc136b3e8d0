//! Whether each finished read of a history is fresh, and which one isn't.
ghost use Rattle.std.specs.Prelude.{◌≡◌, ◌<◌, ◌↔◌, length, IsTrue, IsNone, IfSome, IfOk};
ghost use Rattle.crdt_core.specs.Outcomes.{OnlyWant};
ghost use Rattle.world_history.specs.Checks.{stale_at, earlier_of, IsFirstBelow};
ghost use Rattle.stale_model.specs.Stale.{IsFirstStale};
ghost use Rattle.history_model.specs.Fresh.{Fresh};

use crate::finish::finish;
use crate::past::Past;
use crate::read::Read;
use crdt_core::Memory;
use history_model::{History, Record};
use std::alloc::Global;

// Where the read that began at this place, if one did, finished, with its request's number, unless it is fresh.
fn stale_at(past: &Past<'_>, i: usize) -> Option<(usize, u64)>
    requires { i < length past.now.table.index.records.now }
    ensures { result ≡ stale_at past.now.table.index.records.now i }
{
    match &past.table.index.records[i] {
        Record::Began {
            request,
            kind,
            bucket,
            key,
            ..
        } if kind.is_read() => {
            let (finished, answer) = finish(&past.table.index, i, *request)?;
            let read = Read {
                kind: *kind,
                bucket,
                key,
                began: i,
                finished,
                answer,
            };
            if read.covers_all(past) && read.shows_written(&past.table.index) {
                None
            } else {
                Some((finished, *request))
            }
        }
        _ => None,
    }
}

// The earlier of two places, each with a request's number, of which each may be missing.
fn earlier(a: Option<(usize, u64)>, b: Option<(usize, u64)>) -> Option<(usize, u64)>
    ensures { result ≡ earlier_of a b }
{
    match (a, b) {
        (Some(a), Some(b)) => Some(if b.0 < a.0 { b } else { a }),
        (None, b) => b,
        (a, None) => a,
    }
}

/// The first place at which a read finished that isn't fresh, with its request's number.
pub fn first_of(past: &Past<'_>) -> Option<(usize, u64)>
    ensures { IsFirstBelow (stale_at past.now.table.index.records.now) (length past.now.table.index.records.now) result }
{
    let mut first = None;
    for i in 0..past.table.index.records.len() {
        first = earlier(first, stale_at(past, i));
    }
    first
}

/// The number of the request whose finished read doesn't show what it owes; of several the one that finished first.
pub fn first_stale(alloc: Global, h: &History) -> Result<Option<u64>, Memory>
    ensures none { IfOk result (λ stale. IsNone stale ↔ Fresh h.now.0) }
    ensures first { IfOk result (λ stale. IfSome stale (IsFirstStale h.now.0)) }
    ensures want { OnlyWant result }
{
    let past = Past::new(alloc, h.0.as_slice())?;
    match first_of(&past) {
        Some((_, request)) => Ok(Some(request)),
        None => Ok(None),
    }
}

/// Whether each finished read shows what it owes.
pub fn fresh(alloc: Global, h: &History) -> Result<bool, Memory>
    ensures told { IfOk result (λ yes. IsTrue yes ↔ Fresh h.now.0) }
    ensures want { OnlyWant result }
{
    let stale = first_stale(alloc, h)?;
    Ok(stale.is_none())
}
