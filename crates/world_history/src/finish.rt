//! Where a request finished, and with what.
ghost use Rattle.std.specs.Prelude.{◌≡◌, ◌<◌, length, option_map, slice_get};
ghost use Rattle.world_history.specs.Index.{place_of};
ghost use Rattle.history_model.specs.Record.{next, finish, acknowledged};
ghost use Rattle.world_history.specs.Finish.{lent_finish};

use crate::index::Index;
use crdt_rows::Version;
use history_model::{Answer, Record};

// The place of the entry at k, if it is one of this request.
fn place_of(order: &[(u64, usize)], k: usize, request: u64) -> Option<usize>
    ensures { result ≡ place_of request (slice_get order.now k) }
{
    match order.get(k) {
        Some((other, place)) if *other == request => Some(*place),
        _ => None,
    }
}

// The place of the next record after place i that speaks of a request.
fn next(index: &Index<'_>, i: usize, request: u64) -> Option<usize>
    requires { i < length index.now.records.now }
    ensures { result ≡ next index.now.records.now i request }
{
    match index.order.as_slice().binary_search(&(request, i + 1)) {
        Ok(_) => Some(i + 1),
        Err(found) => place_of(index.order.as_slice(), found, request),
    }
}

/// Where the request that began at place i finished, and its answer.
pub fn finish<'a>(index: &Index<'a>, i: usize, request: u64) -> Option<(usize, &'a Answer)>
    requires { i < length index.now.records.now }
    ensures { option_map lent_finish result ≡ finish index.now.records.now i request }
{
    let end = next(index, i, request)?;
    match index.records.get(end) {
        Some(Record::Finished { answer, .. }) => Some((end, answer)),
        _ => None,
    }
}

/// Where the request that began at place i was acknowledged, and with which version.
pub fn acknowledged(index: &Index<'_>, i: usize, request: u64) -> Option<(usize, Version)>
    requires { i < length index.now.records.now }
    ensures { result ≡ acknowledged index.now.records.now i request }
{
    match finish(index, i, request) {
        Some((end, Answer::Version(version))) => Some((end, *version)),
        _ => None,
    }
}
