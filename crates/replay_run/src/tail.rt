//! What is written after the last event.
ghost use Rattle.std.specs.Prelude.{IfOk};
ghost use Rattle.crdt_core.specs.Outcomes.{WantOr};
ghost use Rattle.replay_run.specs.Turning.{TellsTail, CannotTell};

use crate::account::Account;
use crate::check::check_line;
use crate::summary::opening;
use crdt_core::{Bytes, Memory};
use event_text::end_text;
use s3_world::S3World;
use std::alloc::Global;
use world_text::nodes_text;

/// What is written after so many events: a summary's first lines, the lines of the nodes, the line of a check, and the last
/// line.
pub fn tail_text(
    alloc: Global,
    account: Account,
    store: &S3World,
    events: usize,
) -> Result<Bytes, Memory>
    ensures text { IfOk result (TellsTail account store.now events) }
    ensures causes { WantOr result (CannotTell store.now) }
{
    let nodes = [1, 2, 3, 4, 5, 6, 7, 8, 9, 10, 11, 12, 13, 14, 15, 16];
    let mut text = opening(alloc, account, store)?;
    let lines = nodes_text(alloc, store, &nodes)?;
    text.extend_from_slice(lines.as_slice())?;
    let check = check_line(alloc, account, store)?;
    text.extend_from_slice(check.as_slice())?;
    let end = end_text(alloc, events as u64, store.requests(), store.sent())?;
    text.extend_from_slice(end.as_slice())?;
    Ok(text)
}
