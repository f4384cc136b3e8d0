//! The words of some kinds of lines, behind the first one.
ghost use Rattle.schedule_text.specs.Reads.{Reads};
ghost use Rattle.schedule_text.specs.Kinds.{texts};
ghost use Rattle.transcript_text.specs.Words.{IsSets, IsSent, IsDropped, IsKey, IsEnded, IsNode};

use crate::answers::{end_word, sent_kind, version};
use crate::numbers::{hash, whole};
use cluster_machine::{EndWord, SentKind};
use crdt_core::Bytes;
use schedule_text::{LineFault, is, object_key};
use std::alloc::Global;

/// The first and the last of some partitions, and their set.
pub(crate) fn set_run(words: &[&[u8]]) -> Result<(u64, u64, (u64, u64, u64)), LineFault>
    ensures { Reads (IsSets (texts words.now)) result }
{
    match *words {
        [first, last, one, two, three] => Ok((
            whole(first)?,
            whole(last)?,
            (whole(one)?, whole(two)?, whole(three)?),
        )),
        _ => Err(LineFault::Outside),
    }
}

/// A message's number and kind, and the nodes that it goes from and to.
pub(crate) fn message(words: &[&[u8]]) -> Result<(u64, SentKind, u64, u64), LineFault>
    ensures { Reads (IsSent (texts words.now)) result }
{
    match *words {
        [number, kind, from, to] => {
            Ok((whole(number)?, sent_kind(kind)?, whole(from)?, whole(to)?))
        }
        _ => Err(LineFault::Outside),
    }
}

/// A node that dropped a row, and the version of its delete marker.
pub(crate) fn dropping(words: &[&[u8]]) -> Result<(u64, (u64, u64)), LineFault>
    ensures { Reads (IsDropped (texts words.now)) result }
{
    match *words {
        [node, stamp] => Ok((whole(node)?, version(stamp)?)),
        _ => Err(LineFault::Outside),
    }
}

/// A key of a list, its version and its size in bytes.
pub(crate) fn list_key(
    alloc: Global,
    words: &[&[u8]],
) -> Result<(Bytes, (u64, u64), u64), LineFault>
    ensures { Reads (IsKey (texts words.now)) result }
{
    match *words {
        [key, stamp, size] => Ok((object_key(alloc, key)?, version(stamp)?, whole(size)?)),
        _ => Err(LineFault::Outside),
    }
}

/// A request, and why it ended.
pub(crate) fn ending(words: &[&[u8]]) -> Result<(u64, EndWord), LineFault>
    ensures { Reads (IsEnded (texts words.now)) result }
{
    match *words {
        [request, cause] => Ok((whole(request)?, end_word(cause)?)),
        _ => Err(LineFault::Outside),
    }
}

/// A node, how many rows and blocks it has, and the hash over the roots of its tables.
pub(crate) fn node_state(words: &[&[u8]]) -> Result<(u64, u64, u64, [u8; 32]), LineFault>
    ensures { Reads (IsNode (texts words.now)) result }
{
    match *words {
        [node, rows_name, rows, blocks_name, blocks, top_name, top]
            if is(rows_name, b"rows") && is(blocks_name, b"blocks") && is(top_name, b"top") => {
            Ok((whole(node)?, whole(rows)?, whole(blocks)?, hash(top)?))
        }
        _ => Err(LineFault::Outside),
    }
}
