//! What is written after the last event.
ghost use Rattle.std.specs.Prelude.{IfOk};
ghost use Rattle.crdt_core.specs.Outcomes.{WantOr};
ghost use Rattle.k2v_api.specs.Tail.{ShowsNode, ShowsNodes, TellsTail, CannotShow, CannotShowSome, CannotTell};

use crdt_core::{Bytes, Memory};
use event_text::{end_text, node_text};
use k2v_world::{ItemWorld, NodeLine};
use std::alloc::Global;

/// The line of a node, nothing where its view is empty.
fn line_text(alloc: Global, items: &ItemWorld, node: u8) -> Result<Bytes, Memory>
    ensures text { IfOk result (ShowsNode items.now node) }
    ensures causes { WantOr result (CannotShow items.now node) }
{
    match items.node_line(node)? {
        Some(
            NodeLine {
                node,
                rows,
                blocks,
                top,
            },
        ) => node_text(alloc, node, rows, blocks, &top),
        None => Ok(Bytes::new(alloc)),
    }
}

/// The lines of these nodes, in order. `Full` comes only where one of them has a row without a spelling.
fn nodes_text(alloc: Global, items: &ItemWorld, nodes: &[u8]) -> Result<Bytes, Memory>
    ensures text { IfOk result (ShowsNodes items.now nodes.now) }
    ensures causes { WantOr result (CannotShowSome items.now nodes.now) }
{
    let mut text = Bytes::new(alloc);
    for node in nodes {
        let line = line_text(alloc, items, *node)?;
        text.extend_from_slice(line.as_slice())?;
    }
    Ok(text)
}

/// What is written after so many events: the lines of the nodes, and the last line.
pub fn tail_text(alloc: Global, items: &ItemWorld, events: usize) -> Result<Bytes, Memory>
    ensures text { IfOk result (TellsTail items.now events) }
    ensures causes { WantOr result (CannotTell items.now) }
{
    let nodes = [1, 2, 3, 4, 5, 6, 7, 8, 9, 10, 11, 12, 13, 14, 15, 16];
    let mut text = nodes_text(alloc, items, &nodes)?;
    let end = end_text(alloc, events as u64, items.requests(), items.sent())?;
    text.extend_from_slice(end.as_slice())?;
    Ok(text)
}
