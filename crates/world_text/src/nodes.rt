//! The lines of nodes.
ghost use Rattle.std.specs.Prelude.{IfOk};
ghost use Rattle.crdt_core.specs.Outcomes.{WantOr};
ghost use Rattle.world_text.specs.Shown.{ShowsNode, ShowsNodes, CannotShow, CannotShowSome};

use crdt_core::{Bytes, Memory};
use event_text::node_text;
use s3_world::{NodeLine, S3World};
use std::alloc::Global;

/// The line of a node, nothing where its view is empty.
fn line_text(alloc: Global, world: &S3World, node: u8) -> Result<Bytes, Memory>
    ensures text { IfOk result (ShowsNode world.now node) }
    ensures causes { WantOr result (CannotShow world.now node) }
{
    match world.node_line(node)? {
        Some(
            NodeLine {
                node,
                rows,
                blocks,
                top,
            },
        ) => node_text(alloc, node, rows, blocks, &top),
        None => Ok(Bytes::new(alloc)),
    }
}

/// The lines of these nodes, in order. `Full` comes only where one of them has a row without a spelling.
pub fn nodes_text(alloc: Global, world: &S3World, nodes: &[u8]) -> Result<Bytes, Memory>
    ensures text { IfOk result (ShowsNodes world.now nodes.now) }
    ensures causes { WantOr result (CannotShowSome world.now nodes.now) }
{
    let mut text = Bytes::new(alloc);
    for node in nodes {
        let line = line_text(alloc, world, *node)?;
        text.extend_from_slice(line.as_slice())?;
    }
    Ok(text)
}
