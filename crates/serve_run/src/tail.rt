//! What is written at the end.
ghost use Rattle.std.specs.Prelude.{◌≡◌, ◌∷◌, map, flat_map, IfOk};
ghost use Rattle.store_model.specs.Run.{State};
ghost use Rattle.layout_roles.specs.Text.{set_lines as lines_of};
ghost use Rattle.s3_world.specs.Stands.{IsStore};
ghost use Rattle.crdt_core.specs.Outcomes.{OnlyWant, WantOr};
ghost use Rattle.world_text.specs.Shown.{CannotShowSome};
ghost use Rattle.serve_run.specs.Served.{all_nodes, tail};

use crdt_core::{Bytes, Memory};
use event_text::end_text;
use layout_roles::Assignment;
use layout_text::set_lines;
use s3_world::S3World;
use std::alloc::Global;
use world_text::nodes_text;

/// The nodes that a server may have.
const NODES: [u8; 16] = [1, 2, 3, 4, 5, 6, 7, 8, 9, 10, 11, 12, 13, 14, 15, 16];

/// The sets of the first layout version, and then those of the later ones.
fn versions_text(alloc: Global, first: &Assignment, later: &[Assignment]) -> Result<Bytes, Memory>
    ensures text { IfOk result (λ text. text ≡ flat_map lines_of (first.now.sets ∷ map (λ sets. sets.sets) later.now)) }
    ensures want { OnlyWant result }
{
    let mut text = set_lines(alloc, first)?;
    for sets in later {
        let lines = set_lines(alloc, sets)?;
        text.extend_from_slice(lines.as_slice())?;
    }
    Ok(text)
}

/// What is written after so many connections: the sets of each layout version, the lines of the nodes, and the last line.
pub fn tail_text(
    alloc: Global,
    first: &Assignment,
    later: &[Assignment],
    world: &S3World,
    connections: u32,
) -> Result<Bytes, Memory>
    ensures text { IfOk result (λ text. (s : State) → IsStore world.now s → text ≡ tail (first.now.sets ∷ map (λ sets. sets.sets) later.now) connections s) }
    ensures causes { WantOr result (CannotShowSome world.now all_nodes) }
{
    let mut text = versions_text(alloc, first, later)?;
    let lines = nodes_text(alloc, world, &NODES)?;
    text.extend_from_slice(lines.as_slice())?;
    let end = end_text(
        alloc,
        u64::from(connections),
        world.requests(),
        world.sent(),
    )?;
    text.extend_from_slice(end.as_slice())?;
    Ok(text)
}
