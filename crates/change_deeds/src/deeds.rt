//! What is done to a world in a layout change, as a list.
ghost use Rattle.std.specs.Prelude.{◌≡◌, ◌∷◌, ◌++◌, [], map, IfOk, OnOk};
ghost use Rattle.crdt_core.specs.Outcomes.{OnlyWant};
ghost use Rattle.change_model.specs.Steps.{to_one, from_one};
ghost use Rattle.serve_changes.specs.Acts.{shows_acts, spreads_acts, each_acts};
ghost use Rattle.store_model.specs.Acts.{forgets};
ghost use Rattle.change_deeds.specs.Deeds.{act_of, step_of, acts_past_apply};

use cluster_machine::Action;
use crdt_core::{List, Memory};
use std::alloc::Global;

/// What is done to a world.
#[derive(Clone, Copy, Debug)]
pub enum Deed {
    /// A node shows its view to another.
    Show { from: u8, to: u8 },
    /// A node acts.
    Turn { action: Action, node: u8 },
    /// All messages are delivered.
    Drain,
}

// A node shows its view to each of the others, and all messages are delivered.
fn show_from(deeds: &mut List<Deed>, node: u8, part: &[u8]) -> Result<(), Memory>
    ensures shows { OnOk result (map act_of deeds.new ≡ map act_of deeds.old ++ shows_acts
        (from_one node part.now)) }
    ensures want { OnlyWant result }
{
    for other in part {
        if *other != node {
            deeds.push(Deed::Show {
                from: node,
                to: *other,
            })?;
        }
    }
    deeds.push(Deed::Drain)?;
    Ok(())
}

// Each of the others shows its view to a node, and all messages are delivered.
fn show_to(deeds: &mut List<Deed>, node: u8, part: &[u8]) -> Result<(), Memory>
    ensures shows { OnOk result (map act_of deeds.new ≡ map act_of deeds.old ++ shows_acts
        (to_one node part.now)) }
    ensures want { OnlyWant result }
{
    for other in part {
        if *other != node {
            deeds.push(Deed::Show {
                from: *other,
                to: node,
            })?;
        }
    }
    deeds.push(Deed::Drain)?;
    Ok(())
}

// What all know becomes known to a node, and then to all.
fn spread(deeds: &mut List<Deed>, node: u8, part: &[u8]) -> Result<(), Memory>
    ensures spreads { OnOk result (map act_of deeds.new ≡ map act_of deeds.old ++
        spreads_acts node part.now) }
    ensures want { OnlyWant result }
{
    show_to(deeds, node, part)?;
    show_from(deeds, node, part)?;
    Ok(())
}

// Each node acts so.
fn turns(deeds: &mut List<Deed>, action: Action, part: &[u8]) -> Result<(), Memory>
    ensures turns { OnOk result (map act_of deeds.new ≡ map act_of deeds.old ++ each_acts
        (step_of action) part.now) }
    ensures want { OnlyWant result }
{
    for node in part {
        deeds.push(Deed::Turn {
            action,
            node: *node,
        })?;
    }
    Ok(())
}

// Each node acts so, and then it spreads what they know.
fn turns_spread(deeds: &mut List<Deed>, action: Action, node: u8, part: &[u8]) -> Result<(), Memory>
    ensures turns { OnOk result (map act_of deeds.new ≡ map act_of deeds.old ++
        (each_acts (step_of action) part.now ++ spreads_acts node part.now)) }
    ensures want { OnlyWant result }
{
    turns(deeds, action, part)?;
    spread(deeds, node, part)?;
    Ok(())
}

/// What is done in a layout change once a node has applied the layout, among those that take part, but that delivered
/// messages are forgotten at the end.
pub fn deeds_past_apply(alloc: Global, node: u8, part: &[u8]) -> Result<List<Deed>, Memory>
    ensures deeds { IfOk result
        (λ deeds. map act_of deeds ++ forgets ∷ [] ≡ acts_past_apply node part.now) }
    ensures want { OnlyWant result }
{
    let mut deeds = List::new(alloc);
    show_from(&mut deeds, node, part)?;
    turns_spread(&mut deeds, Action::Ack, node, part)?;
    turns(&mut deeds, Action::Sync, part)?;
    deeds.push(Deed::Drain)?;
    spread(&mut deeds, node, part)?;
    turns_spread(&mut deeds, Action::SyncAck, node, part)?;
    turns(&mut deeds, Action::Clean, part)?;
    Ok(deeds)
}
