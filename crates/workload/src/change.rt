//! The turns that change the layout.
ghost use Rattle.std.specs.Prelude.{◌≡◌, ◌++◌, OnOk};
ghost use Rattle.crdt_core.specs.Outcomes.{OnlyWant};
ghost use Rattle.workload.specs.Change.{spread, restarts, applied, moved, cleaned, change};

use crate::duty::{Duty, add_duties};
use crate::roles::add_roles;
use crdt_core::{List, Memory};
use std::alloc::Global;
use store_model::Event;

/// Every node hears what any knows of the layout.
fn add_spread(events: &mut List<Event>) -> Result<(), Memory>
    ensures ok { OnOk result (events.new ≡ events.old ++ spread) }
    ensures want { OnlyWant result }
{
    add_duties(events, Duty::Tell, 2)?;
    events.push(Event::Drain(10_000))?;
    add_duties(events, Duty::Hear, 2)?;
    events.push(Event::Drain(10_000))
}

/// What was sent is delivered, and all nodes restart.
fn add_restarts(events: &mut List<Event>) -> Result<(), Memory>
    ensures ok { OnOk result (events.new ≡ events.old ++ restarts) }
    ensures want { OnlyWant result }
{
    events.push(Event::Drain(10_000))?;
    add_duties(events, Duty::Restart, 1)
}

/// The roles of change `j` become a layout, of which every node hears.
fn add_applied(alloc: Global, j: u32, events: &mut List<Event>) -> Result<(), Memory>
    ensures ok { OnOk result (events.new ≡ events.old ++ applied j) }
    ensures want { OnlyWant result }
{
    add_roles(alloc, j, events)?;
    events.push(Event::Apply(1))?;
    add_spread(events)
}

/// Rows move to the nodes that have them in the new layout.
fn add_moved(events: &mut List<Event>) -> Result<(), Memory>
    ensures ok { OnOk result (events.new ≡ events.old ++ moved) }
    ensures want { OnlyWant result }
{
    add_duties(events, Duty::Ack, 1)?;
    add_spread(events)?;
    add_duties(events, Duty::Sync, 1)?;
    events.push(Event::Drain(10_000))?;
    add_spread(events)
}

/// The layout before the new one is dropped.
fn add_cleaned(events: &mut List<Event>) -> Result<(), Memory>
    ensures ok { OnOk result (events.new ≡ events.old ++ cleaned) }
    ensures want { OnlyWant result }
{
    add_duties(events, Duty::SyncAck, 1)?;
    add_spread(events)?;
    add_duties(events, Duty::Clean, 1)
}

/// Adds the events of change `j`, counted from 1.
#[tactic(auto, unfolding(crate::specs::Change::change))]
pub(crate) fn add_change(alloc: Global, j: u32, events: &mut List<Event>) -> Result<(), Memory>
    ensures ok { OnOk result (events.new ≡ events.old ++ change j) }
    ensures want { OnlyWant result }
{
    add_restarts(events)?;
    add_applied(alloc, j, events)?;
    add_moved(events)?;
    add_cleaned(events)
}
