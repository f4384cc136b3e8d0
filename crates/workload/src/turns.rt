//! The turns of a workload.
ghost use Rattle.std.specs.Prelude.{◌≡◌, ◌<◌, ◌^◌, ◌++◌, length, OnOk};
ghost use Rattle.crdt_core.specs.Outcomes.{OnlyWant};
ghost use Rattle.workload.specs.Turns.{plain_turn};
ghost use Rattle.workload.specs.Schedule.{turn_of};

use crate::change::add_change;
use crate::events::draw_event;
use crate::numbers::Numbers;
use crdt_core::{List, Memory};
use std::alloc::Global;
use store_model::Event;

/// Adds a drawn event, and deliveries behind it.
#[tactic(auto, unfolding(crate::specs::Turns::plain_turn))]
fn add_plain_turn(
    alloc: Global,
    numbers: &mut Numbers,
    events: &mut List<Event>,
) -> Result<(), Memory>
    requires some { 0 < length events.old }
    requires few { length events.old < 2 ^ 32 }
    ensures events { OnOk result
        (events.new ≡ events.old ++ (plain_turn numbers.old.state (length events.old)).events) }
    ensures state { OnOk result
        (numbers.new.state ≡ (plain_turn numbers.old.state (length events.old)).state) }
    ensures want { OnlyWant result }
{
    let event = draw_event(alloc, events.len() as u64, numbers)?;
    events.push(event)?;
    let deliveries = 1 + numbers.draw(40) as u32;
    events.push(Event::Drain(deliveries))
}

/// Adds the events of a turn, counted from 1.
pub(crate) fn add_turn(
    alloc: Global,
    turn: u32,
    numbers: &mut Numbers,
    events: &mut List<Event>,
) -> Result<(), Memory>
    requires some { 0 < length events.old }
    requires few { length events.old < 2 ^ 32 }
    ensures events { OnOk result
        (events.new ≡ events.old ++ (turn_of turn numbers.old.state (length events.old)).events) }
    ensures state { OnOk result
        (numbers.new.state ≡ (turn_of turn numbers.old.state (length events.old)).state) }
    ensures want { OnlyWant result }
{
    if turn % 250 == 0 {
        add_change(alloc, turn / 250, events)
    } else {
        add_plain_turn(alloc, numbers, events)
    }
}
