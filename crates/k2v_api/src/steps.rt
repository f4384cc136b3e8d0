//! The events of a schedule, step by step.
ghost use Rattle.std.specs.Prelude.{◌≡◌, IfOk, IfErr};
ghost use Rattle.k2v_model.specs.Run.{State};
ghost use Rattle.k2v_world.specs.Stands.{IsItems, HasItems, IsMeantEvent};
ghost use Rattle.k2v_api.specs.Turning.{drain_count, TakesStep, Takes, Delivers, StepStops, DrainStops, EventStops};

use crate::stop::Stop;
use cluster_machine::Words;
use crdt_core::List;
use k2v_model::ItemLine;
use k2v_text::{ItemEvent, ItemTold};
use k2v_world::ItemWorld;
use std::alloc::Global;
use store_model::Event;

/// How many bytes the messages may count that were ever sent.
const SENT_LIMIT: u64 = 268_435_456;

/// Takes one step, and looks at what was sent.
fn one_step(items: &mut ItemWorld, event: &ItemEvent) -> Result<ItemTold, Stop>
    requires stands { HasItems items.old }
    requires meant { IsMeantEvent event.now }
    ensures takes { IfOk result (λ told. (s : State) → IsItems items.old s →
        TakesStep items.new told s event.now) }
    ensures causes { IfErr result (StepStops items.old event.now) }
{
    let told = items.step(event)?;
    let sent = items.sent_bytes();
    if sent > SENT_LIMIT {
        return Err(Stop::Sent);
    }
    Ok(told)
}

/// Delivers the least message that was neither delivered nor lost, up to `count` times, each in a step of its own.
fn drained(alloc: Global, items: &mut ItemWorld, count: u32) -> Result<List<ItemLine>, Stop>
    requires stands { HasItems items.old }
    ensures delivers { IfOk result (λ lines. (s : State) → IsItems items.old s →
        Delivers items.new lines count s) }
    ensures causes { IfErr result (DrainStops items.old count) }
{
    let mut lines = List::new(alloc);
    let mut left = count;
    while left > 0 {
        let Some(message) = items.undelivered() else {
            return Ok(lines);
        };
        let event = ItemEvent::Common(Event::Deliver(message));
        let mut told = one_step(items, &event)?;
        lines.append(&mut told.lines)?;
        left -= 1;
    }
    Ok(lines)
}

/// How many deliveries a drain may have.
fn drain_count(event: &ItemEvent) -> Option<u32>
    ensures { result ≡ drain_count event.now }
{
    match event {
        ItemEvent::Common(Event::Drain(count)) => Some(*count),
        _ => None,
    }
}

/// Takes the next event, step by step.
pub fn takes(alloc: Global, items: &mut ItemWorld, event: &ItemEvent) -> Result<ItemTold, Stop>
    requires stands { HasItems items.old }
    requires meant { IsMeantEvent event.now }
    ensures takes { IfOk result (λ told. (s : State) → IsItems items.old s →
        Takes items.new told s event.now) }
    ensures causes { IfErr result (EventStops items.old event.now) }
{
    match drain_count(event) {
        Some(count) => {
            let lines = drained(alloc, items, count)?;
            Ok(ItemTold {
                refused: None,
                words: Words::Empty,
                lines,
            })
        }
        None => one_step(items, event),
    }
}
