//! The transcript of a schedule's replay.
ghost use Rattle.std.specs.Prelude.{◌≡◌, ◌⊎◌, ◌≤◌, Err, IfOk, OnOk, IfErr};
ghost use Rattle.std.specs.List.{All};
ghost use Rattle.lab_outside.specs.Rose.{Rose};
ghost use Rattle.k2v_world.specs.Stands.{HasItems, IsMeantEvent};
ghost use Rattle.k2v_api.specs.Turning.{TurnsOne, EventStops};
ghost use Rattle.k2v_api.specs.Stop.{Halts, IsWhole};

use crate::steps::takes;
use crate::stop::Stop;
use crate::tail::tail_text;
use crdt_core::Bytes;
use k2v_lines::{item_name, told_text};
use k2v_text::NumberedItemEvent;
use k2v_world::ItemWorld;
use lab_outside::{Sink, write_whole};
use std::alloc::Global;

/// Takes the next event, and gives what is written of it.
fn event_text(alloc: Global, items: &mut ItemWorld, next: &NumberedItemEvent) -> Result<Bytes, Stop>
    requires stands { HasItems items.old }
    requires meant { IsMeantEvent next.now.event }
    ensures turns { IfOk result (λ text. TurnsOne items.old items.new next.now text) }
    ensures causes { IfErr result (EventStops items.old next.now.event) }
{
    let told = takes(alloc, items, &next.event)?;
    let text = told_text(alloc, next.line, item_name(&next.event), told)?;
    Ok(text)
}

/// Writes the transcript of the events: what each event tells, when the event is whole, and what follows the last one; up to
/// the event with the first step after which something doesn't fit, or more was sent than 268,435,456 bytes.
pub fn replay<O: Sink>(
    alloc: Global,
    events: &[NumberedItemEvent],
    output: &mut O,
) -> Result<(), Stop>
    requires meant { All (λ e. IsMeantEvent e.event) events.now }

    // Ok comes with the whole transcript. Sent and Number come where what was written, with the line of that limit, is how a
    // replay of the events ends; Write and Memory after a first part of it.
    ensures whole { OnOk result (IsWhole events.now (O.written output.old) (O.written output.new)) }
    ensures halts { IfErr result
        (λ stop. Halts events.now stop (O.written output.old) (O.written output.new)) }

    // A failed write comes only where the count of the output's faults rose, and is always told.
    ensures fault { result ≡ Err Stop.Write → Rose (O.faults output.old) (O.faults output.new) }
    ensures counted { O.faults output.old ≤ O.faults output.new }
    ensures steady { (result ≡ Err Stop.Write) ⊎ (O.faults output.new ≡ O.faults output.old) }
{
    let mut items = ItemWorld::new(alloc)?;
    for next in events {
        let text = event_text(alloc, &mut items, next)?;
        write_whole(output, text.as_slice())?;
    }
    let tail = tail_text(alloc, &items, events.len())?;
    write_whole(output, tail.as_slice())?;
    Ok(())
}
