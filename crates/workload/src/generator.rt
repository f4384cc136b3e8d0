//! The schedule of a workload.
ghost use Rattle.std.specs.Prelude.{◌≡◌, ◌<◌, ◌≤◌, ◌^◌, length, IfOk};
ghost use Rattle.std.specs.List.{All};
ghost use Rattle.crdt_core.specs.Outcomes.{OnlyWant};
ghost use Rattle.text_model.specs.Grammar.{IsAllowed};
ghost use Rattle.workload.specs.Schedule.{opening, on_lines, schedule};

use crate::events::pics;
use crate::numbers::Numbers;
use crate::turns::add_turn;
use crdt_core::{List, Memory};
use std::alloc::Global;
use store_model::{Event, Numbered};

/// Three nodes, a bucket and a size of blocks.
fn opening(alloc: Global) -> Result<List<Event>, Memory>
    ensures events { IfOk result (λ events. events ≡ opening) }
    ensures want { OnlyWant result }
{
    let mut events = List::new(alloc);
    events.push(Event::Trio)?;
    events.push(Event::Bucket(pics(alloc)?))?;
    events.push(Event::Block(4096))?;
    Ok(events)
}

/// The events, each on a line, counted from 1.
fn on_lines(alloc: Global, events: List<Event>) -> Result<List<Numbered>, Memory>
    requires few { length events < 2 ^ 33 }
    ensures lines { IfOk result (λ numbered. numbered ≡ on_lines 1 events) }
    ensures want { OnlyWant result }
{
    let mut numbered = List::new(alloc);
    for event in events.into_vec() {
        let line = numbered.len() as u64 + 1;
        numbered.push(Numbered { line, event })?;
    }
    Ok(numbered)
}

/// The first `n` events that a seed gives; event i stands on line i.
pub fn schedule(alloc: Global, n: u32, seed: u64) -> Result<List<Numbered>, Memory>
    ensures events { IfOk result (λ events. events ≡ schedule n seed) }
    ensures meant { n ≤ 2 ^ 29 → IfOk result (λ events. All (λ e. IsAllowed e.event) events) }
    ensures want { OnlyWant result }
{
    let mut numbers = Numbers::new(seed);
    let mut events = opening(alloc)?;
    let mut turn: u32 = 0;
    while events.len() < n as usize {
        turn += 1;
        add_turn(alloc, turn, &mut numbers, &mut events)?;
    }
    events.truncate(n as usize);
    on_lines(alloc, events)
}
