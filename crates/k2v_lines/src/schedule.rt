//! The lines of a schedule over items, one by one.
ghost use Rattle.std.specs.Prelude.{◌≡◌, ℕ, length, IfOk, OnOk};
ghost use Rattle.text_model.specs.Grammar.{is_blank};
ghost use Rattle.k2v_text.specs.Schedule.{IsSchedule, IsFirstBadLine, HasTooManyEvents};
ghost use Rattle.k2v_lines.specs.Schedule.{AddsEvent, IsBad, IsOver};

use crate::line::item_line;
use crdt_core::List;
use k2v_text::NumberedItemEvent;
use schedule_text::{EVENTS_LIMIT, ScheduleFault, first_line, is_blank};
use std::alloc::Global;

/// Adds the event that a line spells, where it isn't blank and there is room.
fn read_line(
    alloc: Global,
    line: u64,
    text: &[u8],
    events: &mut List<NumberedItemEvent>,
) -> Result<(), ScheduleFault>
    ensures ok { OnOk result (AddsEvent line text.now events.old events.new) }
    ensures bad { (n : ℕ) → result ≡ Err (ScheduleFault.BadLine n) → (n ≡ line) × IsBad text.now }
    ensures over { result ≡ Err ScheduleFault.TooManyEvents → IsOver text.now events.old }
{
    if is_blank(text) {
        return Ok(());
    }
    let Some(event) = item_line(alloc, text)? else {
        return Err(ScheduleFault::BadLine(line));
    };
    if events.len() >= EVENTS_LIMIT {
        return Err(ScheduleFault::TooManyEvents);
    }
    events.push(NumberedItemEvent { line, event })?;
    Ok(())
}

/// The events of a schedule over items, each with the number of its line, counted from 1: at most 100,000. Empty lines and
/// those that begin with `#` are no events, but count; the last line may lack its line feed.
pub fn parse_items(alloc: Global, text: &[u8]) -> Result<List<NumberedItemEvent>, ScheduleFault>
    ensures events { IfOk result (IsSchedule text.now) }
    ensures bad_line { (n : ℕ) → result ≡ Err (ScheduleFault.BadLine n) →
        IsFirstBadLine text.now n }
    ensures too_many { result ≡ Err ScheduleFault.TooManyEvents → HasTooManyEvents text.now }
{
    let mut events = List::new(alloc);
    let mut rest = text;
    let mut number = 0;
    while !rest.is_empty() {
        let (line, after) = first_line(rest);
        number += 1;
        read_line(alloc, number, line, &mut events)?;
        rest = after;
    }
    Ok(events)
}
