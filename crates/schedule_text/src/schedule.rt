//! The lines of a schedule, one by one.
ghost use Rattle.std.specs.Prelude.{◌≡◌, ◌==◌, ◌<◌, ℕ, ◌∷◌, length, position, IsTrue, IfOk, OnOk};
ghost use Rattle.text_model.specs.Grammar.{lines_of, is_blank};
ghost use Rattle.text_model.specs.Reading.{events_limit, IsSchedule, IsFirstBadLine, HasTooManyEvents};
ghost use Rattle.schedule_text.specs.Schedule.{AddsEvent, IsBad, IsOver};

use crate::fault::{LineFault, ScheduleFault};
use crate::line::event_in;
use crdt_core::List;
use std::alloc::Global;
use store_model::Numbered;

/// How many events a schedule may have.
pub const EVENTS_LIMIT: usize = 100_000;

fn line_feed(text: &[u8]) -> Option<usize>
    ensures { result ≡ position (λ b. b == 10) text.now }
{
    text.iter().position(|byte| *byte == b'\n')
}

/// The first line of a text, without its line feed, and what follows it.
pub fn first_line(text: &[u8]) -> (&[u8], &[u8])
    requires { 0 < length text.now }
    ensures lines { lines_of text.now ≡ result.0.now ∷ lines_of result.1.now }
    ensures shorter { length result.1.now < length text.now }
{
    match line_feed(text) {
        Some(end) => (&text[..end], &text[end + 1..]),
        None => (text, &[]),
    }
}

/// Whether a line is empty or a comment.
pub fn is_blank(line: &[u8]) -> bool
    ensures { result ≡ is_blank line.now }
{
    match line {
        [] => true,
        [first, ..] => *first == b'#',
    }
}

/// Adds the event that a line spells, where it isn't blank and there is room.
fn read_line(
    alloc: Global,
    number: u64,
    line: &[u8],
    events: &mut List<Numbered>,
) -> Result<(), ScheduleFault>
    ensures ok { OnOk result (AddsEvent number line.now events.old events.new) }
    ensures bad { (n : ℕ) → result ≡ Err (ScheduleFault.BadLine n) → (n ≡ number) × IsBad line.now }
    ensures over { result ≡ Err ScheduleFault.TooManyEvents → IsOver line.now events.old }
{
    if is_blank(line) {
        return Ok(());
    }
    match event_in(alloc, line) {
        Ok(event) => {
            if events.len() >= EVENTS_LIMIT {
                return Err(ScheduleFault::TooManyEvents);
            }
            events.push(Numbered {
                line: number,
                event,
            })?;
            Ok(())
        }
        Err(LineFault::Outside) => Err(ScheduleFault::BadLine(number)),
        Err(LineFault::Memory) => Err(ScheduleFault::Memory),
    }
}

/// The events of a schedule, each with the number of its line, counted from 1: at most 100,000. Empty lines and those
/// that begin with `#` are no events, but count; the last line may lack its line feed.
pub fn parse(alloc: Global, text: &[u8]) -> Result<List<Numbered>, ScheduleFault>
    ensures events { IfOk result (IsSchedule text.now) }
    ensures bad_line { (n : ℕ) → result ≡ Err (ScheduleFault.BadLine n) →
        IsFirstBadLine text.now n }
    ensures too_many { result ≡ Err ScheduleFault.TooManyEvents → HasTooManyEvents text.now }
{
    let mut events = List::new(alloc);
    let mut rest = text;
    let mut number = 0;
    while !rest.is_empty() {
        let (line, after) = first_line(rest);
        number += 1;
        read_line(alloc, number, line, &mut events)?;
        rest = after;
    }
    Ok(events)
}
