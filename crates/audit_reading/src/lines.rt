//! The lines of a transcript, one by one.
ghost use Rattle.std.specs.Prelude.{◌≡◌, ◌<◌, ◌^◌, IfOk};
ghost use Rattle.crdt_core.specs.Outcomes.{OnlyWant};
ghost use Rattle.text_model.specs.Grammar.{lines_of};
ghost use Rattle.audit_model.specs.Heard.{AscendFrom};
ghost use Rattle.audit_reading.specs.Reads.{AddsLine, account, IsReadOf};

use crate::heard::Heard;
use crate::steps::hear;
use audit_laws::lines_say_one_thing;
use audit_model::Said;
use crdt_core::{List, Memory};
use history_model::History;
use schedule_text::first_line;
use std::alloc::Global;
use store_model::Numbered;
use transcript_text::said;

/// What the lines of a transcript say, and the account of requests that they give.
#[derive(Drop)]
pub struct Reading {
    pub saids: List<Said>,
    pub history: History,
}

/// A text that can be read, or the number of its first line that can't, counted from 1. A text that ends while keys of a
/// list are still to come can't be read in the line past its last.
#[derive(Drop)]
pub enum Text {
    Readable(Reading),
    Unreadable(u64),
}

// Adds what a line says, where that can be heard. Whether it can.
fn read_line(
    alloc: Global,
    events: &[Numbered],
    line: &[u8],
    kept: &mut Heard,
    saids: &mut List<Said>,
) -> Result<bool, Memory>
    requires { AscendFrom 0 events.now }
    ensures adds { IfOk result
        (AddsLine events.now line.now kept.old kept.new saids.old saids.new) }
    ensures want { OnlyWant result }
{
    lines_say_one_thing();
    let Some(said) = said(alloc, line)? else {
        return Ok(false);
    };
    if !hear(alloc, events, kept, &said)? {
        return Ok(false);
    }
    saids.push(said)?;
    Ok(true)
}

// What was read of all lines, of which there are this many.
fn whole(count: u64, kept: Heard, saids: List<Said>) -> Text
    requires { count < 2 ^ 63 }
    ensures { result ≡ account count kept.listing kept.history saids }
{
    let Heard {
        history,
        listing,
        ..
    } = kept;
    match listing {
        Some(_) => Text::Unreadable(count + 1),
        None => Text::Readable(Reading {
            saids,
            history: History(history),
        }),
    }
}

/// Reads the lines of a transcript, one by one, with the events of its schedule at hand.
pub fn read(alloc: Global, events: &[Numbered], text: &[u8]) -> Result<Text, Memory>
    requires ascending { AscendFrom 0 events.now }
    ensures read { IfOk result (IsReadOf events.now (lines_of text.now)) }
    ensures want { OnlyWant result }
{
    let mut kept = Heard::new(alloc);
    let mut saids = List::new(alloc);
    let mut rest = text;
    let mut number = 0;
    while !rest.is_empty() {
        let (line, after) = first_line(rest);
        number += 1;
        if !read_line(alloc, events, line, &mut kept, &mut saids)? {
            return Ok(Text::Unreadable(number));
        }
        rest = after;
    }
    Ok(whole(number, kept, saids))
}
