//! A run of a schedule's events, compared with a transcript.
ghost use Rattle.std.specs.Prelude.{List, IfOk};
ghost use Rattle.crdt_core.specs.Outcomes.{OnlyWant};
ghost use Rattle.history_model.specs.declared.record.Record.{Record};
ghost use Rattle.history_model.specs.Fresh.{Fresh};
ghost use Rattle.audit_model.specs.declared.said.Said.{Said};
ghost use Rattle.audit_model.specs.Audit.{Finds};
ghost use Rattle.audit_play.specs.Comparing.{AreCompared, IsCompared, finding_of};

use crate::compared::Compared;
use crate::parting::{differs_in, ends_in};
use crate::turns::turned;
use audit_prints::{Sheet, sheets_are_of_prints};
use audit_runs::{first_turns_keep_promises, lawful_prints_are_greatest};
use crdt_core::Memory;
use replay_run::{Account, no_replay_lacks_room, tail_text};
use s3_world::S3World;
use std::alloc::Global;
use store_model::Numbered;

/// Plays the events of a schedule, each apply given the layout that a transcript prints for it, where that is of what is
/// staged, and compares what is told with that transcript, a text that is empty or ends with a line feed.
///
/// Where the account that the transcript gives is fresh, it is found so (`Finds`): that the lines are those of such a run, the
/// first line that differs, or that more was sent than may be in an event, while the lines of those before are the first ones.
pub fn compare(
    alloc: Global,
    events: &[Numbered],
    sheets: &[Sheet],
    text: &[u8],
) -> Result<Compared, Memory>
    requires { IsCompared events.now text.now sheets.now }
    ensures finds { IfOk result (λ compared. (saids : List Said) (h : List Record) →
        AreCompared events.now text.now saids h sheets.now → Fresh h → Finds events.now text.now (finding_of compared h)) }
    ensures want { OnlyWant result }
{
    first_turns_keep_promises();
    lawful_prints_are_greatest();
    no_replay_lacks_room();
    sheets_are_of_prints();
    let mut store = S3World::new(alloc)?;
    let mut place = 0;
    for next in events {
        let Some(told) = turned(alloc, &mut store, sheets, next)? else {
            return Ok(Compared::TooMuch);
        };
        if let Some(line) = differs_in(text, place, told.as_slice()) {
            return Ok(Compared::Differs(line));
        }
        place += told.len();
    }
    let tail = tail_text(alloc, Account::Transcript, &store, events.len())?;
    match ends_in(text, place, tail.as_slice()) {
        None => Ok(Compared::Same),
        Some(line) => Ok(Compared::Differs(line)),
    }
}
