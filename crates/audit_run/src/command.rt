//! The command with its input and output.
ghost use Rattle.std.specs.Prelude.{◌≡◌, ◌⊎◌, ◌++◌, ◌∷◌, [], IsTrue, IfOk};
ghost use Rattle.crdt_core.specs.Outcomes.{OnlyWant};
ghost use Rattle.lab_main.specs.Edges.{IsUnlinked, Writes};
ghost use Rattle.text_model.specs.Grammar.{lines_of};
ghost use Rattle.audit_play.specs.Parting.{IsWhole};
ghost use Rattle.audit_run.specs.Answer.{IsRefusedFor, IsAnswer};
ghost use Rattle.audit_run.specs.Command.{Audits};

use crate::findings::found;
use crate::laws::some_audit_is_stated;
use crate::parts::cut;
use crate::reply::{Reply, plain};
use audit_accounts::printed_turns_give_their_history;
use audit_findings::one_finding;
use audit_runs::{audited_transcripts_keep_promises, schedules_ascend};
use crdt_core::Memory;
use lab_main::{ends, read_input, unread};
use lab_outside::{Sink, Source, Status};
use replay_command::{Stop, bad_line, schedule_of};
use std::alloc::Global;
use text_model::schedules_are_within_limits;

/// Whether the last line of a text has no line feed.
fn is_open(text: &[u8]) -> bool
    ensures lines { IsTrue result → lines_of (text.now ++ 10 ∷ []) ≡ lines_of text.now }
    ensures whole { IsWhole text.now ⊎ IsTrue result }
{
    match text {
        [] => false,
        [.., last] => *last != b'\n',
    }
}

/// The input with a line feed at its end, where it isn't empty.
fn closed(mut input: Vec<u8>) -> Result<Vec<u8>, Memory>
    ensures lines { IfOk result (λ all. lines_of all.items ≡ lines_of input.items) }
    ensures whole { IfOk result (λ all. IsWhole all.items) }
    ensures want { OnlyWant result }
{
    if !is_open(&input) {
        return Ok(input);
    }
    input.push(b'\n')?;
    Ok(input)
}

/// What is answered where the schedule is none.
fn no_schedule(alloc: Global, stop: Stop) -> Result<Reply, Memory>
    ensures refused { IfOk result (IsRefusedFor stop) }
    ensures want { OnlyWant result }
{
    match stop {
        Stop::BadLine(line) => Ok(Reply {
            status: Status::Refused,
            text: bad_line(alloc, line)?,
        }),
        Stop::TooManyEvents => plain(alloc, Status::Limit, b"limit events 100000"),
        Stop::Memory | Stop::Write | Stop::Number | Stop::Sent => Err(Memory::Want),
    }
}

/// What is answered to whole lines.
fn answer(alloc: Global, input: &[u8]) -> Result<Reply, Memory>
    requires whole { IsWhole input.now }
    ensures stated { IfOk result (λ reply. IsAnswer input.now reply.status reply.text) }
    ensures want { OnlyWant result }
{
    schedules_ascend();
    schedules_are_within_limits();
    let parts = cut(input);
    let events = match schedule_of(alloc, parts.schedule) {
        Ok(events) => events,
        Err(stop) => return no_schedule(alloc, stop),
    };
    match parts.transcript {
        Some(text) => found(alloc, events.as_slice(), text),
        None => plain(alloc, Status::Refused, b"no transcript"),
    }
}

/// What is answered to an input.
fn reply(alloc: Global, input: Vec<u8>) -> Result<Reply, Memory>
    ensures stated { IfOk result (λ reply. IsAnswer input.items reply.status reply.text) }
    ensures want { OnlyWant result }
{
    let all = closed(input)?;
    answer(alloc, &all)
}

/// Writes what is answered to an input.
fn audit<O: Sink>(alloc: Global, input: Vec<u8>, output: &mut O) -> Status
    ensures writes { Writes O.Sink (IsAnswer input.items) result output.old output.new }
    ensures statuses { IsUnlinked result }
    ensures other { result ≡ Status.ReadFault → ⊥ }
{
    match reply(alloc, input) {
        Ok(reply) => ends(output, reply.text.as_slice(), reply.status),
        Err(_) => Status::Memory,
    }
}

/// Audits the transcript that stands behind a schedule in the input: writes the line of what is found first, `no transcript`,
/// `unreadable L`, `stale R`, `unlawful L`, `differs L` or `limit sent 268435456`; or `audit ok P`, with the number of pairs
/// of a read and a write that it owed.
///
/// Where all is well, the transcript is that of a run of the schedule in which each apply was given the layout that the
/// transcript prints, of the greatest partition size and with a cut that shows it; and beside it stands a replay with the
/// same states, of which all that is promised of replays holds.
pub fn run_audit<I: Source, O: Sink>(alloc: Global, input: &mut I, output: &mut O) -> Status
    ensures { Audits I.Source O.Sink result input.old input.new output.old output.new }
{
    audited_transcripts_keep_promises();
    one_finding();
    printed_turns_give_their_history();
    some_audit_is_stated();
    match read_input(alloc, input) {
        Ok(bytes) => audit(alloc, bytes, output),
        Err(stop) => unread(output, stop),
    }
}
