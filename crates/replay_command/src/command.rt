//! The command with its input and output.
ghost use Rattle.std.specs.Prelude.{◌≡◌, ◌⊎◌, ◌≤◌, Err, IfOk, OnOk, IfErr};
ghost use Rattle.crdt_core.specs.Outcomes.{OnlyWant};
ghost use Rattle.lab_outside.specs.Rose.{Rose};
ghost use Rattle.lab_main.specs.Edges.{IsUnlinked, Answers, Writes};
ghost use Rattle.replay_command.specs.Answer.{bad_line_text, IsAnswer};
ghost use Rattle.replay_command.specs.Stop.{status_of, said_of, Halts, Says};
ghost use Rattle.replay_command.specs.Replay.{Replays};

use crate::laws::some_replay_is_stated;
use crate::schedule::schedule_of;
use crate::stop::Stop;
use crdt_core::{Bytes, Memory};
use lab_main::{ends, read_input, unread};
use lab_outside::{Sink, Source, Status};
use prompt_laws::timely_turns_collect_safely;
use replay_run::{Account, first_turns_go_further, lawful_turns_end_once, no_replay_lacks_room};
use std::alloc::Global;
use store_anchors::promises_are_kept;
use text_model::schedules_are_within_limits;

/// What is said of the first line outside the grammar, by its number.
pub fn bad_line(alloc: Global, line: u64) -> Result<Bytes, Memory>
    ensures text { IfOk result (λ text. text ≡ bad_line_text line) }
    ensures want { OnlyWant result }
{
    let mut text = Bytes::from_slice(alloc, b"bad line ")?;
    text.extend_from_slice(itoa::Buffer::new().format(line).as_bytes())?;
    text.push(b'\n')?;
    Ok(text)
}

/// Says why a replay gave up, where that is said in the output.
fn stopped<O: Sink>(alloc: Global, output: &mut O, stop: Stop) -> Status
    ensures says { Says (status_of stop) (said_of stop) result (O.written output.old)
        (O.written output.new) (O.faults output.old) (O.faults output.new) }
    ensures failed_write { stop ≡ Stop.Write → result ≡ Status.WriteFault }
    ensures counted { O.faults output.old ≤ O.faults output.new }
    ensures told { (result ≡ Status.WriteFault) ⊎ (O.faults output.new ≡ O.faults output.old) }
{
    match stop {
        Stop::Write => Status::WriteFault,
        Stop::Memory => Status::Memory,
        Stop::TooManyEvents => ends(output, b"limit events 100000\n", Status::Limit),
        Stop::Number => ends(output, b"limit number\n", Status::Limit),
        Stop::Sent => ends(output, b"limit sent 268435456\n", Status::Limit),
        Stop::BadLine(line) => match bad_line(alloc, line) {
            Ok(text) => ends(output, text.as_slice(), Status::Refused),
            Err(_) => Status::Memory,
        },
    }
}

/// Writes an account of the replay of the schedule that a text spells.
fn replay<O: Sink>(alloc: Global, account: Account, text: &[u8], output: &mut O) -> Result<(), Stop>
    ensures done { OnOk result (Answers (IsAnswer account text.now) Status.Done
        (O.written output.old) (O.written output.new)) }
    ensures halts { IfErr result
        (λ stop. Halts account text.now stop (O.written output.old) (O.written output.new)) }
    ensures fault { result ≡ Err Stop.Write → Rose (O.faults output.old) (O.faults output.new) }
    ensures counted { O.faults output.old ≤ O.faults output.new }
    ensures told { (result ≡ Err Stop.Write) ⊎ (O.faults output.new ≡ O.faults output.old) }
{
    schedules_are_within_limits();
    no_replay_lacks_room();
    first_turns_go_further();
    let events = schedule_of(alloc, text)?;
    replay_run::replay(alloc, account, events.as_slice(), output)?;
    Ok(())
}

/// Replays the schedule that a text spells, and says how that ended.
fn replayed<O: Sink>(alloc: Global, account: Account, text: &[u8], output: &mut O) -> Status
    ensures writes { Writes O.Sink (IsAnswer account text.now) result output.old output.new }
    ensures statuses { IsUnlinked result }
    ensures other { result ≡ Status.ReadFault → ⊥ }
{
    match replay(alloc, account, text, output) {
        Ok(()) => Status::Done,
        Err(stop) => stopped(alloc, output, stop),
    }
}

/// Replays the schedule that the input spells, and writes an account of it.
///
/// At each moment of the run whose account was written whole, within drains too: the sizes and MD5s that lines of reads tell
/// are those of the bytes that were written as the versions beside them, and replicas that accepted the same rows are equal.
/// And where of the strings that the run hashes for walks no two have one digest, and none has 32 zero bytes: answered reads
/// are fresh, also by the records alone; a read ends superseded only where its version was overwritten, and no open request
/// waits for what never comes; and the blocks of acknowledged, undeleted versions lie with live references. Where bytes are
/// kept in blocks, and for these, no two blocks may have one digest, and walks may not clash. Where delete markers are
/// collected, reads are fresh if messages come, and phases begin and end, within an hour.
pub fn run_replay<I: Source, O: Sink>(
    alloc: Global,
    account: Account,
    input: &mut I,
    output: &mut O,
) -> Status
    ensures { Replays I.Source O.Sink account result input.old input.new output.old output.new }
{
    promises_are_kept();
    schedules_are_within_limits();
    timely_turns_collect_safely();
    some_replay_is_stated();
    lawful_turns_end_once();
    match read_input(alloc, input) {
        Ok(text) => replayed(alloc, account, &text, output),
        Err(stop) => unread(output, stop),
    }
}
