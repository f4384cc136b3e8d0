//! The command with its input and output.
ghost use Rattle.std.specs.Prelude.{◌≡◌, ◌⊎◌, ◌≤◌, ℕ, Err, IfOk, OnOk, IfErr};
ghost use Rattle.std.specs.List.{All};
ghost use Rattle.crdt_core.specs.Outcomes.{OnlyWant};
ghost use Rattle.lab_outside.specs.Rose.{Rose};
ghost use Rattle.lab_main.specs.Edges.{IsUnlinked, Answers, Writes};
ghost use Rattle.k2v_text.specs.Schedule.{IsSchedule, IsFirstBadLine, HasTooManyEvents};
ghost use Rattle.k2v_world.specs.Stands.{IsMeantEvent};
ghost use Rattle.k2v_api.specs.Answer.{bad_line_text, IsAnswer};
ghost use Rattle.k2v_api.specs.Stop.{status_of, said_of, HaltsOn, IsOfSchedule, Says};
ghost use Rattle.k2v_api.specs.Command.{ReplaysItems};

use crate::laws::some_item_replay_is_stated;
use crate::stop::Stop;
use crate::transcript;
use crdt_core::{Bytes, List, Memory};
use k2v_limits::item_schedules_are_within_limits;
use k2v_lines::parse_items;
use k2v_replay::{
    first_item_turns_go_further, item_turns_end_once, moments_keep_items, no_item_replay_lacks_room,
};
use k2v_text::{NumberedItemEvent, every_item_text_reads};
use lab_main::{ends, read_input, unread};
use lab_outside::{Sink, Source, Status};
use std::alloc::Global;

/// What is said of the first line outside the grammar.
fn bad_line(alloc: Global, line: u64) -> Result<Bytes, Memory>
    ensures text { IfOk result (λ text. text ≡ bad_line_text line) }
    ensures want { OnlyWant result }
{
    let mut text = Bytes::from_slice(alloc, b"bad line ")?;
    text.extend_from_slice(itoa::Buffer::new().format(line).as_bytes())?;
    text.push(b'\n')?;
    Ok(text)
}

/// Says why a replay gave up, where that is said in the output.
fn stopped<O: Sink>(alloc: Global, output: &mut O, stop: Stop) -> Status
    ensures says { Says (status_of stop) (said_of stop) result (O.written output.old)
        (O.written output.new) (O.faults output.old) (O.faults output.new) }
    ensures failed_write { stop ≡ Stop.Write → result ≡ Status.WriteFault }
    ensures counted { O.faults output.old ≤ O.faults output.new }
    ensures told { (result ≡ Status.WriteFault) ⊎ (O.faults output.new ≡ O.faults output.old) }
{
    match stop {
        Stop::Write => Status::WriteFault,
        Stop::Memory => Status::Memory,
        Stop::TooManyEvents => ends(output, b"limit events 100000\n", Status::Limit),
        Stop::Number => ends(output, b"limit number\n", Status::Limit),
        Stop::Sent => ends(output, b"limit sent 268435456\n", Status::Limit),
        Stop::BadLine(line) => match bad_line(alloc, line) {
            Ok(text) => ends(output, text.as_slice(), Status::Refused),
            Err(_) => Status::Memory,
        },
    }
}

/// The events of the schedule that a text spells.
fn schedule_of(alloc: Global, text: &[u8]) -> Result<List<NumberedItemEvent>, Stop>
    ensures schedule { IfOk result (IsSchedule text.now) }
    ensures meant { IfOk result (λ events. All (λ e. IsMeantEvent e.event) events) }
    ensures bad_line { (n : ℕ) → result ≡ Err (Stop.BadLine n) → IsFirstBadLine text.now n }
    ensures many_events { result ≡ Err Stop.TooManyEvents → HasTooManyEvents text.now }
    ensures causes { IfErr result IsOfSchedule }
{
    every_item_text_reads();
    let events = parse_items(alloc, text)?;
    Ok(events)
}

/// Writes the transcript of the schedule that a text spells.
fn replay<O: Sink>(alloc: Global, text: &[u8], output: &mut O) -> Result<(), Stop>
    ensures done { OnOk result (Answers (IsAnswer text.now) Status.Done (O.written output.old)
        (O.written output.new)) }
    ensures halts { IfErr result
        (λ stop. HaltsOn text.now stop (O.written output.old) (O.written output.new)) }
    ensures fault { result ≡ Err Stop.Write → Rose (O.faults output.old) (O.faults output.new) }
    ensures counted { O.faults output.old ≤ O.faults output.new }
    ensures told { (result ≡ Err Stop.Write) ⊎ (O.faults output.new ≡ O.faults output.old) }
{
    item_schedules_are_within_limits();
    no_item_replay_lacks_room();
    first_item_turns_go_further();
    let events = schedule_of(alloc, text)?;
    transcript::replay(alloc, events.as_slice(), output)
}

/// Replays the schedule that a text spells, and says how that ended.
fn replayed<O: Sink>(alloc: Global, text: &[u8], output: &mut O) -> Status
    ensures writes { Writes O.Sink (IsAnswer text.now) result output.old output.new }
    ensures statuses { IsUnlinked result }
    ensures other { result ≡ Status.ReadFault → ⊥ }
{
    match replay(alloc, text, output) {
        Ok(()) => Status::Done,
        Err(stop) => stopped(alloc, output, stop),
    }
}

/// Replays the schedule over items that the input spells, and writes its transcript.
///
/// At each moment of the run whose transcript was written whole, within drains too: each write that a finished read shows is
/// one of its item that began before the read finished, with the value that is shown, and each write that still asks for its
/// item's row may be made. And where of the strings that the run hashes for walks no two have one digest, and none has 32
/// zero bytes: each finished read shows each write of its item that was acknowledged before it began, or one that replaced
/// it; it shows none that was replaced by a write acknowledged before it began; and a row that shows a write of a node
/// shows each acknowledged write of its item at that node with a smaller number, or its discard time covers it.
pub fn k2v<I: Source, O: Sink>(alloc: Global, input: &mut I, output: &mut O) -> Status
    ensures { ReplaysItems I.Source O.Sink result input.old input.new output.old output.new }
{
    moments_keep_items();
    some_item_replay_is_stated();
    item_turns_end_once();
    match read_input(alloc, input) {
        Ok(text) => replayed(alloc, &text, output),
        Err(stop) => unread(output, stop),
    }
}
