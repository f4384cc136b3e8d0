//! The command with its input and output.
ghost use Rattle.std.specs.Prelude.{◌≡◌, IfOk};
ghost use Rattle.crdt_core.specs.Outcomes.{OnlyWant};
ghost use Rattle.lab_main.specs.Edges.{IsUnlinked, Writes};
ghost use Rattle.layout_command.specs.Command.{IsReply, LaysOut};

use crate::laws::{one_moves_status, one_status, some_layout_is_stated};
use crate::moves::moves_answer;
use crate::reply::{Reply, answer};
use crdt_core::Memory;
use lab_main::{ends, read_input, unread};
use lab_outside::{Sink, Source, Status};
use std::alloc::Global;

/// Which layout is looked for.
#[derive(Clone, Copy, Debug, PartialEq, Eq)]
pub enum Goal {
    /// One of the greatest partition size.
    Size,
    /// Of those one that moves the fewest copies from the old sets.
    Moves,
}

/// What is answered to the bytes of a configuration.
fn reply(alloc: Global, goal: Goal, bytes: &[u8]) -> Result<Reply, Memory>
    ensures stated { IfOk result (λ reply. IsReply goal bytes.now reply.status reply.text) }
    ensures want { OnlyWant result }
{
    match goal {
        Goal::Size => answer(alloc, bytes),
        Goal::Moves => moves_answer(alloc, bytes),
    }
}

/// Prints what is answered to the bytes of a configuration.
fn lay_out<O: Sink>(alloc: Global, goal: Goal, bytes: &[u8], output: &mut O) -> Status
    ensures writes { Writes O.Sink (IsReply goal bytes.now) result output.old output.new }
    ensures statuses { IsUnlinked result }
    ensures other { result ≡ Status.ReadFault → ⊥ }
{
    match reply(alloc, goal, bytes) {
        Ok(reply) => ends(output, reply.text.as_slice(), reply.status),
        Err(_) => Status::Memory,
    }
}

/// Prints the layout of the nodes that the input says, or why there is none.
pub fn run_layout<I: Source, O: Sink>(
    alloc: Global,
    goal: Goal,
    input: &mut I,
    output: &mut O,
) -> Status
    ensures { LaysOut I.Source O.Sink goal result input.old input.new output.old output.new }
{
    some_layout_is_stated();
    one_status();
    one_moves_status();
    match read_input(alloc, input) {
        Ok(bytes) => lay_out(alloc, goal, &bytes, output),
        Err(stop) => unread(output, stop),
    }
}
