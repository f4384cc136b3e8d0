//! The program as one call.
ghost use Rattle.std.specs.Prelude.{◌≡◌, None};
ghost use Rattle.garage_lab.specs.Command.{IsInRange, Asks, AskNothing};
ghost use Rattle.garage_lab.specs.Run.{Does, TellsUsage};

use crate::command::{Command, asked_by};
use audit_run::run_audit;
use k2v_api::k2v;
use lab_main::usage;
use lab_outside::{Clock, Link, Sink, Source, Status};
use layout_command::{Goal, run_layout};
use replay_command::run_replay;
use replay_run::Account;
use serve_run::run_server;
use std::alloc::Global;
use workload_run::run_workload;

/// Does what a command is.
fn run_command<I: Source, O: Sink, L: Link, C: Clock>(
    alloc: Global,
    command: Command,
    input: &mut I,
    output: &mut O,
    link: &mut L,
    clock: &mut C,
) -> Status
    requires absent { L.present link.old ≡ None }
    requires in_range { IsInRange command }
    ensures does { Does I.Source O.Sink L.Link C.Clock command result input.old input.new output.old output.new link.old link.new clock.old clock.new }
    ensures no_usage { result ≡ Status.Usage → ⊥ }
{
    match command {
        Command::Layout => run_layout(alloc, Goal::Size, input, output),
        Command::Moves => run_layout(alloc, Goal::Moves, input, output),
        Command::Replay => run_replay(alloc, Account::Transcript, input, output),
        Command::Check => run_replay(alloc, Account::Checked, input, output),
        Command::Audit => run_audit(alloc, input, output),
        Command::Items => k2v(alloc, input, output),
        Command::Workload(workload) => run_workload(alloc, workload, output),
        Command::Serve(server) => run_server(alloc, server, input, output, link, clock),
    }
}

/// Does what the words after the program's name ask for.
pub fn run<I: Source, O: Sink, L: Link, C: Clock>(
    alloc: Global,
    words: &[String],
    input: &mut I,
    output: &mut O,
    link: &mut L,
    clock: &mut C,
) -> Status
    requires absent { L.present link.old ≡ None }

    // Of each command all that is said of it: how it reads and what it writes (`Edges`), what its answers say and when they
    // come (`LaysOut`, `Replays`, `Audits`, `ReplaysItems`, `Summarizes`, `Serves`).
    ensures does { (command : Command) → Asks words.now command →
        Does I.Source O.Sink L.Link C.Clock command result input.old input.new
        output.old output.new link.old link.new clock.old clock.new }

    // Words that ask for nothing bring the usage line, and no other words do.
    ensures usage { AskNothing words.now →
        TellsUsage O.Sink result input.old input.new output.old output.new link.old link.new clock.old clock.new }
    ensures usage_alone { result ≡ Status.Usage → AskNothing words.now }
{
    match asked_by(words) {
        Some(command) => run_command(alloc, command, input, output, link, clock),
        None => usage(output),
    }
}
