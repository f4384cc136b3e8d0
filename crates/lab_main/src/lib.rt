//! How a program of the laboratory begins and ends: its words, its input, its last text with the status that goes with it,
//! and its exit code.
//!
//! `words` are those after the program's name, none where one of them is no text. `read_input` reads the input whole, and
//! `unread` says why there is none. `ends` writes a text whole and answers a status, or `WriteFault` after a first part of it
//! (`Ends`); `usage` ends with the words that are known. `exit_code` is a status's number. What is said of the input and the
//! output of every command is one record, `Edges`.
#![tactic(auto)]

mod arguments;
mod reader;

ghost use Rattle.std.specs.Prelude.{◌≡◌, ◌≤◌, ◌⊎◌};
ghost use Rattle.std.specs.Process.{exit_status};
ghost use Rattle.lab_outside.specs.Exit.{code_of};
ghost use Rattle.lab_main.specs.Ends.{Ends, usage_line};

pub use crate::arguments::words;
pub use crate::reader::{InputStop, read_input, unread};
use lab_outside::{Failed, Sink, Status, write_whole};
use std::process::ExitCode;

/// Writes the last text, and answers the status that goes with it.
pub fn ends<O: Sink>(output: &mut O, text: &[u8], status: Status) -> Status
    // The status comes with the whole text. WriteFault may come in its place, where the count of faults rose, after a first
    // part of it.
    ensures says { Ends status text.now result (O.written output.old) (O.written output.new)
        (O.faults output.old) (O.faults output.new) }
    ensures certain { (result ≡ status) ⊎ (result ≡ Status.WriteFault) }
    ensures counted { O.faults output.old ≤ O.faults output.new }
    ensures steady { (result ≡ Status.WriteFault) ⊎ (O.faults output.new ≡ O.faults output.old) }
{
    match write_whole(output, text) {
        Ok(()) => status,
        Err(Failed) => Status::WriteFault,
    }
}

/// Says which words the laboratory's programs know.
pub fn usage<O: Sink>(output: &mut O) -> Status
    ensures says { Ends Status.Usage usage_line result (O.written output.old) (O.written output.new)
        (O.faults output.old) (O.faults output.new) }
    ensures counted { O.faults output.old ≤ O.faults output.new }
    ensures steady { (result ≡ Status.WriteFault) ⊎ (O.faults output.new ≡ O.faults output.old) }
{
    let usage =
        b"usage: garage_lab layout | replay [--check] | audit | k2v | workload N SEED | serve PORT COUNT\n";
    ends(output, usage, Status::Usage)
}

/// The exit code that goes with a status: its number.
pub fn exit_code(status: Status) -> ExitCode
    ensures { exit_status result ≡ code_of status }
{
    ExitCode::from(status.code())
}
