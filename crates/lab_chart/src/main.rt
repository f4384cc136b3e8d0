//! Pages of transcripts and layouts: the standard input and output for `run`.
#![tactic(auto)]

mod run;

use crate::run::run;
use lab_main::{exit_code, words};
use lab_outside::{Status, StdSink, StdSource};
use std::io;
use std::process::ExitCode;

fn main(rt: HostRuntime) -> ExitCode {
    let alloc = rt.alloc();
    let mut input = StdSource::new(rt.reader());
    let mut output = StdSink::new(io::writer(&rt));
    let Ok(words) = words(&rt) else {
        return exit_code(Status::Memory);
    };
    exit_code(run(alloc, &words, &mut input, &mut output))
}
