//! garage_lab: an object store on an in-process cluster: the layouts of its partitions over nodes and zones, its replay from a
//! schedule of events or from a generated workload, and a server of S3 over it.
//!
//! `run` is the program: it takes the words after the program's name, the outside as a source, a sink, a link and a clock, and
//! answers the status with which the program ends. `command` tells the commands apart; each is a
//! call of a library of its own: layout_command, replay_command, audit_run, k2v_api, workload_run, serve_run. `main` makes the outside: standard
//! input and output, the sockets of 127.0.0.1 and the clock.
#![tactic(auto)]

mod announced;
#[cfg(test)]
mod audit_faults;
#[cfg(test)]
mod audited_layouts;
#[cfg(test)]
mod audited_lists;
#[cfg(test)]
mod audited_requests;
#[cfg(test)]
mod audits;
mod command;
mod ending;
mod run;
#[cfg(test)]
mod tests;

use crate::announced::Announced;
use crate::ending::tell_end;
use crate::run::run;
use lab_main::{exit_code, words};
use lab_outside::{Status, StdSink, StdSource, TcpLink, WallClock};
use std::io;
use std::process::ExitCode;

fn main(rt: HostRuntime) -> ExitCode {
    let alloc = rt.alloc();
    let mut input = StdSource::new(rt.reader());
    let mut output = StdSink::new(io::writer(&rt));
    let Ok(words) = words(&rt) else {
        return exit_code(Status::Memory);
    };
    let Ok(link) = TcpLink::new(alloc, &rt) else {
        return exit_code(Status::Memory);
    };
    let mut link = Announced::new(link, &rt);
    let mut clock = WallClock::new(&rt);
    let status = run(
        alloc,
        &words,
        &mut input,
        &mut output,
        &mut link,
        &mut clock,
    );
    tell_end(&rt, &words, status);
    exit_code(status)
}
