//! The command that the words after the program's name ask for.
ghost use Rattle.std.specs.Prelude.{◌≡◌, [], ◌∷◌, map, string_bytes};
ghost use Rattle.schedule_text.specs.Reads.{Finds};
ghost use Rattle.garage_lab.specs.Command.{Spells, AsksForWorkload, AsksForServer, AsksFor, AreRead};

use schedule_text::decimal_number;
use serve_run::Server;
use std::alloc::Global;
use workload_run::Workload;

/// How many events a workload may have.
const EVENTS_LIMIT: u64 = 100_000;

/// The greatest port.
const PORT_LIMIT: u64 = 65_535;

/// How many connections may be asked for.
const CONNECTIONS_LIMIT: u64 = 1000;

/// What the program does.
#[derive(Clone, Copy, Debug, PartialEq, Eq)]
pub enum Command {
    /// Prints the layout of a configuration.
    Layout,
    /// Prints the layout of a configuration that moves the fewest copies.
    Moves,
    /// Prints the transcript of a schedule.
    Replay,
    /// Prints the transcript of a schedule with a check of its reads.
    Check,
    /// Judges a schedule and the transcript behind it.
    Audit,
    /// Prints the transcript of a schedule over items.
    Items,
    /// Prints the summary of a generated workload.
    Workload(Workload),
    /// Serves S3 over a cluster.
    Serve(Server),
}

/// The number from 1 that a word spells in decimal digits, without a leading zero.
fn number(word: &str, high: u64) -> Option<u64>
    ensures { Finds (Spells word.now high) result }
{
    let n = decimal_number(word.as_bytes())?;
    if 1 <= n && n <= high { Some(n) } else { None }
}

/// The command of one word.
fn of_one(name: &str) -> Option<Command>
    ensures { Finds (AsksFor (name.now ∷ [])) result }
{
    if name == "layout" {
        Some(Command::Layout)
    } else if name == "replay" {
        Some(Command::Replay)
    } else if name == "audit" {
        Some(Command::Audit)
    } else if name == "k2v" {
        Some(Command::Items)
    } else {
        None
    }
}

/// The command of two words.
fn of_two(name: &str, option: &str) -> Option<Command>
    ensures { Finds (AsksFor (name.now ∷ option.now ∷ [])) result }
{
    if name == "layout" && option == "--moves" {
        Some(Command::Moves)
    } else if name == "replay" && option == "--check" {
        Some(Command::Check)
    } else {
        None
    }
}

/// The workload that three words ask for.
fn workload_of(name: &str, count: &str, seed: &str) -> Option<Workload>
    ensures { Finds (AsksForWorkload (name.now ∷ count.now ∷ seed.now ∷ [])) result }
{
    if name == "workload" {
        let count = number(count, EVENTS_LIMIT)? as u32;
        let seed = decimal_number(seed.as_bytes())?;
        Some(Workload { count, seed })
    } else {
        None
    }
}

/// The server that three words ask for.
fn server_of(name: &str, port: &str, count: &str) -> Option<Server>
    ensures { Finds (AsksForServer (name.now ∷ port.now ∷ count.now ∷ [])) result }
{
    if name == "serve" {
        let port = number(port, PORT_LIMIT)? as u16;
        let count = number(count, CONNECTIONS_LIMIT)? as u32;
        Some(Server { port, count })
    } else {
        None
    }
}

/// The command of three words.
fn of_three(name: &str, first: &str, second: &str) -> Option<Command>
    ensures { Finds (AsksFor (name.now ∷ first.now ∷ second.now ∷ [])) result }
{
    match workload_of(name, first, second) {
        Some(workload) => Some(Command::Workload(workload)),
        None => match server_of(name, first, second) {
            Some(server) => Some(Command::Serve(server)),
            None => None,
        },
    }
}

/// The command that these words ask for, if they ask for any.
pub fn asked_by(words: &[String]) -> Option<Command>
    ensures { AreRead words.now result }
{
    match words {
        [name] => of_one(name.as_str()),
        [name, option] => of_two(name.as_str(), option.as_str()),
        [name, first, second] => of_three(name.as_str(), first.as_str(), second.as_str()),
        _ => None,
    }
}
