//! Jobs that are timed. `bench JOB ARGUMENTS..` does the job that its first word names, and prints what
//! comes out and never a time; the scripts `bench/compare`, `bench/replay`, `bench/http`, `bench/trie`,
//! `bench/due` and `bench/moves` take the times.
//!
//! - `hash BYTES`: the BLAKE2b digest of 32 bytes, in hexadecimal, of a message of that many bytes,
//!   of which byte i is i modulo 251.
//! - `trie PAIRS CHANGES`: the root of a trie of that many pairs, in hexadecimal, after that many changes that were
//!   settled one after the other.
//! - `due BLOCKS CALLS`: how many of so many blocks that are idle since just now are due, asked CALLS times.
//! - `replay`: a schedule of 100,000 events, for `garage_lab replay`.
//! - `moves`: what `layout --moves` answers to the configuration on standard input.
//! - `http SIZE COUNT`: reads COUNT heads of 16,384 bytes, each of a connection that gives SIZE bytes at a
//!   time, and prints how many bytes their targets have.
#![tactic(auto)]

mod dues;
mod hashing;
mod heads;
mod moves;
mod schedule;
mod tries;

use dues::due_count;
use hashing::pattern_digest;
use heads::targets_read;
use lab_outside::{StdSink, StdSource, write_whole};
use moves::answered_moves;
use schedule::schedule;
use std::alloc::Global;
use std::process::ExitCode;
use std::{env, io};
use tries::changed_root;

fn main(rt: HostRuntime) -> io::Result<ExitCode> {
    let words: Vec<String> = env::args(&rt)?.skip(1).collect(rt.alloc())?;
    match words.as_slice() {
        [job, byte_count] if job.as_str() == "hash" => hash(&rt, byte_count.as_str()),
        [job] if job.as_str() == "replay" => replay(&rt),
        [job] if job.as_str() == "moves" => fewest_moves(&rt),
        [job, size, count] if job.as_str() == "http" => http(&rt, size.as_str(), count.as_str()),
        [job, pairs, changes] if job.as_str() == "trie" => {
            trie(&rt, pairs.as_str(), changes.as_str())
        }
        [job, blocks, calls] if job.as_str() == "due" => due(&rt, blocks.as_str(), calls.as_str()),
        _ => usage(&rt),
    }
}

fn hash(rt: &(impl Print + Eprint + Alloc), byte_count: &str) -> io::Result<ExitCode> {
    match byte_count.parse::<u64>() {
        Ok(byte_count) => {
            let text = hex::encode(rt.alloc(), &pattern_digest(byte_count).0)?;
            println!(rt; "{text}")?;
            Ok(ExitCode::SUCCESS)
        }
        Err(_) => usage(rt),
    }
}

fn trie(
    rt: &(impl Print + Eprint + Alloc<A = Global>),
    pairs: &str,
    changes: &str,
) -> io::Result<ExitCode> {
    let (Ok(pair_count), Ok(change_count)) = (pairs.parse::<u64>(), changes.parse::<u64>()) else {
        return usage(rt);
    };
    match changed_root(rt.alloc(), pair_count, change_count) {
        Ok(root) => {
            let text = hex::encode(rt.alloc(), &root.0)?;
            println!(rt; "{text}")?;
            Ok(ExitCode::SUCCESS)
        }
        Err(_) => {
            eprintln!(rt; "out of memory")?;
            Ok(ExitCode::FAILURE)
        }
    }
}

fn due(
    rt: &(impl Print + Eprint + Alloc<A = Global>),
    blocks: &str,
    calls: &str,
) -> io::Result<ExitCode> {
    let (Ok(block_count), Ok(call_count)) = (blocks.parse::<u64>(), calls.parse::<u64>()) else {
        return usage(rt);
    };
    match due_count(rt.alloc(), block_count, call_count) {
        Ok(count) => {
            println!(rt; "{count}")?;
            Ok(ExitCode::SUCCESS)
        }
        Err(_) => {
            eprintln!(rt; "out of memory")?;
            Ok(ExitCode::FAILURE)
        }
    }
}

fn replay(rt: &(impl Print + Alloc<A = Global>)) -> io::Result<ExitCode> {
    for line in schedule(rt.alloc())? {
        println!(rt; "{line}")?;
    }
    Ok(ExitCode::SUCCESS)
}

fn fewest_moves(rt: &HostRuntime) -> io::Result<ExitCode> {
    let mut input = StdSource::new(rt.reader());
    let mut output = StdSink::new(io::writer(rt));
    let Some(text) = answered_moves(rt.alloc(), &mut input) else {
        eprintln!(rt; "no answer")?;
        return Ok(ExitCode::FAILURE);
    };
    match write_whole(&mut output, text.as_slice()) {
        Ok(()) => Ok(ExitCode::SUCCESS),
        Err(_) => Ok(ExitCode::FAILURE),
    }
}

fn http(
    rt: &(impl Print + Eprint + Alloc<A = Global>),
    size: &str,
    count: &str,
) -> io::Result<ExitCode> {
    match (size.parse::<usize>(), count.parse::<u64>()) {
        (Ok(size), Ok(count)) if size > 0 => match targets_read(rt.alloc(), size, count) {
            Ok(sum) => {
                println!(rt; "{sum}")?;
                Ok(ExitCode::SUCCESS)
            }
            Err(end) => {
                eprintln!(rt; "a head was not read: {end:?}")?;
                Ok(ExitCode::from(1))
            }
        },
        _ => usage(rt),
    }
}

fn usage(rt: &impl Eprint) -> io::Result<ExitCode> {
    eprintln!(rt;
        "usage: bench hash BYTES | replay | moves | http SIZE COUNT | trie PAIRS CHANGES | due BLOCKS CALLS"
    )?;
    Ok(ExitCode::from(2))
}
