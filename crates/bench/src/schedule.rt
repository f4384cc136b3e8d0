//! The job `replay`: a schedule of many events.

ghost use Rattle.std.specs.Prelude.{◌≡◌, length, IfOk};

use std::alloc::{AllocError, Global};

const EVENT_COUNT: u64 = 100_000;

// How many keys the puts and gets go round.
const KEY_COUNT: u64 = 300;

/// The lines of the schedule, without their line feeds: a trio, a bucket, and then rounds of ten events.
pub fn schedule(alloc: Global) -> Result<Vec<String>, AllocError>
    ensures count { IfOk result (λ lines. length lines.items ≡ 100000) }
{
    let mut lines = Vec::new(alloc);
    lines.push(format!(in alloc; "trio")?)?;
    lines.push(format!(in alloc; "bucket pics")?)?;
    for i in 2..EVENT_COUNT {
        lines.push(line(alloc, i)?)?;
    }
    Ok(lines)
}

// The line with i lines before it, past the first two. Messages are sent faster than lines come, so
// that each line `deliver` names one that was sent long before.
fn line(alloc: Global, i: u64) -> Result<String, AllocError> {
    let round = i / 10;
    let node = 1 + round % 3;
    let other = 1 + (round + 1) % 3;
    let key = round % KEY_COUNT;
    let size = round % 512;
    let fill = round % 251;
    match i % 10 {
        0 => format!(in alloc; "put {node} pics key{key} {size} {fill}"),
        1 => format!(in alloc; "get {other} pics key{key}"),
        2 => format!(in alloc; "drain 12"),
        3 => format!(in alloc; "tick {fill}"),
        4 => format!(in alloc; "put {other} pics key{key} {fill} {fill}"),
        5 => format!(in alloc; "deliver {i}"),
        6 => format!(in alloc; "drain 12"),
        7 => format!(in alloc; "get {node} pics key{key}"),
        8 if round % 2 == 0 => format!(in alloc; "gossip {node} {other}"),
        8 => format!(in alloc; "ack {node}"),
        _ => format!(in alloc; "drain 1000"),
    }
}
