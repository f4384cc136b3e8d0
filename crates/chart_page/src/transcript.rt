//! The page of a transcript.
ghost use Rattle.std.specs.Prelude.{◌≡◌, ◌⊎◌, ◌++◌, ◌∷◌, []};

use crate::fault::{Fault, Stop};
use crate::line::line_of;
use crate::page::page_of;
use crate::plan::{is_planned, plan_of};
use crate::scene::Scene;
use crdt_core::Bytes;
use std::alloc::Global;
use std::str::from_utf8;

/// Adds what one line tells.
fn take_line<'a>(alloc: Global, scene: &mut Scene<'a>, bytes: &'a [u8]) -> Result<(), Fault> {
    let text = from_utf8(bytes).ok().ok_or(Fault::Bad)?;
    let words: Vec<&'a str> = text.split(' ').collect(alloc)?;
    if scene.is_before_transcript() && is_planned(words.as_slice()) {
        return scene.expect(plan_of(words.as_slice()));
    }
    let line = line_of(words.as_slice()).ok_or(Fault::Bad)?;
    scene.take(text, line)
}

/// What stopped at a line.
fn stop_at(fault: Fault, line: u64) -> Stop
    ensures bad { fault ≡ Fault.Bad → result ≡ Stop.BadLine line }
    ensures memory { fault ≡ Fault.Memory → result ≡ Stop.Memory }
{
    match fault {
        Fault::Bad => Stop::BadLine(line),
        Fault::Memory => Stop::Memory,
    }
}

/// The bytes without the line feed at their end, where there is one.
pub fn without_last_feed(bytes: &[u8]) -> &[u8]
    ensures { (bytes.now ≡ result.now) ⊎ (bytes.now ≡ result.now ++ 10 ∷ []) }
{
    match bytes {
        [front @ .., b'\n'] => front,
        _ => bytes,
    }
}

/// The page of a transcript, which its schedule may precede, or the first line that is none of a transcript or doesn't go on from those before it.
pub fn transcript_page(alloc: Global, bytes: &[u8]) -> Result<Bytes, Stop> {
    let mut scene = Scene::new(alloc);
    let mut number = 0u64;
    for line in without_last_feed(bytes).split(|byte| *byte == b'\n') {
        number = number.saturating_add(1);
        if let Err(fault) = take_line(alloc, &mut scene, line) {
            return Err(stop_at(fault, number));
        }
    }
    match page_of(alloc, &mut scene) {
        Ok(page) => Ok(page),
        Err(_) => Err(Stop::Memory),
    }
}
