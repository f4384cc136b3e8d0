// A connection whose bytes come in small pieces.
ghost use Rattle.std.specs.Prelude.{◌≡◌, ◌<◌, ◌≤◌, Some, None, [], length, Ok, IfOk, IsTrue};
ghost use Rattle.lab_outside.specs.Memory.{source_faults};
ghost use Rattle.lab_outside.specs.Stages.{is_fresh_at};

use crate::memory::MemSource;
use crate::ports::{Failed, Link, Source};

/// Where the one connection of a `PieceLink` is.
#[derive(Debug, Clone, Copy, PartialEq, Eq)]
enum Stage {
    Coming,
    Present,
    Past,
}

/// One connection in memory. Its reads give at most `size` bytes at a time and fail by plan; what it is sent
/// is taken and not told.
#[derive(Drop)]
pub struct PieceLink {
    bytes: MemSource,
    size: usize,
    stage: Stage,
    port: Option<u16>,
    ghost some: { 0 < size },
    ghost fresh: { IsTrue (is_fresh_at stage (source_faults bytes)) },
}

impl PieceLink {
    ghost use Rattle.lab_outside.specs.PieceLink.{bytes_of, plan_of};

    /// A connection that gives `bytes`. `fails` has the numbers, from 1, of the reads that fail.
    pub fn new(bytes: Vec<u8>, size: usize, fails: Vec<u64>) -> PieceLink
        requires { 0 < size }
        ensures bytes { bytes_of result ≡ bytes.items }
        ensures plan { plan_of result ≡ fails.items }
        ensures present { ⟦<PieceLink as Link>⟧.present result ≡ None }
        ensures past { ⟦<PieceLink as Link>⟧.past result ≡ [] }
    {
        PieceLink {
            bytes: MemSource::new(bytes, fails),
            size,
            stage: Stage::Coming,
            port: None,
        }
    }
}

impl Link for PieceLink {
    ghost use Rattle.std.specs.Prelude.{None};
    ghost use Rattle.lab_outside.specs.PieceLink.{present_of, past_of};

    ghost coming = { λ _. None };

    ghost present = { present_of };

    ghost past = { past_of };

    ghost faults = { λ _. 0 };

    ghost open_at = { λ it. it.port };

    fn open(&mut self, port: u16) -> Result<(), Failed> {
        self.port = Some(port);
        Ok(())
    }

    fn next(&mut self) -> Result<bool, Failed> {
        let comes = self.stage == Stage::Coming;
        self.stage = if comes { Stage::Present } else { Stage::Past };
        Ok(comes)
    }

    fn read(&mut self, into: &mut [u8]) -> Result<usize, Failed> {
        let room = into.len().min(self.size);
        self.bytes.read(&mut into[..room])
    }

    fn write(&mut self, from: &[u8]) -> Result<usize, Failed> {
        Ok(from.len())
    }

    fn end(&mut self) {
        self.stage = Stage::Past;
    }
}
