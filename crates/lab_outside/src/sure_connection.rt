// A connection in memory that never fails.
ghost use Rattle.std.specs.Prelude.{◌≡◌, [], Some, IfOk, option_map};

use crate::ports::{Failed, Sink, Source};
use crate::sure::{SureSink, SureSource};
use std::alloc::{AllocError, Global};

/// What a client sends, and a buffer for what it is sent.
#[derive(Drop)]
pub struct SureConnection {
    input: SureSource,
    output: SureSink,
}

impl SureConnection {
    ghost use Rattle.lab_outside.specs.SureConnection.{connection_of};
    ghost use Rattle.lab_outside.specs.Connection.{ReadsFrom, WritesTo};

    pub fn new(alloc: Global, bytes: Vec<u8>, size: usize) -> Result<Self, AllocError>
        ensures left { IfOk result (λ c. (connection_of c).left ≡ Some bytes.items) }
        ensures written { IfOk result (λ c. (connection_of c).written ≡ Some []) }
    {
        let output = SureSink::new(alloc, size)?;
        Ok(SureConnection {
            input: SureSource::new(bytes),
            output,
        })
    }

    pub fn read(&mut self, into: &mut [u8]) -> Result<usize, Failed>
        ensures { ReadsFrom result into.old into.new (connection_of self.old)
            (connection_of self.new) }
    {
        self.input.read(into)
    }

    pub fn write(&mut self, from: &[u8]) -> Result<usize, Failed>
        ensures { WritesTo result from.now (connection_of self.old) (connection_of self.new) }
    {
        self.output.write(from)
    }

    /// What was written, where it is told.
    pub fn written(&self) -> Option<&[u8]>
        ensures { (connection_of self.now).written ≡ option_map (λ bytes. bytes.now) result }
    {
        self.output.bytes()
    }
}
