// Objects in memory that never fail.
ghost use Rattle.std.specs.Prelude.{◌≡◌, ◌<◌, ◌≤◌, ◌++◌, [], Some, take, length, vec_len, vec_capacity, Ok, IsOk, IfOk, option_map};
ghost use Rattle.lab_outside.specs.Bytes.{told_after};

use crate::ports::{Failed, Sink, Source};
use std::alloc::{AllocError, Global};

/// Bytes in memory.
#[derive(Drop)]
pub struct SureSource {
    bytes: Vec<u8>,
    place: usize,
    ghost within: { place ≤ vec_len bytes },
}

impl SureSource {
    ghost use Rattle.lab_outside.specs.Sure.{bytes_left};

    pub fn new(bytes: Vec<u8>) -> Self
        ensures left { ⟦<SureSource as Source>⟧.left result ≡ Some bytes.items }
        ensures faults { ⟦<SureSource as Source>⟧.faults result ≡ 0 }
    {
        SureSource { bytes, place: 0 }
    }

    /// Reads as many bytes as are left and have room, and says how many.
    pub(crate) fn give(&mut self, into: &mut [u8]) -> usize
        ensures count { result ≤ length into.old }
        ensures bytes { bytes_left self.old ≡ take result into.new ++ bytes_left self.new }
        ensures end { result ≡ 0 → 0 < length into.old → bytes_left self.new ≡ [] }
    {
        let rest = &self.bytes[self.place..];
        let count = rest.len().min(into.len());
        into[..count].copy_from_slice(&rest[..count]);
        self.place += count;
        count
    }
}

impl Source for SureSource {
    ghost use Rattle.lab_outside.specs.Sure.{bytes_left};

    ghost left = { λ source. Some (bytes_left source) };

    ghost faults = { λ _. 0 };

    fn read(&mut self, into: &mut [u8]) -> Result<usize, Failed>
        ensures count { IfOk result (λ n. n ≤ length into.old) }
        ensures bytes { IfOk result
            (λ n. bytes_left self.old ≡ take n into.new ++ bytes_left self.new) }
        ensures end { IfOk result (λ n. n ≡ 0 → 0 < length into.old → bytes_left self.new ≡ []) }
        ensures sure { IsOk result }
    {
        Ok(self.give(into))
    }
}

/// A buffer in memory that takes all bytes, and tells what was written until it is full.
#[derive(Drop)]
pub struct SureSink {
    bytes: Vec<u8>,
    size: usize,
    full: bool,
    ghost within: { vec_len bytes ≤ size },
    ghost room: { size ≤ vec_capacity bytes },
}

impl SureSink {
    ghost use Rattle.lab_outside.specs.Sure.{bytes_written, buffer_size};

    /// An empty sink, whose buffer has `size` bytes.
    pub fn new(alloc: Global, size: usize) -> Result<Self, AllocError>
        ensures written { IfOk result (λ sink. ⟦<SureSink as Sink>⟧.written sink ≡ Some []) }
        ensures faults { IfOk result (λ sink. ⟦<SureSink as Sink>⟧.faults sink ≡ 0) }
        ensures size { IfOk result (λ sink. buffer_size sink ≡ size) }
    {
        let bytes = Vec::with_capacity(alloc, size)?;
        Ok(SureSink {
            bytes,
            size,
            full: false,
        })
    }

    /// The bytes that were written, where they are told.
    pub fn bytes(&self) -> Option<&[u8]>
        ensures { ⟦<SureSink as Sink>⟧.written self.now ≡ option_map (λ bytes. bytes.now) result }
    {
        if self.full { None } else { Some(&self.bytes) }
    }

    /// Takes all the bytes.
    pub(crate) fn take(&mut self, from: &[u8])
        ensures bytes { bytes_written self.new ≡ told_after (bytes_written self.old) from.now
            (buffer_size self.old) }
        ensures size { buffer_size self.new ≡ buffer_size self.old }
    {
        if from.len() > self.size - self.bytes.len() {
            self.full = true;
        }
        if !self.full {
            self.bytes.extend_from_slice(from).unwrap();
        }
    }
}

impl Sink for SureSink {
    ghost use Rattle.lab_outside.specs.Sure.{bytes_written, buffer_size};

    ghost written = { bytes_written };

    ghost faults = { λ _. 0 };

    fn write(&mut self, from: &[u8]) -> Result<usize, Failed>
        // A write takes all, and is told while it has room.
        ensures all { result ≡ Ok (length from.now) }
        ensures told { bytes_written self.new ≡ told_after (bytes_written self.old) from.now
            (buffer_size self.old) }
        ensures size { buffer_size self.new ≡ buffer_size self.old }
    {
        self.take(from);
        Ok(from.len())
    }
}
