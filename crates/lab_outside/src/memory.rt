// Objects in memory that tell all, and fail where they are asked to.
ghost use Rattle.std.specs.Prelude.{◌≡◌, ◌<◌, ◌≤◌, ◌⊎◌, ◌++◌, [], Some, drop, take, length, vec_len, IsErr, IsTrue, is_err, IfOk, OnErr, OnOk};
ghost use Rattle.lab_outside.specs.Rose.{Rose};
ghost use Rattle.lab_outside.specs.Calls.{next_call, is_planned};

use crate::calls::Calls;
use crate::ports::{Clock, Failed, Sink, Source};
use crate::sure::SureSource;
use std::alloc::Global;

/// Bytes in memory, whose reads fail by plan.
#[derive(Drop)]
pub struct MemSource {
    bytes: SureSource,
    calls: Calls,
}

impl MemSource {
    ghost use Rattle.lab_outside.specs.Memory.{source_calls, source_plan};

    /// A source of `bytes`. `fails` has the numbers, from 1, of the reads that fail.
    pub fn new(bytes: Vec<u8>, fails: Vec<u64>) -> Self
        ensures left { ⟦<MemSource as Source>⟧.left result ≡ Some bytes.items }
        ensures faults { ⟦<MemSource as Source>⟧.faults result ≡ 0 }
        ensures calls { source_calls result ≡ 0 }
        ensures plan { source_plan result ≡ fails.items }
    {
        MemSource {
            bytes: SureSource::new(bytes),
            calls: Calls::new(fails),
        }
    }
}

impl Source for MemSource {
    ghost use Rattle.lab_outside.specs.Memory.{source_left, source_faults, source_calls, source_plan};

    ghost left = { λ source. Some (source_left source) };

    ghost faults = { source_faults };

    fn read(&mut self, into: &mut [u8]) -> Result<usize, Failed>
        ensures count { IfOk result (λ n. n ≤ length into.old) }
        ensures bytes { IfOk result
            (λ n. source_left self.old ≡ take n into.new ++ source_left self.new) }
        ensures end { IfOk result (λ n. n ≡ 0 → 0 < length into.old → source_left self.new ≡ []) }
        ensures kept { OnErr result (source_left self.new ≡ source_left self.old) }
        ensures counted { source_faults self.old ≤ source_faults self.new }
        ensures fault { OnErr result (Rose (source_faults self.old) (source_faults self.new)) }
        ensures steady { OnOk result (source_faults self.new ≡ source_faults self.old) }

        // A read fails exactly where its number is among those that fail.
        ensures planned { is_err result ≡ is_planned (source_plan self.old)
            (next_call (source_calls self.old)) }
        ensures calls { source_calls self.new ≡ next_call (source_calls self.old) }
        ensures plan { source_plan self.new ≡ source_plan self.old }
    {
        if self.calls.next_fails() {
            return Err(Failed);
        }
        Ok(self.bytes.give(into))
    }
}

/// A buffer in memory, whose writes fail by plan, or where it can't grow.
#[derive(Drop)]
pub struct MemSink {
    bytes: Vec<u8>,
    calls: Calls,
}

impl MemSink {
    ghost use Rattle.lab_outside.specs.Memory.{sink_calls, sink_plan};

    /// An empty sink. `fails` has the numbers, from 1, of the writes that fail.
    pub fn new(alloc: Global, fails: Vec<u64>) -> Self
        ensures written { ⟦<MemSink as Sink>⟧.written result ≡ Some [] }
        ensures faults { ⟦<MemSink as Sink>⟧.faults result ≡ 0 }
        ensures calls { sink_calls result ≡ 0 }
        ensures plan { sink_plan result ≡ fails.items }
    {
        MemSink {
            bytes: Vec::new(alloc),
            calls: Calls::new(fails),
        }
    }

    /// The bytes that were written.
    pub fn bytes(&self) -> &[u8]
        ensures { ⟦<MemSink as Sink>⟧.written self.now ≡ Some result.now }
    {
        &self.bytes
    }
}

impl Sink for MemSink {
    ghost use Rattle.lab_outside.specs.Memory.{sink_written, sink_faults, sink_calls, sink_plan, GrowsFor};

    ghost written = { λ sink. Some (sink_written sink) };

    ghost faults = { sink_faults };

    fn write(&mut self, from: &[u8]) -> Result<usize, Failed>
        ensures count { IfOk result (λ n. n ≡ length from.now) }
        ensures bytes { OnOk result (sink_written self.new ≡ sink_written self.old ++ from.now) }
        ensures kept { OnErr result (sink_written self.new ≡ sink_written self.old) }
        ensures counted { sink_faults self.old ≤ sink_faults self.new }
        ensures fault { OnErr result (Rose (sink_faults self.old) (sink_faults self.new)) }
        ensures steady { OnOk result (sink_faults self.new ≡ sink_faults self.old) }

        // A write takes all or fails: where its number is among those that fail, or memory to grow is refused.
        ensures planned { IsTrue
            (is_planned (sink_plan self.old) (next_call (sink_calls self.old))) → IsErr result }
        ensures refused { OnErr result
            (IsTrue (is_planned (sink_plan self.old) (next_call (sink_calls self.old)))
            ⊎ GrowsFor self.old (length from.now)) }
        ensures calls { sink_calls self.new ≡ next_call (sink_calls self.old) }
        ensures plan { sink_plan self.new ≡ sink_plan self.old }
    {
        if self.calls.next_fails() {
            return Err(Failed);
        }
        if self.bytes.extend_from_slice(from).is_err() {
            self.calls.fault();
            return Err(Failed);
        }
        Ok(from.len())
    }
}

/// A clock that gives the times of a list, and then the last one again and again.
#[derive(Drop)]
pub struct MemClock {
    times: Vec<u64>,
    place: usize,
    ghost within: { place < vec_len times },
}

impl MemClock {
    pub fn new(times: Vec<u64>) -> Self
        requires { 0 < vec_len times }
        ensures { ⟦<MemClock as Clock>⟧.times result ≡ Some times.items }
    {
        MemClock { times, place: 0 }
    }
}

impl Clock for MemClock {
    ghost times = { λ clock. Some (drop clock.place clock.times.items) };

    fn now(&mut self) -> u64 {
        let time = self.times[self.place];
        if self.place + 1 < self.times.len() {
            self.place += 1;
        }
        time
    }
}
