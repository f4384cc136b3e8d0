//! Connections in memory of whose calls one fails.
ghost use Rattle.std.specs.Prelude.{◌≡◌, ◌≤◌, ◌&&◌, ◌||◌, not, IsTrue, None, IfOk, option_map, option_to_list, is_some, ◌++◌};
ghost use Rattle.lab_outside.specs.Rose.{Rose};
ghost use Rattle.lab_outside.specs.TcpConnection.{untold};

use crdt_core::Memory;
use lab_outside::{Failed, Link, MemSource, Source};
use std::alloc::Global;

/// A call of a link that may fail.
#[derive(Debug, Clone, Copy, PartialEq, Eq)]
pub enum Call {
    Open,
    Next,
    Read,
    Write,
}

/// Which call fails: the one with this number among those of its kind, from 1; none where it is 0.
#[derive(Debug, Clone, Copy)]
pub struct Fault {
    pub call: Call,
    pub number: u64,
}

/// The count after one fault more.
fn raised(faults: u64) -> u64
    ensures counted { faults ≤ result }
    ensures rose { Rose faults result }
{
    faults.saturating_add(1)
}

/// What one connection gives, and what was written to it.
#[derive(Drop)]
struct Wire {
    bytes: MemSource,
    written: Vec<u8>,
}

impl Wire {
    /// A connection that gives these bytes.
    fn new(alloc: Global, bytes: &[u8]) -> Result<Wire, Memory> {
        Ok(Wire {
            bytes: MemSource::new(bytes.to_vec(alloc)?, Vec::new(alloc)),
            written: Vec::new(alloc),
        })
    }
}

/// Two connections in memory, one after the other, over which the same bytes come. They take what is written to them, and
/// tell no bytes.
#[derive(Drop)]
pub struct FaultyLink {
    fault: Fault,
    /// How many calls of the fault's kind were made.
    calls: u64,
    /// Whether one of them failed.
    has_failed: bool,
    /// Whether a connection was read or written to after its call had failed.
    goes_on: bool,
    /// How many bytes a read gives at most.
    size: usize,
    one: Wire,
    other: Wire,
    faults: u64,
    /// How often the calls of the connection that is present failed.
    present: Option<u64>,
    /// The same of the first one and of the second one, once they are past.
    first: Option<u64>,
    second: Option<u64>,
    port: Option<u16>,
    ghost single: { IsTrue (not (is_some present && is_some second)) },
    ghost ordered: { IsTrue (is_some first || not (is_some second)) },
}

impl FaultyLink {
    /// Two connections that give these bytes, at most `size` at a time.
    pub fn new(alloc: Global, bytes: &[u8], size: usize, fault: Fault) -> Result<FaultyLink, Memory>
        ensures present { IfOk result (λ link. ⟦<FaultyLink as Link>⟧.present link ≡ None) }
    {
        let one = Wire::new(alloc, bytes)?;
        let other = Wire::new(alloc, bytes)?;
        Ok(FaultyLink {
            fault,
            calls: 0,
            has_failed: false,
            goes_on: false,
            size,
            one,
            other,
            faults: 0,
            present: None,
            first: None,
            second: None,
            port: None,
        })
    }

    /// How many calls of the fault's kind were made.
    pub fn calls(&self) -> u64 {
        self.calls
    }

    /// Whether one of them failed.
    pub fn has_failed(&self) -> bool {
        self.has_failed
    }

    /// Whether a connection was read or written to after its call had failed.
    pub fn goes_on(&self) -> bool {
        self.goes_on
    }

    /// Whether no call of the first connection failed, and it came and is past.
    pub fn is_first_whole(&self) -> bool {
        self.first == Some(0)
    }

    /// What was written to the first connection.
    pub fn written(&self) -> &[u8] {
        &self.one.written
    }

    /// What was written to the second one.
    pub fn written_later(&self) -> &[u8] {
        &self.other.written
    }

    /// Whether this call, which is the next one, fails.
    fn fails(&mut self, call: Call) -> bool
        ensures present { self.new.present ≡ self.old.present }
        ensures first { self.new.first ≡ self.old.first }
        ensures second { self.new.second ≡ self.old.second }
        ensures faults { self.new.faults ≡ self.old.faults }
        ensures port { self.new.port ≡ self.old.port }
    {
        if call != self.fault.call {
            return false;
        }
        self.calls = self.calls.saturating_add(1);
        let fails = self.calls == self.fault.number;
        if fails {
            self.has_failed = true;
        }
        fails
    }

    /// Ends the connection, if one is present.
    fn settle(&mut self)
        ensures present { self.new.present ≡ None }
        ensures past { option_to_list (option_map untold self.new.first) ++ option_to_list (option_map untold self.new.second)
            ≡ (option_to_list (option_map untold self.old.first) ++ option_to_list (option_map untold self.old.second))
            ++ option_to_list (option_map untold self.old.present) }
        ensures faults { self.new.faults ≡ self.old.faults }
        ensures port { self.new.port ≡ self.old.port }
    {
        if let Some(faults) = self.present {
            self.present = None;
            match self.first {
                None => self.first = Some(faults),
                Some(_) => self.second = Some(faults),
            }
        }
    }
}

impl Link for FaultyLink {
    ghost use Rattle.std.specs.Prelude.{None, option_map, option_to_list, ◌++◌};
    ghost use Rattle.lab_outside.specs.TcpConnection.{untold};

    ghost coming = { λ _. None };

    ghost present = { λ link. option_map untold link.present };

    ghost past = { λ link. option_to_list (option_map untold link.first) ++ option_to_list (option_map untold link.second) };

    ghost faults = { λ link. link.faults };

    ghost open_at = { λ link. link.port };

    fn open(&mut self, port: u16) -> Result<(), Failed> {
        if self.fails(Call::Open) {
            self.faults = raised(self.faults);
            return Err(Failed);
        }
        self.port = Some(port);
        Ok(())
    }

    fn next(&mut self) -> Result<bool, Failed> {
        self.settle();
        if self.fails(Call::Next) {
            self.faults = raised(self.faults);
            return Err(Failed);
        }
        let comes = self.second.is_none();
        if comes {
            self.present = Some(0);
        }
        Ok(comes)
    }

    fn read(&mut self, into: &mut [u8]) -> Result<usize, Failed> {
        let Some(faults) = self.present else {
            return Err(Failed);
        };
        if faults > 0 {
            self.goes_on = true;
        }
        if self.fails(Call::Read) {
            self.present = Some(raised(faults));
            return Err(Failed);
        }
        let room = into.len().min(self.size);
        let given = match self.first {
            None => self.one.bytes.read(&mut into[..room]),
            Some(_) => self.other.bytes.read(&mut into[..room]),
        };
        match given {
            Ok(count) => Ok(count),
            Err(_) => {
                self.present = Some(raised(faults));
                Err(Failed)
            }
        }
    }

    fn write(&mut self, from: &[u8]) -> Result<usize, Failed> {
        let Some(faults) = self.present else {
            return Err(Failed);
        };
        if faults > 0 {
            self.goes_on = true;
        }
        if self.fails(Call::Write) {
            self.present = Some(raised(faults));
            return Err(Failed);
        }
        let _ = match self.first {
            None => self.one.written.extend_from_slice(from),
            Some(_) => self.other.written.extend_from_slice(from),
        };
        Ok(from.len())
    }

    fn end(&mut self) {
        self.settle();
    }
}
