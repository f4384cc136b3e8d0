// A link in memory that never fails.
ghost use Rattle.std.specs.Prelude.{◌≡◌, ◌+◌, ◌<◌, ◌≤◌, ◌++◌, [], Some, None, map, length, Ok, IfOk, IsOk, vec_items, vec_len, vec_capacity, if◌then◌else◌, is_some, option_map, option_to_list};
ghost use Rattle.std.specs.VecDeque.{deque_len};
ghost use Rattle.std.proofs.Props.{props};
ghost use Rattle.lab_outside.specs.Connection.{written_at};
ghost use Rattle.lab_outside.specs.SureConnection.{AreFresh};

use crate::ports::{Failed, Link};
use crate::sure_connection::SureConnection;
use std::alloc::{AllocError, Global};
use std::collections::VecDeque;

/// Connections in memory, one after the other.
#[derive(Drop)]
pub struct SureLink {
    coming: VecDeque<SureConnection>,
    present: Option<SureConnection>,
    past: Vec<SureConnection>,
    port: Option<u16>,
    ghost room: { vec_len past + (if is_some present then 1 else 0) + deque_len coming ≤ vec_capacity past },
    ghost fresh: { AreFresh coming.items } by { Prim.hlevel props },
}

impl SureLink {
    /// Connections that give these bytes, with a buffer of `size` bytes each for what they are sent.
    pub fn new(alloc: Global, connections: Vec<Vec<u8>>, size: usize) -> Result<Self, AllocError>
        ensures coming { IfOk result
            (λ link. ⟦<SureLink as Link>⟧.coming link ≡ Some (map
            (λ bytes. bytes.items) connections.items)) }
        ensures present { IfOk result (λ link. ⟦<SureLink as Link>⟧.present link ≡ None) }
        ensures past { IfOk result (λ link. ⟦<SureLink as Link>⟧.past link ≡ []) }
        ensures faults { IfOk result (λ link. ⟦<SureLink as Link>⟧.faults link ≡ 0) }
    {
        let past = Vec::with_capacity(alloc, connections.len())?;
        let mut coming = VecDeque::new(alloc);
        for bytes in connections {
            coming.push_back(SureConnection::new(alloc, bytes, size)?)?;
        }
        Ok(SureLink {
            coming,
            present: None,
            past,
            port: None,
        })
    }

    /// What was written to a connection, counted from 0 in the order in which they came, where it is told.
    pub fn written(&self, i: usize) -> Option<&[u8]>
        requires came { i < length (⟦<SureLink as Link>⟧.past self.now ++ option_to_list
            (⟦<SureLink as Link>⟧.present self.now)) }
        ensures told { option_map
            (λ bytes. bytes.now) result ≡ written_at (⟦<SureLink as Link>⟧.past self.now ++
            option_to_list (⟦<SureLink as Link>⟧.present self.now)) i }
    {
        if i < self.past.len() {
            return self.past[i].written();
        }
        match &self.present {
            Some(connection) => connection.written(),
            None => unreachable!(),
        }
    }

    /// Ends the connection that is present, if one is.
    fn settle(&mut self)
        ensures present { self.new.present ≡ None }
        ensures past { self.new.past.items ≡ self.old.past.items ++
            option_to_list self.old.present }
        ensures coming { self.new.coming ≡ self.old.coming }
        ensures port { self.new.port ≡ self.old.port }
    {
        if let Some(connection) = self.present.take() {
            self.past.push_reserved(connection);
        }
    }
}

impl Link for SureLink {
    ghost use Rattle.std.specs.Prelude.{Some};
    ghost use Rattle.lab_outside.specs.SureLink.{coming_of, present_of, past_of};

    ghost coming = { λ link. Some (coming_of link) };

    ghost present = { present_of };

    ghost past = { past_of };

    ghost faults = { λ _. 0 };

    ghost open_at = { λ it. it.port };

    fn open(&mut self, port: u16) -> Result<(), Failed> {
        self.port = Some(port);
        Ok(())
    }

    fn next(&mut self) -> Result<bool, Failed> {
        self.settle();
        self.present = self.coming.pop_front();
        Ok(self.present.is_some())
    }

    fn read(&mut self, into: &mut [u8]) -> Result<usize, Failed> {
        match &mut self.present {
            Some(connection) => connection.read(into),
            None => unreachable!(),
        }
    }

    fn write(&mut self, from: &[u8]) -> Result<usize, Failed> {
        match &mut self.present {
            Some(connection) => connection.write(from),
            None => unreachable!(),
        }
    }

    fn end(&mut self) {
        self.settle();
    }
}
