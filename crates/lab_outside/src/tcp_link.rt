// Connections over TCP, as a link. No bytes are told of them, only faults.
ghost use Rattle.std.specs.Prelude.{◌≡◌, ◌↔◌, ◌+◌, ◌<◌, ◌≤◌, Some, None, [], ◌++◌, false, IsTrue, Ok, IfOk, IfSome, IsSome, OnOk, OnErr, true, length, vec_len, vec_capacity, if◌then◌else◌, is_some, option_to_list, option_map};
ghost use Rattle.lab_outside.specs.Rose.{Rose};
ghost use Rattle.lab_outside.specs.TcpConnection.{connection_limit, faults_of};

use crate::ports::{Failed, Link};
use crate::tcp_connection::TcpConnection;
use crate::tcp_queue::TcpQueue;
use std::alloc::{AllocError, Global};
use std::net::{Ipv4Addr, Net, TcpListener};
use std::rt;

/// So many connections a link takes.
const CONNECTIONS: usize = 1000;

/// Connections to a port of 127.0.0.1, one after the other, 1,000 at most, since the faults of each are kept. Why a port
/// can't be opened, or a listener gives no connection, is said on standard error.
#[derive(Drop)]
pub struct TcpLink<R, L, S> {
    runtime: R,
    queue: TcpQueue<L, S>,
    present: Option<TcpConnection<S>>,
    past: Vec<u64>,
    faults: u64,
    ghost limited: { vec_len past + (if is_some present then 1 else 0) ≤ connection_limit },
    ghost reserved: { vec_capacity past ≡ connection_limit },
}

impl<R: Net + rt::Clock + Eprint + Drop> TcpLink<R, R::Listener, R::Stream> {
    ghost use Rattle.lab_outside.specs.TcpLink.{port_of};

    /// A link that isn't open yet, with the room that it will need.
    pub fn new(alloc: Global, runtime: R) -> Result<Self, AllocError>
        ensures closed { IfOk result (λ link. port_of link ≡ None) }
        ensures present { IfOk result
            (λ link. ⟦<TcpLink<R, R::Listener, R::Stream> as Link>⟧.present link ≡ None) }
        ensures past { IfOk result
            (λ link. ⟦<TcpLink<R, R::Listener, R::Stream> as Link>⟧.past link ≡ []) }
        ensures faults { IfOk result
            (λ link. ⟦<TcpLink<R, R::Listener, R::Stream> as Link>⟧.faults link ≡ 0) }
    {
        let past = Vec::with_capacity(alloc, CONNECTIONS)?;
        Ok(TcpLink {
            runtime,
            queue: TcpQueue::new(),
            present: None,
            past,
            faults: 0,
        })
    }

    /// Ends the connection that is present, if one is.
    fn settle(&mut self)
        ensures present { self.new.present ≡ None }
        ensures past { self.new.past.items ≡ self.old.past.items ++ option_to_list
            (option_map faults_of self.old.present) }
        ensures faults { self.new.faults ≡ self.old.faults }
        ensures port { port_of self.new ≡ port_of self.old }
    {
        if let Some(connection) = self.present.take() {
            let faults = connection.end(&self.runtime, &mut self.queue);
            self.past.push_reserved(faults);
        }
    }

    /// Counts a fault.
    fn fail(&mut self) -> Failed
        ensures counted { self.old.faults ≤ self.new.faults }
        ensures fault { Rose self.old.faults self.new.faults }
        ensures queue { self.new.queue ≡ self.old.queue }
        ensures present { self.new.present ≡ self.old.present }
        ensures past { self.new.past ≡ self.old.past }
    {
        self.faults = self.faults.saturating_add(1);
        Failed
    }
}

impl<R: Net + rt::Clock + Eprint + Drop> Link for TcpLink<R, R::Listener, R::Stream> {
    ghost use Rattle.lab_outside.specs.Connection.{IsFresh};
    ghost use Rattle.lab_outside.specs.TcpLink.{port_of, present_of, past_of, link_faults};

    ghost coming = { λ _. None };

    ghost present = { present_of };

    ghost past = { past_of };

    ghost faults = { link_faults };

    ghost open_at = { port_of };

    /// Listens on 127.0.0.1, and no longer on another port.
    fn open(&mut self, port: u16) -> Result<(), Failed>
        ensures opens { OnOk result (port_of self.new ≡ Some port) }
        ensures still_open { OnErr result (port_of self.new ≡ port_of self.old) }
        ensures still_present { present_of self.new ≡ present_of self.old }
        ensures still_past { past_of self.new ≡ past_of self.old }
        ensures counted { link_faults self.old ≤ link_faults self.new }
        ensures fault { OnErr result (Rose (link_faults self.old) (link_faults self.new)) }
        ensures steady { OnOk result (link_faults self.new ≡ link_faults self.old) }
    {
        if self.queue.is_open_on(port) {
            return Ok(());
        }
        match TcpListener::bind(&self.runtime, (Ipv4Addr::LOCALHOST, port)) {
            Ok(listener) => {
                self.queue.listen(port, listener);
                Ok(())
            }
            Err(cause) => {
                let _ = eprintln!(self.runtime;
                    "garage_lab: can't listen on 127.0.0.1:{port}: {cause}"
                );
                Err(self.fail())
            }
        }
    }

    fn next(&mut self) -> Result<bool, Failed>
        ensures comes { IsSome (present_of self.new) ↔ (result ≡ Ok true) }
        ensures fresh { IfSome (present_of self.new) IsFresh }
        ensures goes { past_of self.new ≡ past_of self.old ++ option_to_list (present_of self.old) }
        ensures still_open { port_of self.new ≡ port_of self.old }
        ensures counted { link_faults self.old ≤ link_faults self.new }
        ensures fault { OnErr result (Rose (link_faults self.old) (link_faults self.new)) }
        ensures steady { OnOk result (link_faults self.new ≡ link_faults self.old) }

        // None comes once so many are past, and only then; and one comes only where the link is open.
        ensures last { (result ≡ Ok false) ↔ (length (past_of self.new) ≡ connection_limit) }
        ensures listens { result ≡ Ok true → IsSome (port_of self.new) }
    {
        self.settle();
        if self.past.len() == CONNECTIONS {
            return Ok(false);
        }
        match self.queue.next() {
            Ok(connection) => {
                self.present = Some(connection);
                Ok(true)
            }
            Err(cause) => {
                let _ = eprintln!(self.runtime;
                    "garage_lab: no connection comes any more: {cause}"
                );
                Err(self.fail())
            }
        }
    }

    fn read(&mut self, into: &mut [u8]) -> Result<usize, Failed> {
        match &mut self.present {
            Some(connection) => connection.read(into, &mut self.queue),
            None => unreachable!(),
        }
    }

    fn write(&mut self, from: &[u8]) -> Result<usize, Failed> {
        match &mut self.present {
            Some(connection) => connection.write(from, &mut self.queue),
            None => unreachable!(),
        }
    }

    fn end(&mut self) {
        self.settle();
    }
}
