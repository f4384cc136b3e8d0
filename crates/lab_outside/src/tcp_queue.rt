// The connections that come to a port of 127.0.0.1, in the order in which they came.
ghost use Rattle.std.specs.Prelude.{◌≡◌, ◌↔◌, Some, None, IsTrue, IfOk, IsOk, IsSome};
ghost use Rattle.lab_outside.specs.TcpConnection.{faults_of};
ghost use Rattle.lab_outside.specs.TcpQueue.{queue_port};

use crate::tcp_connection::TcpConnection;
use std::io;
use std::io::{ErrorKind, Read, Write};
use std::net::{OpenListener, OpenStream};

/// So many connections, one after the other, may fail to be taken, each for a reason of its own client. Where one more
/// does, the listener is gone.
const TRIES: u32 = 100;

/// A port of 127.0.0.1 that is listened on, and the connection that was seen to wait there, if one was: it comes first.
#[derive(Drop)]
struct Listening<L, S> {
    port: u16,
    listener: L,
    waiting: Option<S>,
}

impl<L: OpenListener<Stream = S> + Drop, S: Read + Write + OpenStream + Drop> Listening<L, S> {
    /// The next connection that the system has, for which it waits, or doesn't.
    fn accept(&self, waits: bool) -> io::Result<S> {
        self.listener.set_nonblocking(!waits)?;
        let (stream, _) = self.listener.accept()?;
        Ok(stream)
    }

    /// Whether a connection waits to be taken.
    fn has_waiting(&mut self) -> bool
        ensures { self.new.port ≡ self.old.port }
    {
        if self.waiting.is_none() {
            self.waiting = self.accept(false).ok();
        }
        self.waiting.is_some()
    }

    /// Takes the connection that waits, or waits for one.
    fn take(&mut self) -> io::Result<TcpConnection<S>>
        ensures faultless { IfOk result (λ c. faults_of c ≡ 0) }
        ensures port { self.new.port ≡ self.old.port }
    {
        match self.waiting.take() {
            Some(stream) => TcpConnection::new(stream),
            None => TcpConnection::new(self.accept(true)?),
        }
    }

    /// Takes the next connection that can be taken.
    fn next(&mut self) -> io::Result<TcpConnection<S>>
        ensures faultless { IfOk result (λ c. faults_of c ≡ 0) }
        ensures port { self.new.port ≡ self.old.port }
    {
        'tries: for _ in 0..TRIES {
            if let Ok(connection) = self.take() {
                return Ok(connection);
            }
        }
        self.take()
    }
}

/// What comes to the port that is open, if one is.
#[derive(Drop)]
pub struct TcpQueue<L, S> {
    listening: Option<Listening<L, S>>,
}

impl<L: OpenListener<Stream = S> + Drop, S: Read + Write + OpenStream + Drop> TcpQueue<L, S> {
    /// No port is open yet.
    pub fn new() -> Self
        ensures { queue_port result ≡ None }
    {
        TcpQueue { listening: None }
    }

    /// Whether it is open on this port.
    pub fn is_open_on(&self, port: u16) -> bool
        ensures { IsTrue result ↔ (queue_port self.now ≡ Some port) }
    {
        match &self.listening {
            Some(listening) => listening.port == port,
            None => false,
        }
    }

    /// Takes what comes to this port, on which this one listens, and no longer what comes to another one.
    pub fn listen(&mut self, port: u16, listener: L)
        ensures { queue_port self.new ≡ Some port }
    {
        self.listening = Some(Listening {
            port,
            listener,
            waiting: None,
        });
    }

    /// Whether a connection waits to be taken. Asks without waiting for one.
    pub fn has_waiting(&mut self) -> bool
        ensures port { queue_port self.new ≡ queue_port self.old }
    {
        match &mut self.listening {
            Some(listening) => listening.has_waiting(),
            None => false,
        }
    }

    /// Waits for the next connection. One that can't be taken, since its client is gone already, is left out.
    pub fn next(&mut self) -> io::Result<TcpConnection<S>>
        ensures faultless { IfOk result (λ c. faults_of c ≡ 0) }
        ensures port { queue_port self.new ≡ queue_port self.old }
        ensures listens { IsOk result → IsSome (queue_port self.new) }
    {
        match &mut self.listening {
            Some(listening) => listening.next(),
            None => Err(io::Error::from(ErrorKind::NotConnected)),
        }
    }
}
