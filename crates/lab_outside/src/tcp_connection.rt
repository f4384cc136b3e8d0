// A connection over TCP. No bytes are told of it, only faults.
ghost use Rattle.std.specs.Prelude.{◌≡◌, ◌<◌, ◌≤◌, length, IfOk, OnErr};
ghost use Rattle.lab_outside.specs.Rose.{Rose};
ghost use Rattle.lab_outside.specs.TcpQueue.{queue_port};

use crate::patience::{Patience, TRIES, WAIT};
use crate::ports::Failed;
use crate::tcp_queue::TcpQueue;
use std::io::{Read, Write};
use std::net::{OpenListener, OpenStream, Shutdown};
use std::time::Duration;
use std::{io, rt};

/// What an interim answer begins with, after which the request goes on.
const INTERIM: &[u8] = b"HTTP/1.1 1";

/// How long a connection is read on once writing has ended, in milliseconds.
const CLOSING: u64 = 2000;

/// How many pieces are read then at most.
const PIECES: u32 = 4096;

/// How many bytes such a piece has at most.
const PIECE: usize = 16_384;

/// Where a connection is.
#[derive(Debug, Clone, Copy, PartialEq, Eq)]
enum Place {
    /// Before the first request, or behind an answer.
    Between,
    /// In the middle of a request.
    Within,
    /// At its end: the client has ended it, or a call failed.
    Over,
}

/// A stream, each error of which is a fault, a client that isn't waited for any longer too, and so is a write that takes
/// nothing. An interruption by a signal is none.
#[derive(Drop)]
pub struct TcpConnection<S> {
    stream: S,
    place: Place,
    faults: u64,
}

impl<S: Read + Write + OpenStream + Drop> TcpConnection<S> {
    ghost use Rattle.lab_outside.specs.Connection.{ReadsFrom, WritesTo};
    ghost use Rattle.lab_outside.specs.TcpConnection.{faults_of, untold};

    /// A connection over a stream that nobody has read from.
    pub fn new(stream: S) -> io::Result<Self>
        ensures faultless { IfOk result (λ c. faults_of c ≡ 0) }
    {
        let wait = Duration::from_millis(WAIT);
        stream.set_read_timeout(Some(wait))?;
        stream.set_write_timeout(Some(wait))?;
        stream.set_nodelay(true)?;
        Ok(TcpConnection {
            stream,
            place: Place::Between,
            faults: 0,
        })
    }

    /// How long its client is waited for.
    fn patience(&self) -> Patience {
        Patience::new(self.place == Place::Within)
    }

    /// Counts a fault, with which it is over.
    fn fail(&mut self) -> Failed
        ensures fault { Rose (faults_of self.old) (faults_of self.new) }
        ensures counted { faults_of self.old ≤ faults_of self.new }
    {
        self.place = Place::Over;
        self.faults = self.faults.saturating_add(1);
        Failed
    }

    pub fn read<L: OpenListener<Stream = S> + Drop>(
        &mut self,
        into: &mut [u8],
        queue: &mut TcpQueue<L, S>,
    ) -> Result<usize, Failed>
        ensures reads { ReadsFrom result into.old into.new (untold (faults_of self.old))
            (untold (faults_of self.new)) }
        ensures port { queue_port queue.new ≡ queue_port queue.old }
    {
        let mut patience = self.patience();
        'tries: for _ in 0..TRIES {
            match self.stream.read(into) {
                Ok(count) => {
                    self.place = if count > 0 {
                        Place::Within
                    } else {
                        Place::Over
                    };
                    return Ok(count);
                }
                Err(error) => {
                    if !patience.lasts(&error, queue) {
                        break;
                    }
                }
            }
        }
        Err(self.fail())
    }

    pub fn write<L: OpenListener<Stream = S> + Drop>(
        &mut self,
        from: &[u8],
        queue: &mut TcpQueue<L, S>,
    ) -> Result<usize, Failed>
        ensures writes { WritesTo result from.now (untold (faults_of self.old))
            (untold (faults_of self.new)) }
        ensures port { queue_port queue.new ≡ queue_port queue.old }
    {
        let mut patience = Patience::new(true);
        'tries: for _ in 0..TRIES {
            match self.stream.write(from) {
                Ok(count) if count > 0 || from.is_empty() => {
                    if !from.starts_with(INTERIM) {
                        self.place = Place::Between;
                    }
                    return Ok(count);
                }
                Ok(_) => break,
                Err(error) => {
                    if !patience.lasts(&error, queue) {
                        break;
                    }
                }
            }
        }
        Err(self.fail())
    }

    /// Ends it, and says how often it failed. Where the client hasn't ended it before, writing ends first, and what the
    /// client still sends is read and left out: closed while bytes lie unread, the system would reset the connection,
    /// and what was written might be lost.
    pub fn end<R: rt::Clock, L: OpenListener<Stream = S> + Drop>(
        self,
        clock: &R,
        queue: &mut TcpQueue<L, S>,
    ) -> u64
        ensures faults { result ≡ faults_of self }
        ensures port { queue_port queue.new ≡ queue_port queue.old }
    {
        let faults = self.faults;
        if self.place != Place::Over {
            let _ = close(self.stream, clock, queue);
        }
        faults
    }
}

/// Ends writing, and reads on until the client ends it too, for a bounded time and number of bytes.
fn close<R: rt::Clock, L: OpenListener<Stream = S> + Drop, S: Read + Write + OpenStream + Drop>(
    mut stream: S,
    clock: &R,
    queue: &mut TcpQueue<L, S>,
) -> io::Result<()>
    ensures port { queue_port queue.new ≡ queue_port queue.old }
{
    stream.shutdown(Shutdown::Write)?;
    let latest = clock
        .monotonic()?
        .saturating_add(Duration::from_millis(CLOSING));
    let mut patience = Patience::new(false);
    let mut piece = [0u8; PIECE];
    'pieces: for _ in 0..PIECES {
        match stream.read(&mut piece) {
            Ok(0) => break,
            Ok(_) => patience = Patience::new(false),
            Err(error) => {
                if !patience.lasts(&error, queue) {
                    break;
                }
            }
        }
        if clock.monotonic()? >= latest {
            break;
        }
    }
    Ok(())
}
