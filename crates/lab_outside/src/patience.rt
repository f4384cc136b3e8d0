// How long a client is waited for.
ghost use Rattle.std.specs.Prelude.{◌≡◌};
ghost use Rattle.lab_outside.specs.TcpQueue.{queue_port};

use crate::tcp_queue::TcpQueue;
use std::io;
use std::io::{ErrorKind, Read, Write};
use std::net::{OpenListener, OpenStream};

/// How long each call of the system waits, in milliseconds.
pub const WAIT: u64 = 100;

/// After so many waits a client is given up: 30 seconds.
const ALONE: u32 = 300;

/// The same where another connection waits, in the middle of a request: 5 seconds.
const BESIDE: u32 = 50;

/// The same between two requests: 200 milliseconds.
const BETWEEN: u32 = 2;

/// So often a call of the system is made again at most, interruptions by signals among them.
pub const TRIES: u32 = 1000;

/// The waits for a client in which nothing came, and how many there may be where another connection waits.
#[derive(Drop)]
pub struct Patience {
    silences: u32,
    beside: u32,
}

impl Patience {
    /// For a client that is in the middle of a request, or between two.
    pub fn new(is_within: bool) -> Self {
        Patience {
            silences: 0,
            beside: if is_within { BESIDE } else { BETWEEN },
        }
    }

    /// Whether a call is to be made again that ended with this error: a wait without a byte where there may be more of
    /// them, or an interruption. Whether another connection waits is asked after each wait.
    pub fn lasts<L: OpenListener<Stream = S> + Drop, S: Read + Write + OpenStream + Drop>(
        &mut self,
        error: &io::Error,
        queue: &mut TcpQueue<L, S>,
    ) -> bool
        ensures port { queue_port queue.new ≡ queue_port queue.old }
    {
        match error.kind() {
            ErrorKind::Interrupted => true,
            ErrorKind::WouldBlock | ErrorKind::TimedOut => {
                self.silences = self.silences.saturating_add(1);
                let most = if queue.has_waiting() {
                    self.beside
                } else {
                    ALONE
                };
                self.silences < most
            }
            _ => false,
        }
    }
}
