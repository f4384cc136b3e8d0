//! What clients over loopback see of a link at its edge: who idles, who is closed with bytes unread, a signal in the
//! middle, and a client that can't be taken.
use lab_outside::{Failed, Link, TcpLink, send_whole};
use std::alloc::Global;
use std::fmt::Display;
use std::io;
use std::io::{ErrorKind, Read, Write};
use std::net::{
    Ipv4Addr, Net, OpenListener, OpenStream, Shutdown, SocketAddr, TcpListener, TcpStream,
};
use std::os::fd::{AsRawFd, RawFd};
use std::rt::Clock;
use std::sync::atomic::{AtomicU64, Ordering};
use std::test::Fail;
use std::time::Duration;

/// The bytes of a great answer, more than a client's window has at first.
const GREAT: usize = 300_000;

/// A stream whose first read and first write are interrupted, and which may refuse an option.
#[derive(Drop)]
struct Shaken {
    stream: TcpStream,
    was_read: bool,
    was_written: bool,
    refuses: bool,
}

impl Read for Shaken {
    fn read(&mut self, into: &mut [u8]) -> io::Result<usize> {
        if self.was_read {
            return self.stream.read(into);
        }
        self.was_read = true;
        Err(io::Error::from(ErrorKind::Interrupted))
    }
}

impl Write for Shaken {
    fn write(&mut self, from: &[u8]) -> io::Result<usize> {
        if self.was_written {
            return self.stream.write(from);
        }
        self.was_written = true;
        Err(io::Error::from(ErrorKind::Interrupted))
    }

    fn flush(&mut self) -> io::Result<()> {
        self.stream.flush()
    }
}

impl OpenStream for Shaken {
    fn shutdown(&self, how: Shutdown) -> io::Result<()> {
        self.stream.shutdown(how)
    }

    fn set_nodelay(&self, nodelay: bool) -> io::Result<()> {
        if self.refuses {
            return Err(io::Error::from(ErrorKind::InvalidInput));
        }
        self.stream.set_nodelay(nodelay)
    }

    fn set_read_timeout(&self, time: Option<Duration>) -> io::Result<()> {
        self.stream.set_read_timeout(time)
    }

    fn set_write_timeout(&self, time: Option<Duration>) -> io::Result<()> {
        self.stream.set_write_timeout(time)
    }
}

impl AsRawFd for Shaken {
    fn as_raw_fd(&self) -> RawFd {
        self.stream.as_raw_fd()
    }
}

/// A listener of shaken streams, which counts its accepts. The first one fails, and the stream of the second one refuses
/// an option; or each fails.
#[derive(Drop)]
struct Gate {
    listener: TcpListener,
    accepts: AtomicU64,
    is_gone: bool,
}

impl OpenListener for Gate {
    type Stream = Shaken;

    fn accept(&self) -> io::Result<(Shaken, SocketAddr)> {
        let before = self.accepts.fetch_add(1, Ordering::SeqCst);
        if before == 0 || self.is_gone {
            return Err(io::Error::from(ErrorKind::ConnectionAborted));
        }
        let (stream, address) = self.listener.accept()?;
        let shaken = Shaken {
            stream,
            was_read: false,
            was_written: false,
            refuses: before == 1,
        };
        Ok((shaken, address))
    }

    fn set_nonblocking(&self, nonblocking: bool) -> io::Result<()> {
        self.listener.set_nonblocking(nonblocking)
    }
}

impl AsRawFd for Gate {
    fn as_raw_fd(&self) -> RawFd {
        self.listener.as_raw_fd()
    }
}

/// A runtime whose listeners are gates.
#[derive(Drop)]
struct Gated<R> {
    runtime: R,
    is_gone: bool,
}

impl<R: Net<Listener = TcpListener, Stream = TcpStream>> Net for Gated<R> {
    type Stream = Shaken;

    type Listener = Gate;

    fn bind(&self, address: SocketAddr) -> io::Result<Gate> {
        Ok(Gate {
            listener: self.runtime.bind(address)?,
            accepts: AtomicU64::new(0),
            is_gone: self.is_gone,
        })
    }

    fn connect(&self, _address: SocketAddr) -> io::Result<Shaken> {
        Err(io::Error::from(ErrorKind::Unsupported))
    }
}

impl<R: Clock> Clock for Gated<R> {
    fn monotonic(&self) -> io::Result<Duration> {
        self.runtime.monotonic()
    }

    fn since_1970(&self) -> io::Result<Duration> {
        self.runtime.since_1970()
    }
}

impl<R: Eprint> Eprint for Gated<R> {
    fn eprint<D: Display + Drop>(&self, value: D) -> io::Result<()> {
        self.runtime.eprint(value)
    }

    fn eprintln<D: Display + Drop>(&self, value: D) -> io::Result<()> {
        self.runtime.eprintln(value)
    }
}

/// A port of loopback that nobody has.
fn free_port(rt: &HostRuntime) -> Result<u16, Fail> {
    let free = TcpListener::bind(rt, (Ipv4Addr::LOCALHOST, 0))?;
    Ok(free.local_addr()?.port())
}

/// A client of this port that has sent these bytes.
fn client_of(rt: &HostRuntime, port: u16, bytes: &[u8]) -> Result<TcpStream, Fail> {
    let mut client = TcpStream::connect(rt, (Ipv4Addr::LOCALHOST, port))?;
    client.write_all(bytes)?;
    Ok(client)
}

/// All that a client is sent, which sends no more.
fn told(alloc: Global, client: &mut TcpStream) -> Result<Vec<u8>, Fail> {
    client.shutdown(Shutdown::Write)?;
    let mut answer = Vec::new(alloc);
    client.read_to_end(&mut answer)?;
    Ok(answer)
}

/// Takes the next connection, reads a byte of it, and answers so.
fn answered<L: Link>(link: &mut L, answer: &[u8]) -> Result<u8, Failed> {
    if !link.next()? {
        return Err(Failed);
    }
    let mut byte = [0u8; 1];
    link.read(&mut byte)?;
    send_whole(link, answer)?;
    link.end();
    Ok(byte[0])
}

/// What failed, as a failure of the test.
fn failed(_: Failed) -> Fail {
    "a call of the link failed".into()
}

/// How many bytes of an answer a client gets that sent more than was read of it.
fn great_answer(rt: &HostRuntime) -> Result<usize, Fail> {
    let port = free_port(rt)?;
    let mut link = TcpLink::new(rt.alloc(), rt)?;
    link.open(port).map_err(failed)?;
    let mut client = client_of(rt, port, &[b'a'; 10_000])?;
    client.shutdown(Shutdown::Write)?;
    let answer = vec![in rt.alloc(); b'x'; GREAT]?;
    answered(&mut link, &answer).map_err(failed)?;
    Ok(told(rt.alloc(), &mut client)?.len())
}

/// Whether a client that sends nothing is given up, and what the one behind it has sent.
fn idle_before_another(rt: &HostRuntime) -> Result<(bool, u8), Fail> {
    let port = free_port(rt)?;
    let mut link = TcpLink::new(rt.alloc(), rt)?;
    link.open(port).map_err(failed)?;
    let _idle = client_of(rt, port, b"")?;
    let _other = client_of(rt, port, b"b")?;
    let is_given_up = answered(&mut link, b"").is_err();
    let byte = answered(&mut link, b"an answer").map_err(failed)?;
    Ok((is_given_up, byte))
}

/// Two clients of a gate: what the link reads, and what each of them is told.
fn through_a_gate(rt: &HostRuntime) -> Result<(u8, [Vec<u8>; 2]), Fail> {
    let port = free_port(rt)?;
    let gated = Gated {
        runtime: rt,
        is_gone: false,
    };
    let mut link = TcpLink::new(rt.alloc(), gated)?;
    link.open(port).map_err(failed)?;
    let mut first = client_of(rt, port, b"")?;
    let mut second = client_of(rt, port, b"b")?;
    let byte = answered(&mut link, b"an answer").map_err(failed)?;
    let answers = [
        told(rt.alloc(), &mut first)?,
        told(rt.alloc(), &mut second)?,
    ];
    Ok((byte, answers))
}

/// A client that sent more than is read of it gets the whole answer: it isn't reset.
#[test]
fn an_answer_is_not_lost(rt: HostRuntime) -> Result<(), Fail> {
    assert_eq!(rt; great_answer(&rt)?, GREAT);
    Ok(())
}

/// A client that sends nothing is given up for another that waits.
#[test]
fn an_idle_client_is_given_up(rt: HostRuntime) -> Result<(), Fail> {
    assert_eq!(rt; idle_before_another(&rt)?, (true, b'b'));
    Ok(())
}

/// An accept that fails, an option that isn't taken, and an interrupted read and write: the server goes on, and only the
/// client whose option it is is ended.
#[test]
fn a_client_has_its_own_trouble(rt: HostRuntime) -> Result<(), Fail> {
    let (byte, [first, second]) = through_a_gate(&rt)?;
    assert_eq!(rt; byte, b'b');
    assert_eq!(rt; first.as_slice(), b"".as_slice());
    assert_eq!(rt; second.as_slice(), b"an answer".as_slice());
    Ok(())
}

/// A listener that gives no connection any more is a fault of the link.
#[test]
fn a_listener_is_gone(rt: HostRuntime) -> Result<(), Fail> {
    let gated = Gated {
        runtime: &rt,
        is_gone: true,
    };
    let mut link = TcpLink::new(rt.alloc(), gated)?;
    link.open(free_port(&rt)?).map_err(failed)?;
    assert!(&rt; link.next().is_err());
    Ok(())
}
