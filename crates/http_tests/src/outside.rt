//! What no clause says: that the calls succeed with ample memory, and that a call which fails leaves the rest.
use lab_outside::{
    Clock, Failed, Link, MemClock, MemSink, MemSource, ReadStop, Status, StdSink, StdSource,
    SureLink, SureSink, SureSource, TcpLink, WallClock, read_up_to, send_whole, write_whole,
};
use std::alloc::Global;
use std::io;
use std::io::{ErrorKind, Read, Write};
use std::net::{Ipv4Addr, Net, Shutdown, TcpListener, TcpStream};
use std::test::Fail;

#[test]
fn kth_read_fails(rt: HostRuntime) -> Result<(), Fail> {
    for k in 1..=3 {
        let bytes = b"ten bytes.".to_vec(rt.alloc())?;
        let mut source = MemSource::new(bytes, [k].to_vec(rt.alloc())?);
        let first = read_up_to(rt.alloc(), &mut source, 100);
        if k == 3 {
            assert_eq!(rt; first?.as_slice(), b"ten bytes.".as_slice());
        } else {
            assert_eq!(rt; first.err(), Some(ReadStop::Failed), "at read {k}");
            let second = read_up_to(rt.alloc(), &mut source, 100)?;
            let rest = if k == 1 { 10 } else { 0 };
            assert_eq!(rt; second.len(), rest, "after read {k}");
        }
    }
    Ok(())
}

/// Which of three words can't be written.
fn unwritten(sink: &mut MemSink) -> [bool; 3] {
    [
        write_whole(sink, b"one ").is_err(),
        write_whole(sink, b"two ").is_err(),
        write_whole(sink, b"three").is_err(),
    ]
}

#[test]
fn kth_write_fails(rt: HostRuntime) -> Result<(), Fail> {
    let written: [(u64, &[u8]); 4] = [
        (1, b"two three"),
        (2, b"one three"),
        (3, b"one two "),
        (4, b"one two three"),
    ];
    for (k, bytes) in written {
        let mut sink = MemSink::new(rt.alloc(), [k].to_vec(rt.alloc())?);
        assert_eq!(rt; unwritten(&mut sink), [k == 1, k == 2, k == 3]);
        assert_eq!(rt; sink.bytes(), bytes, "at write {k}");
    }
    Ok(())
}

#[test]
fn reads_to_the_end_or_one_past_the_limit(rt: HostRuntime) -> Result<(), Fail> {
    for (length, limit, count) in [
        (0, 0, 0),
        (1, 0, 1),
        (9999, 10000, 9999),
        (10000, 9000, 9001),
    ] {
        let mut bytes = Vec::new(rt.alloc());
        bytes.resize(length, 7u8)?;
        let mut source = SureSource::new(bytes);
        let all = read_up_to(rt.alloc(), &mut source, limit)?;
        assert_eq!(rt; all.len(), count, "{length} bytes to {limit}");
    }
    Ok(())
}

#[test]
fn sure_sink_stops_telling(rt: HostRuntime) -> Result<(), Fail> {
    let mut sink = SureSink::new(rt.alloc(), 4)?;
    write_whole(&mut sink, b"abc")?;
    assert_eq!(rt; sink.bytes(), Some(b"abc".as_slice()));
    write_whole(&mut sink, b"de")?;
    assert_eq!(rt; sink.bytes(), None);
    Ok(())
}

fn served<L: Link>(link: &mut L) -> Result<u64, Failed> {
    let mut sum = 0u64;
    link.open(80)?;
    for _ in 0..9 {
        if !link.next()? {
            break;
        }
        let mut piece = [0; 8];
        let count = link.read(&mut piece)?;
        send_whole(link, b"answer to ")?;
        send_whole(link, &piece[..count])?;
        sum = sum.wrapping_mul(10).wrapping_add(count as u64);
        link.end();
    }
    Ok(sum)
}

#[test]
fn connections_come_in_order(rt: HostRuntime) -> Result<(), Fail> {
    let mut connections = Vec::new(rt.alloc());
    connections.push(b"abc".to_vec(rt.alloc())?)?;
    connections.push(b"".to_vec(rt.alloc())?)?;
    connections.push(b"de".to_vec(rt.alloc())?)?;
    let mut link = SureLink::new(rt.alloc(), connections, 12)?;
    assert_eq!(rt; served(&mut link)?, 302);
    Ok(())
}

#[test]
fn sure_link_shows_what_was_written(rt: HostRuntime) -> Result<(), Fail> {
    let mut connections = Vec::new(rt.alloc());
    connections.push(b"abc".to_vec(rt.alloc())?)?;
    let mut link = SureLink::new(rt.alloc(), connections, 13)?;
    assert!(&rt; link.next() == Ok(true));
    assert_eq!(rt; link.written(0), Some(b"".as_slice()));
    send_whole(&mut link, b"answer to ")?;
    send_whole(&mut link, b"abc")?;
    assert_eq!(rt; link.written(0), Some(b"answer to abc".as_slice()));
    Ok(())
}

/// A port of 127.0.0.1 that nobody has.
fn free_port<R: Net<Listener = TcpListener, Stream = TcpStream>>(net: &R) -> io::Result<u16> {
    // The system names it.
    let free = TcpListener::bind(net, (Ipv4Addr::LOCALHOST, 0))?;
    let address = free.local_addr()?;
    Ok(address.port())
}

/// Whether the link waits in vain before it is open, and opens once and again.
fn opened<L: Link>(link: &mut L, port: u16) -> [bool; 3] {
    [
        link.next().is_err(),
        link.open(port).is_ok(),
        link.open(port).is_ok(),
    ]
}

/// A client that has sent its whole request.
fn asking<R: Net<Listener = TcpListener, Stream = TcpStream>>(
    net: &R,
    port: u16,
) -> io::Result<TcpStream> {
    let mut client = TcpStream::connect(net, (Ipv4Addr::LOCALHOST, port))?;
    client.write_all(b"a request")?;
    client.shutdown(Shutdown::Write)?;
    Ok(client)
}

/// Answers the next connection: its first piece, and the counts of that one and of the next.
fn answered<L: Link>(link: &mut L) -> Result<([u8; 20], [usize; 2]), Failed> {
    if !link.next()? {
        return Err(Failed);
    }
    let mut piece = [0u8; 20];
    let count = link.read(&mut piece)?;
    let rest = link.read(&mut [0u8; 20])?;
    send_whole(link, b"an answer")?;
    link.end();
    Ok((piece, [count, rest]))
}

/// All that the client is sent.
fn told(alloc: Global, client: &mut TcpStream) -> io::Result<Vec<u8>> {
    let mut answer = Vec::new(alloc);
    client.read_to_end(&mut answer)?;
    Ok(answer)
}

#[test]
fn a_client_over_tcp(rt: HostRuntime) -> Result<(), Fail> {
    let port = free_port(&rt)?;
    let mut link = TcpLink::new(rt.alloc(), &rt)?;
    assert_eq!(rt; opened(&mut link, port), [true; 3]);
    let mut client = asking(&rt, port)?;
    let (piece, counts) = answered(&mut link)?;
    assert_eq!(rt; counts, [9, 0]);
    assert_eq!(rt; &piece[..9], b"a request".as_slice());
    let answer = told(rt.alloc(), &mut client)?;
    assert_eq!(rt; answer.as_slice(), b"an answer".as_slice());
    Ok(())
}

fn times<C: Clock>(clock: &mut C) -> [u64; 4] {
    [clock.now(), clock.now(), clock.now(), clock.now()]
}

#[test]
fn last_time_repeats(rt: HostRuntime) -> Result<(), Fail> {
    let mut clock = MemClock::new([5, 9, 7].to_vec(rt.alloc())?);
    assert_eq!(rt; times(&mut clock), [5, 9, 7, 7]);
    Ok(())
}

#[test]
fn the_time_is_of_these_years(rt: HostRuntime) {
    let [time, _, _, _] = times(&mut WallClock::new(&rt));
    assert!(&rt; time > 1_700_000_000_000, "{time} milliseconds");
}

/// A reader that is interrupted once.
#[derive(Drop)]
struct Interrupted {
    before: bool,
}

impl Read for Interrupted {
    fn read(&mut self, _into: &mut [u8]) -> io::Result<usize> {
        if self.before {
            return Ok(0);
        }
        self.before = true;
        Err(io::Error::from(ErrorKind::Interrupted))
    }
}

#[test]
fn an_interruption_is_a_fault(rt: HostRuntime) -> Result<(), Fail> {
    let mut source = StdSource::new(Interrupted { before: false });
    let first = read_up_to(rt.alloc(), &mut source, 9);
    assert_eq!(rt; first.err(), Some(ReadStop::Failed));
    assert_eq!(rt; read_up_to(rt.alloc(), &mut source, 9)?.len(), 0);
    Ok(())
}

#[test]
fn bytes_pass_through(rt: HostRuntime) -> Result<(), Fail> {
    let mut source = StdSource::new(b"all of it".as_slice());
    let all = read_up_to(rt.alloc(), &mut source, 100)?;
    assert_eq!(rt; all.as_slice(), b"all of it".as_slice());
    let mut bytes = Vec::new(rt.alloc());
    write_whole(&mut StdSink::new(&mut bytes), &all)?;
    assert_eq!(rt; bytes.as_slice(), b"all of it".as_slice());
    Ok(())
}

#[test]
fn standard_input_and_output(rt: HostRuntime) -> Result<(), Fail> {
    let mut source = StdSource::new(rt.reader());
    assert_eq!(rt; read_up_to(rt.alloc(), &mut source, 9)?.len(), 0);
    let mut sink = StdSink::new(io::writer(&rt));
    write_whole(&mut sink, b"a few bytes\n")?;
    Ok(())
}

#[test]
fn statuses_are_numbered(rt: HostRuntime) {
    assert_eq!(rt; Status::Done.code(), 0);
    assert_eq!(rt; Status::Limit.code(), 7);
}
