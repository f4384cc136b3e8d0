//! A server whose configuration can't be read or whose lines can't be written, one of whose links each call fails in turn, and
//! one on loopback.
use crate::served::{ONE_ANSWERS, ONE_OBJECT};
use lab_outside::{Link, MemSink, MemSource, Status, TcpLink};
use std::alloc::Global;
use std::io::{Read, Write};
use std::net::{Ipv4Addr, TcpListener, TcpStream};
use std::test::Fail;
use test_links::{
    Conversation, Ended, ONE_CONNECTION, ONE_LAYOUT, THREE_NODES, goes_on, recorded, served_from,
    served_over,
};

/// The answer to a get of a key that isn't there, on a connection that closes then.
const NO_KEY: &[u8] = b"\
    HTTP/1.1 404 Not Found\r\n\
    Date: Tue, 14 Nov 2023 22:13:20 GMT\r\n\
    Content-Length: 132\r\n\
    Content-Type: application/xml\r\n\
    Connection: close\r\n\r\n\
    <?xml version=\"1.0\" encoding=\"UTF-8\"?>\n\
    <Error><Code>NoSuchKey</Code><Message>NoSuchKey</Message><Resource>/pics/a</Resource></Error>";

/// A server whose read of the configuration and whose write of its lines with these numbers fail, none where it is 0: how it
/// ended, and whether the object's answers were written.
fn edge_fails(alloc: Global, read: u64, write: u64) -> Result<(Ended, bool), Fail> {
    let mut link = recorded(alloc, ONE_OBJECT, 65_536)?;
    let source = MemSource::new(THREE_NODES.to_vec(alloc)?, [read].to_vec(alloc)?);
    let sink = MemSink::new(alloc, [write].to_vec(alloc)?);
    let end = served_from(alloc, ONE_CONNECTION, source, sink, &mut link)?;
    let is_answered = link.written() == ONE_ANSWERS;
    Ok((end, is_answered))
}

/// A server of one connection to this port of loopback.
fn served_on(rt: &HostRuntime, port: u16) -> Result<Ended, Fail> {
    let mut link = TcpLink::new(rt.alloc(), rt)?;
    Ok(served_over(rt.alloc(), port, &mut link)?)
}

/// A listener on loopback, at a port that the system names.
fn listening(rt: &HostRuntime) -> Result<TcpListener, Fail> {
    Ok(TcpListener::bind(rt, (Ipv4Addr::LOCALHOST, 0))?)
}

/// A port of loopback that nobody has.
fn free_port(rt: &HostRuntime) -> Result<u16, Fail> {
    Ok(listening(rt)?.local_addr()?.port())
}

/// A client that has asked this port for a key, and has nothing more to ask.
fn asking(rt: &HostRuntime, port: u16) -> Result<TcpStream, Fail> {
    let mut client = TcpStream::connect(rt, (Ipv4Addr::LOCALHOST, port))?;
    client.write_all(b"GET /pics/a HTTP/1.1\r\nConnection: close\r\n\r\n")?;
    Ok(client)
}

/// All that the client is still sent.
fn answer_to(alloc: Global, client: &mut TcpStream) -> Result<Vec<u8>, Fail> {
    let mut answer = Vec::new(alloc);
    client.read_to_end(&mut answer)?;
    Ok(answer)
}

/// A server of one connection to this port of loopback over which a client asks, and the answer to it.
fn asked_on(rt: &HostRuntime, port: u16) -> Result<(Ended, Vec<u8>), Fail> {
    let mut link = TcpLink::new(rt.alloc(), rt)?;
    if link.open(port).is_err() {
        return Err("not open".into());
    }
    let mut client = asking(rt, port)?;
    let end = served_over(rt.alloc(), port, &mut link)?;
    Ok((end, answer_to(rt.alloc(), &mut client)?))
}

/// A read of the configuration that fails leaves nothing served and nothing written. Two reads give it and its end.
#[test]
fn each_read_of_the_configuration_fails(rt: HostRuntime) -> Result<(), Fail> {
    for read in 1..=2 {
        let (end, is_answered) = edge_fails(rt.alloc(), read, 0)?;
        assert_eq!(rt; (end.status, is_answered), (Status::ReadFault, false));
        assert_eq!(rt; end.output.as_slice(), b"".as_slice());
    }
    let (end, is_answered) = edge_fails(rt.alloc(), 3, 0)?;
    assert_eq!(rt; (end.status, is_answered), (Status::Done, true));
    Ok(())
}

/// All was answered before the lines are written, of which a first part stands where a write fails.
#[test]
fn each_write_of_the_lines_fails(rt: HostRuntime) -> Result<(), Fail> {
    let (whole, _) = edge_fails(rt.alloc(), 0, 0)?;
    for write in 1..=100 {
        let (end, is_answered) = edge_fails(rt.alloc(), 0, write)?;
        assert!(&rt;
            is_answered && whole.output.starts_with(&end.output),
            "at write {write}"
        );
        if end.status == Status::Done {
            assert!(&rt; write > 1 && end.output == whole.output);
            return Ok(());
        }
        assert_eq!(rt; end.status, Status::WriteFault);
        assert!(&rt; end.output.len() < whole.output.len());
    }
    Err("a hundred writes".into())
}

/// The interim line and seven answers are a write each.
#[test]
fn one_object_with_each_call_failing(rt: HostRuntime) -> Result<(), Fail> {
    let it = Conversation {
        configuration: THREE_NODES.to_vec(rt.alloc())?,
        asks: ONE_OBJECT.to_vec(rt.alloc())?,
        answers: ONE_ANSWERS.to_vec(rt.alloc())?,
        size: 100,
        lines: ONE_LAYOUT,
    };
    assert!(rt; goes_on(rt.alloc(), &it, 8)?);
    Ok(())
}

/// A port that somebody else listens on can't be opened: nothing is served, and nothing written.
#[test]
fn port_is_taken(rt: HostRuntime) -> Result<(), Fail> {
    let taken = listening(&rt)?;
    let end = served_on(&rt, taken.local_addr()?.port())?;
    assert_eq!(rt; end.status, Status::LinkFault);
    assert_eq!(rt; end.output.as_slice(), b"".as_slice());
    Ok(())
}

/// A client on loopback that asks for a key which isn't there.
#[test]
fn a_client_over_loopback(rt: HostRuntime) -> Result<(), Fail> {
    let (end, answer) = asked_on(&rt, free_port(&rt)?)?;
    assert_eq!(rt; end.status, Status::Done);
    assert!(&rt; end.output.ends_with(b"\nend 1 1 6\n"));
    assert_eq!(rt; answer.as_slice(), NO_KEY);
    Ok(())
}
