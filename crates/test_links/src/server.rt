//! A server over three nodes, with everything in memory.
ghost use Rattle.std.specs.Prelude.{◌≡◌, None};

use crate::recorder::recorded;
use crdt_core::Memory;
use lab_outside::{Link, MemClock, MemSink, MemSource, Status};
use serve_run::{Server, run_server};
use std::alloc::Global;

/// A server of one connection.
pub const ONE_CONNECTION: Server = Server {
    port: 3900,
    count: 1,
};

/// Three nodes in three zones, each with the same room.
pub const THREE_NODES: &[u8] = b"\
    buckets = ['pics']\n\
    [[node]]\n\
    id = 1\n\
    zone = 'a'\n\
    capacity = 1000\n\
    [[node]]\n\
    id = 2\n\
    zone = 'b'\n\
    capacity = 1000\n\
    [[node]]\n\
    id = 3\n\
    zone = 'c'\n\
    capacity = 1000\n";

/// The answer to a put of `/pics/a.txt` of whose announced body the connection has no more.
pub const SHORT_ANSWER: &[u8] = b"\
    HTTP/1.1 400 Bad Request\r\n\
    Date: Tue, 14 Nov 2023 22:13:20 GMT\r\n\
    Content-Length: 146\r\n\
    Content-Type: application/xml\r\n\
    Connection: close\r\n\r\n\
    <?xml version=\"1.0\" encoding=\"UTF-8\"?>\n\
    <Error><Code>IncompleteBody</Code><Message>IncompleteBody</Message><Resource>/pics/a.txt</Resource></Error>";

/// How a server ended, and what was written to the output.
#[derive(Drop)]
pub struct Ended {
    pub status: Status,
    pub output: Vec<u8>,
}

/// What a server of one connection that has these bytes did.
#[derive(Drop)]
pub struct Session {
    pub status: Status,
    pub output: Vec<u8>,
    pub written: Vec<u8>,
}

/// A server of one connection of this port and link, over three nodes.
pub fn served_over<L: Link>(alloc: Global, port: u16, link: &mut L) -> Result<Ended, Memory>
    requires { L.present link.old ≡ None }
{
    served_with(alloc, THREE_NODES, Server { port, count: 1 }, link)
}

/// A server with this configuration.
pub fn served_with<L: Link>(
    alloc: Global,
    configuration: &[u8],
    server: Server,
    link: &mut L,
) -> Result<Ended, Memory>
    requires { L.present link.old ≡ None }
{
    let source = MemSource::new(configuration.to_vec(alloc)?, Vec::new(alloc));
    let sink = MemSink::new(alloc, Vec::new(alloc));
    served_from(alloc, server, source, sink, link)
}

/// A server whose configuration comes from this source, and whose lines go to this sink.
pub fn served_from<L: Link>(
    alloc: Global,
    server: Server,
    mut source: MemSource,
    mut sink: MemSink,
    link: &mut L,
) -> Result<Ended, Memory>
    requires { L.present link.old ≡ None }
{
    let mut clock = MemClock::new([1_700_000_000_000].to_vec(alloc)?);
    let status = run_server(alloc, server, &mut source, &mut sink, link, &mut clock);
    Ok(Ended {
        status,
        output: sink.bytes().to_vec(alloc)?,
    })
}

/// A server of one connection that has these bytes.
pub fn served(alloc: Global, bytes: &[u8]) -> Result<Session, Memory> {
    let mut link = recorded(alloc, bytes, 65_536)?;
    let end = served_over(alloc, 3900, &mut link)?;
    Ok(Session {
        status: end.status,
        output: end.output,
        written: link.written().to_vec(alloc)?,
    })
}
