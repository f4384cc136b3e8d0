// The program's edge: what it reads, writes, serves and asks for the time, as far as a contract can see it.
//
// A program is generic over a `Source`, a `Sink`, a `Link` and a `Clock`. Each says what it stands for: the
// bytes that are left, the bytes that were written, the connections, the times. Each of these is told or not:
// objects in memory tell it, files and sockets don't. Each counts its faults: the count never falls, and a
// call answers `Failed` only where it rose, so that a program can't blame the outside for what it did itself.
//
// The trusted edge is what stands for the system: `StdSource` and `StdSink` over a reader and a writer,
// `TcpLink` over the sockets of 127.0.0.1, `WallClock` over a runtime's clock. They tell nothing but faults,
// and hand on what the system gives; a program's `main` makes them of its `rt`, the last two by `&rt`.
#![tactic(auto)]

mod calls;
mod exit;
mod memory;
mod patience;
mod piece_link;
mod ports;
mod send;
mod standard;
mod sure;
mod sure_connection;
mod sure_link;
mod tcp_connection;
mod tcp_link;
mod tcp_queue;
mod wall_clock;
mod whole;

pub use crate::exit::Status;
pub use crate::memory::{MemClock, MemSink, MemSource};
pub use crate::piece_link::PieceLink;
pub use crate::ports::{Clock, Failed, Link, Sink, Source};
pub use crate::send::send_whole;
pub use crate::standard::{StdSink, StdSource};
pub use crate::sure::{SureSink, SureSource};
pub use crate::sure_link::SureLink;
pub use crate::tcp_link::TcpLink;
pub use crate::wall_clock::WallClock;
pub use crate::whole::{ReadStop, read_up_to, write_whole};
