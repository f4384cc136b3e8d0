//! Why nothing was served to the end.
ghost use Rattle.std.specs.Prelude.{◌≡◌};
ghost use Rattle.serve_run.specs.Stop.{stop_of_read, stop_of_memory, stop_of_serving};

use crdt_core::Bytes;
use lab_outside::ReadStop;
use serve_loop::ServeStop;
use serve_model::ServeFault;

/// Why nothing was served to the end.
#[derive(Debug, Drop)]
pub enum Stop {
    /// A read of the input failed.
    Read,
    /// The port couldn't be opened, or waiting for a connection failed.
    Link,
    /// Memory was refused.
    Memory,
    /// The input has more bytes than it may have.
    LongInput,
    /// The input says no cluster: the line that says why.
    Refused(Bytes),
    /// More bytes were put or copied than may be.
    Kept,
    /// A number would pass its type's greatest value, or a row has no spelling.
    Number,
}

impl From<ReadStop> for Stop {
    ghost from_gives = { λ why stop. stop ≡ stop_of_read why };

    fn from(stop: ReadStop) -> Stop {
        match stop {
            ReadStop::Failed => Stop::Read,
            ReadStop::Memory => Stop::Memory,
        }
    }
}

impl From<crdt_core::Memory> for Stop {
    ghost from_gives = { λ why stop. stop ≡ stop_of_memory why };

    fn from(why: crdt_core::Memory) -> Stop {
        match why {
            crdt_core::Memory::Want => Stop::Memory,
            crdt_core::Memory::Full => Stop::Number,
        }
    }
}

impl From<ServeStop> for Stop {
    ghost from_gives = { λ why stop. stop ≡ stop_of_serving why };

    fn from(stop: ServeStop) -> Stop {
        match stop {
            ServeStop::Link => Stop::Link,
            ServeStop::Fault(ServeFault::Kept) => Stop::Kept,
            ServeStop::Fault(ServeFault::Number) => Stop::Number,
            ServeStop::Fault(ServeFault::Memory) => Stop::Memory,
        }
    }
}
