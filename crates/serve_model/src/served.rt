//! What is counted from request to request, and why serving ends early.
ghost use Rattle.std.specs.Prelude.{◌≡◌};
ghost use Rattle.crdt_core.specs.declared.memory.Memory.TheVariants.{Want, Full};

use crdt_core::Memory as Wanting;
use std::alloc::AllocError;

/// What is counted from request to request.
#[derive(Clone, Copy, Debug, PartialEq, Eq)]
pub struct Served {
    /// How many bytes were put or copied.
    pub kept: u64,
    /// The time of the last request, in milliseconds since 1970; 0 before the first one.
    pub time: u64,
}

/// Why serving ends before all connections were served.
#[derive(Clone, Copy, Debug, PartialEq, Eq)]
pub enum ServeFault {
    /// More bytes were put or copied than may be.
    Kept,
    /// A number would pass its type's greatest value, or a row has no spelling.
    Number,
    /// Memory was refused.
    Memory,
}

impl From<AllocError> for ServeFault {
    ghost use Rattle.serve_model.specs.declared.served.ServeFault.TheVariants.{Memory as Refused};

    ghost from_gives = { λ _ fault. fault ≡ Refused };

    fn from(_: AllocError) -> ServeFault {
        ServeFault::Memory
    }
}

impl From<Wanting> for ServeFault {
    ghost use Rattle.serve_model.specs.Faults.{fault_of};

    ghost from_gives = { λ memory fault. fault ≡ fault_of memory };

    fn from(memory: Wanting) -> ServeFault {
        match memory {
            Wanting::Want => ServeFault::Memory,
            Wanting::Full => ServeFault::Number,
        }
    }
}
