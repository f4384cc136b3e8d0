//! Why there is no page.
ghost use Rattle.std.specs.Prelude.{◌≡◌};
ghost use Rattle.chart_page.specs.declared.fault.Fault.TheVariants.{Memory as Wanting};

use std::alloc::{AllocError, AllocFailed};

/// Why a line was not read.
#[derive(Clone, Copy, Debug, PartialEq, Eq)]
pub enum Fault {
    /// The line is none, or doesn't go on from those before it.
    Bad,
    /// The allocator had none to give.
    Memory,
}

/// Why there is no page.
#[derive(Clone, Copy, Debug, PartialEq, Eq)]
pub enum Stop {
    /// The first line that is bad, counted from 1.
    BadLine(u64),
    /// The allocator had none to give.
    Memory,
}

impl From<AllocError> for Fault {
    ghost from_gives = { λ _ fault. fault ≡ Wanting };

    fn from(_: AllocError) -> Fault {
        Fault::Memory
    }
}

impl<T: Drop> From<AllocFailed<T>> for Fault {
    ghost from_gives = { λ _ fault. fault ≡ Wanting };

    fn from(_: AllocFailed<T>) -> Fault {
        Fault::Memory
    }
}

impl From<crdt_core::Memory> for Fault {
    ghost from_gives = { λ _ fault. fault ≡ Wanting };

    fn from(_: crdt_core::Memory) -> Fault {
        Fault::Memory
    }
}
