//! Why a schedule isn't read.
ghost use Rattle.std.specs.Prelude.{◌≡◌};

use std::alloc::AllocError;

/// Why a schedule isn't read.
#[derive(Clone, Copy, Debug, PartialEq, Eq)]
pub enum ScheduleFault {
    /// The first line outside the grammar, counted from 1.
    BadLine(u64),
    /// More events than a schedule may have, before any line outside the grammar.
    TooManyEvents,
    /// The allocator had none to give.
    Memory,
}

/// Why a line isn't read.
#[derive(Clone, Copy, Debug, PartialEq, Eq)]
pub enum LineFault {
    /// It spells no event.
    Outside,
    /// The allocator had none to give.
    Memory,
}

impl From<AllocError> for LineFault {
    ghost use Rattle.schedule_text.specs.declared.fault.LineFault.TheVariants.{Memory};

    ghost from_gives = { λ _ e. e ≡ Memory };

    fn from(_: AllocError) -> LineFault {
        LineFault::Memory
    }
}

impl From<crdt_core::Memory> for LineFault {
    ghost use Rattle.schedule_text.specs.declared.fault.LineFault.TheVariants.{Memory};

    ghost from_gives = { λ _ e. e ≡ Memory };

    fn from(_: crdt_core::Memory) -> LineFault {
        LineFault::Memory
    }
}

impl From<crdt_core::Memory> for ScheduleFault {
    ghost use Rattle.schedule_text.specs.declared.fault.ScheduleFault.TheVariants.{Memory};

    ghost from_gives = { λ _ e. e ≡ Memory };

    fn from(_: crdt_core::Memory) -> ScheduleFault {
        ScheduleFault::Memory
    }
}
