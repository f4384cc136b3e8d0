//! Why no assignment is answered.
ghost use Rattle.std.specs.Prelude.{◌≡◌};

use crdt_core::Memory;
use layout_flow::Cut;

/// Why no assignment is answered.
#[derive(Debug, Drop)]
pub enum MoveFault {
    /// None fits the size.
    NoAssignment(Cut),
    /// The allocator had none to give.
    Memory,
}

impl From<Memory> for MoveFault {
    ghost use Rattle.layout_moves.specs.declared.fault.MoveFault.TheVariants.{Memory};

    ghost from_gives = { λ _ fault. fault ≡ Memory };

    fn from(_: Memory) -> MoveFault {
        MoveFault::Memory
    }
}
