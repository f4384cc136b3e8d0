//! Why there is no layout.
ghost use Rattle.std.specs.Prelude.{◌≡◌};

use crdt_core::Memory;
use layout_roles::Cut;

/// Why there is no layout.
#[derive(Debug, Drop)]
pub enum LayoutFault {
    /// There are so many storage nodes, fewer than the three that a partition needs.
    TooFewNodes(u8),
    /// So many zones have storage nodes, and that many are asked for.
    TooFewZones(u8, u8),
    /// No assignment fits partitions of one byte.
    NoAssignment(Cut),
    /// The allocator had none to give.
    Memory,
}

impl From<Memory> for LayoutFault {
    ghost use Rattle.layout_size.specs.declared.fault.LayoutFault.TheVariants.{Memory};

    ghost from_gives = { λ _ fault. fault ≡ Memory };

    fn from(_: Memory) -> LayoutFault {
        LayoutFault::Memory
    }
}
