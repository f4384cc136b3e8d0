//! What a configuration says.
ghost use Rattle.std.specs.Prelude.{◌≡◌};

use layout_roles::{Redundancy, Roles};
use name_set::Names;
use std::alloc::AllocError;

/// What a configuration says.
#[derive(Debug, Drop)]
pub struct Config {
    /// In how many zones the nodes of a partition have to be.
    pub redundancy: Redundancy,
    pub roles: Roles,
    /// The names of the buckets that `serve` has, each once; none for `layout`.
    pub buckets: Names,
    /// The size in bytes of the blocks that `serve` cuts objects into.
    pub block_size: u32,
}

/// The fields of a configuration, in the order in which they are looked at.
#[derive(Clone, Copy, Debug, PartialEq, Eq)]
pub enum FieldName {
    Redundancy,
    Buckets,
    BlockSize,
    Node,
    Id,
    Zone,
    Capacity,
    /// The tables of changes.
    Change,
    /// After how many requests a change comes.
    After,
    Region,
    Key,
    /// The tables of the old sets, which are looked at after all others.
    Old,
}

/// Why there is no configuration.
#[derive(Clone, Copy, Debug, PartialEq, Eq)]
pub enum ConfigFault {
    /// The text is no TOML document.
    NotToml,
    /// The first field that is missing, of a wrong type or out of its range.
    Field(FieldName),
    /// The allocator had none to give.
    Memory,
}

impl From<FieldName> for ConfigFault {
    ghost use Rattle.layout_text.specs.declared.config.ConfigFault.TheVariants.{Field};

    ghost from_gives = { λ name fault. fault ≡ Field name };

    fn from(name: FieldName) -> ConfigFault {
        ConfigFault::Field(name)
    }
}

impl From<crdt_core::Memory> for ConfigFault {
    ghost use Rattle.layout_text.specs.declared.config.ConfigFault.TheVariants.{Memory};

    ghost from_gives = { λ _ fault. fault ≡ Memory };

    fn from(_: crdt_core::Memory) -> ConfigFault {
        ConfigFault::Memory
    }
}
