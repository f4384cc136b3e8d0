//! The blocks of one version of an object.
ghost use Rattle.std.specs.Prelude.{◌≡◌};
ghost use Rattle.crdt_rows.specs.FieldLaws.{part_identical, block_ref_identical};

use blake2_hash::Hash32;
use crdt_core::{Crdt, Deletable, Map, Max, Memory, Value};
use std::cmp::Ordering;

/// Where a block stands in its object. Places are ordered by part, then by offset.
#[derive(Clone, Copy, Debug, PartialEq, Eq, PartialOrd, Ord)]
pub struct Part {
    /// The number of the upload's part, from 1.
    pub part: u32,
    /// The offset in the part, in bytes.
    pub offset: u64,
}

/// A block by its digest, and its size in bytes. Two are ordered by digest, then by size.
#[derive(Clone, Copy, Debug, PartialEq, Eq, PartialOrd, Ord)]
pub struct BlockRef {
    pub hash: Hash32,
    pub size: u32,
}

/// The blocks of one version of an object, or that it is deleted.
#[derive(Debug, Drop, PartialEq, Eq)]
pub struct VersionRow {
    /// The version's identifier.
    pub id: u64,
    pub blocks: Deletable<Map<Part, Max<BlockRef>>>,
}

impl Value for Part {
    ghost identical = { part_identical };

    /// Takes no memory.
    fn copy(&self) -> Result<Part, Memory>
        ensures { result ≡ Ok self.now }
    {
        Ok(*self)
    }
}

impl Value for BlockRef {
    ghost identical = { block_ref_identical };

    /// Takes no memory.
    fn copy(&self) -> Result<BlockRef, Memory>
        ensures { result ≡ Ok self.now }
    {
        Ok(*self)
    }
}

impl Crdt for VersionRow {
    ghost use Rattle.crdt_rows.specs.VersionRow.{version_row_join};
    ghost use Rattle.crdt_rows.specs.RowLaws.{version_row_laws};

    ghost join = { version_row_join };

    ghost join_laws = { version_row_laws };

    fn copy(&self) -> Result<VersionRow, Memory> {
        Ok(VersionRow {
            id: self.id,
            blocks: self.blocks.copy()?,
        })
    }

    fn merge(&mut self, other: &VersionRow) -> Result<(), Memory> {
        match self.id.cmp(&other.id) {
            Ordering::Less => {
                *self = other.copy()?;
                Ok(())
            }
            Ordering::Equal => self.blocks.merge(&other.blocks),
            Ordering::Greater => Ok(()),
        }
    }
}
