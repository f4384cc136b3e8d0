//! Which version uses which block.
ghost use Rattle.std.specs.Prelude.{◌≡◌};

use blake2_hash::Hash32;
use crdt_core::{Bool, Crdt, Memory};
use std::cmp::Ordering;

/// That one version uses one block, until the row is deleted.
#[derive(Clone, Copy, Debug, PartialEq, Eq)]
pub struct RefRow {
    /// The block's digest.
    pub hash: Hash32,
    /// The version's identifier.
    pub id: u64,
    pub deleted: Bool,
}

impl RefRow {
    ghost use Rattle.crdt_rows.specs.RefRow.{ref_key_cmp, ref_key};

    fn order(&self, other: &RefRow) -> Ordering
        ensures { result ≡ ref_key_cmp (ref_key self.now) (ref_key other.now) }
    {
        self.hash.cmp(&other.hash).then(self.id.cmp(&other.id))
    }
}

impl Crdt for RefRow {
    ghost use Rattle.std.specs.Prelude.{IsOk};
    ghost use Rattle.crdt_rows.specs.RefRow.{ref_row_join};
    ghost use Rattle.crdt_rows.specs.RowLaws.{ref_row_laws};

    ghost join = { ref_row_join };

    ghost join_laws = { ref_row_laws };

    /// Takes no memory.
    fn copy(&self) -> Result<RefRow, Memory>
        ensures { result ≡ Ok self.now }
    {
        Ok(*self)
    }

    /// Takes no memory.
    fn merge(&mut self, other: &RefRow) -> Result<(), Memory>
        ensures done { IsOk result }
        ensures joined { self.new ≡ ref_row_join self.old other.now }
    {
        match self.order(other) {
            Ordering::Less => {
                *self = *other;
                Ok(())
            }
            Ordering::Equal => self.deleted.merge(&other.deleted),
            Ordering::Greater => Ok(()),
        }
    }
}
