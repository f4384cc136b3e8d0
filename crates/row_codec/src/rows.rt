//! The rows of the three tables.
ghost use Rattle.std.specs.Prelude.{true};
ghost use Rattle.row_codec.specs.Range.{object_in_range, version_row_in_range, ref_in_range, in_range, is_short_object, is_short_version_row, has_bytes};
ghost use Rattle.row_codec.specs.Rows.{object_at, version_row_at, reference_at, row_at};
ghost use Rattle.row_codec.specs.RowLaws.{object_reads, version_row_reads, reference_reads, row_reads};
ghost use Rattle.row_codec.specs.Spelling.{object_row, version_row, reference_row, spelled};

use crate::fault::Fault;
use crate::field::Field;
use blake2_hash::Hash32;
use crdt_core::{Bool, Bytes, Deletable, Map, Memory};
use crdt_rows::{AnyRow, ObjectRow, RefRow, VersionRow};
use std::alloc::Global;

impl Field for ObjectRow {
    ghost in_range = { object_in_range };

    ghost is_short = { is_short_object };

    ghost spelled = { object_row };

    ghost read = { object_at };

    ghost reads = { object_reads };

    fn is_short(&self) -> bool {
        self.key.is_short() && self.versions.is_short()
    }

    fn spelled_len(&self) -> Option<usize> {
        let names = self
            .bucket
            .spelled_len()?
            .checked_add(self.key.spelled_len()?)?;
        names.checked_add(self.versions.spelled_len()?)
    }

    fn put(&self, out: &mut Bytes) -> Result<(), Memory> {
        self.bucket.put(out)?;
        self.key.put(out)?;
        self.versions.put(out)
    }

    #[tactic(auto, unfolding(crate::specs::Rows::object_at, crate::specs::Reading::tested_at, crate::specs::Reading::both_at))]
    fn take(alloc: Global, bytes: &[u8]) -> Result<(ObjectRow, &[u8]), Fault> {
        let (bucket, rest) = Hash32::take(alloc, bytes)?;
        let (key, rest) = Bytes::take(alloc, rest)?;
        let (versions, rest) = Map::take(alloc, rest)?;
        match ObjectRow::with_versions(bucket, key, versions) {
            Some(row) => Ok((row, rest)),
            None => Err(Fault::NotARow),
        }
    }
}

impl Field for VersionRow {
    ghost in_range = { version_row_in_range };

    ghost is_short = { is_short_version_row };

    ghost spelled = { version_row };

    ghost read = { version_row_at };

    ghost reads = { version_row_reads };

    fn is_short(&self) -> bool {
        self.blocks.is_short()
    }

    fn spelled_len(&self) -> Option<usize> {
        self.id
            .spelled_len()?
            .checked_add(self.blocks.spelled_len()?)
    }

    fn put(&self, out: &mut Bytes) -> Result<(), Memory> {
        self.id.put(out)?;
        self.blocks.put(out)
    }

    #[tactic(auto, unfolding(crate::specs::Rows::version_row_at, crate::specs::Reading::made_at, crate::specs::Reading::both_at))]
    fn take(alloc: Global, bytes: &[u8]) -> Result<(VersionRow, &[u8]), Fault> {
        let (id, rest) = u64::take(alloc, bytes)?;
        let (blocks, rest) = Deletable::take(alloc, rest)?;
        Ok((VersionRow { id, blocks }, rest))
    }
}

impl Field for RefRow {
    ghost in_range = { ref_in_range };

    ghost is_short = { λ r. true };

    ghost spelled = { reference_row };

    ghost read = { reference_at };

    ghost reads = { reference_reads };

    fn is_short(&self) -> bool {
        true
    }

    fn spelled_len(&self) -> Option<usize> {
        let names = self
            .hash
            .spelled_len()?
            .checked_add(self.id.spelled_len()?)?;
        names.checked_add(self.deleted.spelled_len()?)
    }

    fn put(&self, out: &mut Bytes) -> Result<(), Memory> {
        self.hash.put(out)?;
        self.id.put(out)?;
        self.deleted.put(out)
    }

    #[tactic(auto, unfolding(crate::specs::Rows::reference_at, crate::specs::Reading::made_at, crate::specs::Reading::both_at))]
    fn take(alloc: Global, bytes: &[u8]) -> Result<(RefRow, &[u8]), Fault> {
        let (hash, rest) = Hash32::take(alloc, bytes)?;
        let (id, rest) = u64::take(alloc, rest)?;
        let (deleted, rest) = Bool::take(alloc, rest)?;
        Ok((RefRow { hash, id, deleted }, rest))
    }
}

impl Field for AnyRow {
    ghost in_range = { in_range };

    ghost is_short = { has_bytes };

    ghost spelled = { spelled };

    ghost read = { row_at };

    ghost reads = { row_reads };

    fn is_short(&self) -> bool {
        match self {
            AnyRow::Object(row) => row.get().is_short(),
            AnyRow::Version(row) => row.get().is_short(),
            AnyRow::Ref(row) => row.is_short(),
        }
    }

    fn spelled_len(&self) -> Option<usize> {
        match self {
            AnyRow::Object(row) => row.get().spelled_len()?.checked_add(1),
            AnyRow::Version(row) => row.get().spelled_len()?.checked_add(1),
            AnyRow::Ref(row) => row.spelled_len()?.checked_add(1),
        }
    }

    fn put(&self, out: &mut Bytes) -> Result<(), Memory> {
        match self {
            AnyRow::Object(row) => {
                out.push(1)?;
                row.get().put(out)
            }
            AnyRow::Version(row) => {
                out.push(2)?;
                row.get().put(out)
            }
            AnyRow::Ref(row) => {
                out.push(3)?;
                row.put(out)
            }
        }
    }

    #[tactic(auto, unfolding(crate::specs::Rows::row_at, crate::specs::Reading::made_at))]
    fn take(alloc: Global, bytes: &[u8]) -> Result<(AnyRow, &[u8]), Fault> {
        match bytes {
            [1, rest @ ..] => {
                let (row, rest) = ObjectRow::take(alloc, rest)?;
                Ok((AnyRow::object(alloc, row)?, rest))
            }
            [2, rest @ ..] => {
                let (row, rest) = VersionRow::take(alloc, rest)?;
                Ok((AnyRow::version(alloc, row)?, rest))
            }
            [3, rest @ ..] => {
                let (row, rest) = RefRow::take(alloc, rest)?;
                Ok((AnyRow::Ref(row), rest))
            }
            _ => Err(Fault::NotARow),
        }
    }
}
