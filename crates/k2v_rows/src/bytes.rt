//! The bytes of what writes leave, of a node's writes, and of rows.
ghost use Rattle.std.specs.Prelude.{◌≡◌};
ghost use Rattle.row_codec.specs.Gives.{Gives};
ghost use Rattle.k2v_rows.specs.Range.{value_in_range, writes_in_range, in_range, is_short_value, are_short_writes, has_bytes};
ghost use Rattle.k2v_rows.specs.Reading.{value_at, writes_at, row_at, rest_at};
ghost use Rattle.k2v_rows.specs.ReadingLaws.{value_reads, writes_reads, row_reads};
ghost use Rattle.k2v_rows.specs.Spelling.{value, writes, spelled};

use crate::k2v_row::K2vRow;
use crate::value::K2vValue;
use crate::writes::Writes;
use blake2_hash::Hash32;
use crdt_core::{Bytes, Map, Memory};
use row_codec::{Fault, Field};
use shared_value::Shared;
use std::alloc::Global;

impl Field for K2vValue {
    ghost in_range = { value_in_range };

    ghost is_short = { is_short_value };

    ghost spelled = { value };

    ghost read = { value_at };

    ghost reads = { value_reads };

    fn is_short(&self) -> bool {
        match self {
            K2vValue::Deleted => true,
            K2vValue::Value(bytes) => bytes.get().is_short(),
        }
    }

    fn spelled_len(&self) -> Option<usize> {
        match self {
            K2vValue::Deleted => Some(1),
            K2vValue::Value(bytes) => bytes.get().spelled_len()?.checked_add(1),
        }
    }

    fn put(&self, out: &mut Bytes) -> Result<(), Memory> {
        match self {
            K2vValue::Deleted => out.push(0),
            K2vValue::Value(bytes) => {
                out.push(1)?;
                bytes.get().put(out)
            }
        }
    }

    #[tactic(auto, unfolding(crate::specs::Reading::value_at, row_codec::specs::Reading::made_at))]
    fn take(alloc: Global, bytes: &[u8]) -> Result<(K2vValue, &[u8]), Fault> {
        match bytes {
            [0, rest @ ..] => Ok((K2vValue::Deleted, rest)),
            [1, rest @ ..] => {
                let (value, rest) = Bytes::take(alloc, rest)?;
                Ok((K2vValue::Value(Shared::new(alloc, value)?), rest))
            }
            _ => Err(Fault::NotARow),
        }
    }
}

impl Field for Writes {
    ghost in_range = { writes_in_range };

    ghost is_short = { are_short_writes };

    ghost spelled = { writes };

    ghost read = { writes_at };

    ghost reads = { writes_reads };

    fn is_short(&self) -> bool {
        self.values.is_short()
    }

    fn spelled_len(&self) -> Option<usize> {
        self.discard
            .0
            .spelled_len()?
            .checked_add(self.values.spelled_len()?)
    }

    fn put(&self, out: &mut Bytes) -> Result<(), Memory> {
        self.discard.0.put(out)?;
        self.values.put(out)
    }

    #[tactic(auto, unfolding(crate::specs::Reading::writes_at, row_codec::specs::Reading::tested_at, row_codec::specs::Reading::both_at))]
    fn take(alloc: Global, bytes: &[u8]) -> Result<(Writes, &[u8]), Fault> {
        let (discard, rest) = u64::take(alloc, bytes)?;
        let (values, rest) = Map::take(alloc, rest)?;
        match Writes::with_values(discard, values) {
            Some(writes) => Ok((writes, rest)),
            None => Err(Fault::NotARow),
        }
    }
}

// The keys and the writes of a row, which stand behind its first byte.
#[tactic(auto, unfolding(crate::specs::Reading::rest_at, row_codec::specs::Reading::tested_at, row_codec::specs::Reading::both_at))]
fn take_rest(alloc: Global, bytes: &[u8]) -> Result<(K2vRow, &[u8]), Fault>
    ensures { Gives (λ x. (x.0, x.1.now)) result (rest_at bytes.now) }
{
    let (bucket, rest) = Hash32::take(alloc, bytes)?;
    let (pk, rest) = Bytes::take(alloc, rest)?;
    let (sk, rest) = Bytes::take(alloc, rest)?;
    let (entries, rest) = Map::take(alloc, rest)?;
    match K2vRow::with_entries(bucket, pk, sk, entries) {
        Some(row) => Ok((row, rest)),
        None => Err(Fault::NotARow),
    }
}

impl Field for K2vRow {
    ghost in_range = { in_range };

    ghost is_short = { has_bytes };

    ghost spelled = { spelled };

    ghost read = { row_at };

    ghost reads = { row_reads };

    fn is_short(&self) -> bool {
        self.pk.is_short() && self.sk.is_short() && self.entries.is_short()
    }

    fn spelled_len(&self) -> Option<usize> {
        let keys = self.pk.spelled_len()?.checked_add(self.sk.spelled_len()?)?;
        let names = self.bucket.spelled_len()?.checked_add(keys)?;
        let rest = names.checked_add(self.entries.spelled_len()?)?;
        rest.checked_add(1)
    }

    fn put(&self, out: &mut Bytes) -> Result<(), Memory> {
        out.push(4)?;
        self.bucket.put(out)?;
        self.pk.put(out)?;
        self.sk.put(out)?;
        self.entries.put(out)
    }

    #[tactic(auto, unfolding(crate::specs::Reading::row_at))]
    fn take(alloc: Global, bytes: &[u8]) -> Result<(K2vRow, &[u8]), Fault> {
        match bytes {
            [4, rest @ ..] => take_rest(alloc, rest),
            _ => Err(Fault::NotARow),
        }
    }
}
