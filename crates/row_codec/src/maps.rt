//! Flags, values that may be deleted, and maps.
ghost use Rattle.std.specs.Prelude.{◌≡◌, ◌&&◌, ◌++◌, true, IfErr};
ghost use Rattle.std.specs.List.{list_all};
ghost use Rattle.crdt_core.specs.Map.{map_entries};
ghost use Rattle.row_codec.specs.declared.fault.Fault.TheVariants as faults;
ghost use Rattle.row_codec.specs.Gives.{Gives};
ghost use Rattle.row_codec.specs.Range.{are_short, unless_deleted};
ghost use Rattle.row_codec.specs.Rows.{flag_at, deletable_at, map_at};
ghost use Rattle.row_codec.specs.RowLaws.{flag_reads, deletable_reads, map_reads};
ghost use Rattle.row_codec.specs.Spelling.{counted, deletable, flag};

use crate::fault::Fault;
use crate::field::Field;
use crate::lists::{are_short, items_len, put_items};
use crdt_core::{Bool, Bytes, Crdt, Deletable, List, Map, Memory, Value};
use std::alloc::Global;

impl Field for Bool {
    ghost in_range = { λ b. true };

    ghost is_short = { λ b. true };

    ghost spelled = { flag };

    ghost read = { flag_at };

    ghost reads = { flag_reads };

    fn is_short(&self) -> bool {
        true
    }

    fn spelled_len(&self) -> Option<usize> {
        Some(1)
    }

    fn put(&self, out: &mut Bytes) -> Result<(), Memory> {
        if self.0 { out.push(1) } else { out.push(0) }
    }

    /// Takes no memory.
    #[tactic(auto, unfolding(crate::specs::Rows::flag_at))]
    fn take(_alloc: Global, bytes: &[u8]) -> Result<(Bool, &[u8]), Fault>
        ensures gives { Gives (λ x. (x.0, x.1.now)) result (flag_at bytes.now) }
        ensures no_memory { IfErr result (λ e. e ≡ faults.NotARow) }
    {
        match bytes {
            [0, rest @ ..] => Ok((Bool(false), rest)),
            [1, rest @ ..] => Ok((Bool(true), rest)),
            _ => Err(Fault::NotARow),
        }
    }
}

impl<V: Crdt + Field> Field for Deletable<V> {
    ghost in_range = { unless_deleted V.in_range };

    ghost is_short = { unless_deleted V.is_short };

    ghost spelled = { deletable V.spelled };

    ghost read = { deletable_at V.read };

    ghost reads = { deletable_reads V.reads };

    fn is_short(&self) -> bool {
        match self {
            Deletable::Present(value) => value.is_short(),
            Deletable::Deleted => true,
        }
    }

    fn spelled_len(&self) -> Option<usize> {
        match self {
            Deletable::Present(value) => value.spelled_len()?.checked_add(1),
            Deletable::Deleted => Some(1),
        }
    }

    fn put(&self, out: &mut Bytes) -> Result<(), Memory> {
        match self {
            Deletable::Present(value) => {
                out.push(0)?;
                value.put(out)
            }
            Deletable::Deleted => out.push(1),
        }
    }

    #[tactic(auto, unfolding(crate::specs::Rows::deletable_at, crate::specs::Reading::made_at))]
    fn take(alloc: Global, bytes: &[u8]) -> Result<(Deletable<V>, &[u8]), Fault> {
        match bytes {
            [0, rest @ ..] => {
                let (value, rest) = V::take(alloc, rest)?;
                Ok((Deletable::Present(value), rest))
            }
            [1, rest @ ..] => Ok((Deletable::Deleted, rest)),
            _ => Err(Fault::NotARow),
        }
    }
}

impl<K: Value + Field, V: Crdt + Field> Field for Map<K, V> {
    ghost in_range = { λ m. list_all (λ e. K.in_range e.0 && V.in_range e.1) (map_entries m) };

    ghost is_short = { λ m. are_short (λ e. K.is_short e.0 && V.is_short e.1) (map_entries m) };

    ghost spelled = { λ m. counted (λ e. K.spelled e.0 ++ V.spelled e.1) (map_entries m) };

    ghost read = { map_at K.read V.read };

    ghost reads = { map_reads K.reads V.reads };

    fn is_short(&self) -> bool {
        are_short(self.as_slice())
    }

    fn spelled_len(&self) -> Option<usize> {
        items_len(self.as_slice())
    }

    fn put(&self, out: &mut Bytes) -> Result<(), Memory> {
        put_items(self.as_slice(), out)
    }

    #[tactic(auto, unfolding(crate::specs::Rows::map_at, crate::specs::Reading::tested_at))]
    fn take(alloc: Global, bytes: &[u8]) -> Result<(Map<K, V>, &[u8]), Fault> {
        let (entries, rest) = List::<(K, V)>::take(alloc, bytes)?;
        match Map::from_entries(entries) {
            Some(map) => Ok((map, rest)),
            None => Err(Fault::NotARow),
        }
    }
}
