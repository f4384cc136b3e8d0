//! The schema of rows of items.
ghost use Rattle.k2v_schema.specs.Laws.{schema_laws};
ghost use Rattle.k2v_schema.specs.Schema.{words};

use crate::codec::{decode, encode, length};
use crate::place;
use blake2_hash::Hash32;
use crdt_core::{Bytes, Memory};
use k2v_rows::K2vRow;
use std::alloc::Global;
use table_schema::{RowFault, Schema};

/// The rows of items, which are all of table 1.
#[derive(Clone, Copy, Debug, PartialEq, Eq)]
pub struct K2vSchema;

impl Schema for K2vSchema {
    type Row = K2vRow;

    ghost words = { words };

    ghost laws = { schema_laws };

    fn table(row: &K2vRow) -> u8 {
        place::is_placed(row);
        1
    }

    fn position(row: &K2vRow) -> Hash32 {
        place::is_placed(row);
        place::position(row)
    }

    fn key(alloc: Global, row: &K2vRow) -> Result<Bytes, Memory> {
        place::is_placed(row);
        place::key(alloc, row)
    }

    fn tombstone(_row: &K2vRow) -> bool {
        false
    }

    fn live_block(_row: &K2vRow) -> Option<Hash32> {
        None
    }

    fn marker(_row: &K2vRow) -> Option<(u64, u64)> {
        None
    }

    fn triggers(alloc: Global, _old: &K2vRow, _new: &K2vRow) -> Result<Vec<K2vRow>, Memory> {
        Ok(Vec::new(alloc))
    }

    fn row_bytes(alloc: Global, row: &K2vRow) -> Result<Bytes, Memory> {
        encode(alloc, row)
    }

    fn row_length(row: &K2vRow) -> Result<usize, Memory> {
        length(row)
    }

    fn row_from(alloc: Global, bytes: &[u8]) -> Result<K2vRow, RowFault> {
        decode(alloc, bytes)
    }
}
