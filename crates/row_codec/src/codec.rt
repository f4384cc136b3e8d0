//! A row's bytes, and the row of bytes.
ghost use Rattle.std.specs.Prelude.{◌≡◌, ◌≤◌, ◌^◌, ◌≢◌, ◌⊎◌, ◌↔◌, ℕ, List, length, false, IsTrue, IfOk, IfErr, Some, None};
ghost use Rattle.crdt_core.specs.Outcomes.{WantOr};
ghost use Rattle.crdt_core.specs.declared.memory.Memory.TheVariants.{Full, Want};
ghost use Rattle.crdt_rows.specs.declared.any_row.AnyRow.{AnyRow};
ghost use Rattle.table_schema.specs.declared.schema.RowFault.TheVariants as faults;
ghost use Rattle.row_codec.specs.Gives.{Gives};
ghost use Rattle.row_codec.specs.Range.{in_range, has_bytes};
ghost use Rattle.row_codec.specs.Rows.{read, spelling};
ghost use Rattle.row_codec.specs.Spelling.{spelled};

use crate::fault::Fault;
use crate::field::Field;
use crdt_core::{Bytes, Memory};
use crdt_rows::AnyRow;
use std::alloc::Global;
use table_schema::RowFault;

/// The bytes of a row. `Full` where one of its lengths or counts is 2^32 or more.
pub fn encode(alloc: Global, row: &AnyRow) -> Result<Bytes, Memory>
    ensures spelled { IfOk result (λ bytes. bytes ≡ spelled row.now) }
    ensures short { IfOk result (λ bytes. IsTrue (has_bytes row.now)) }
    ensures in_range { IfOk result (λ bytes. IsTrue (in_range row.now)) }
    ensures causes { WantOr result (has_bytes row.now ≡ false) }
    ensures full { has_bytes row.now ≡ false → result ≡ Err Full }
{
    let len = length(row)?;
    let mut out = Bytes::from_vec(Vec::with_capacity(alloc, len)?);
    row.put(&mut out)?;
    Ok(out)
}

/// How many bytes a row has; none is written. `Full` where one of its lengths or counts is 2^32 or more, and `Want`
/// where no memory has room for so many bytes.
pub fn length(row: &AnyRow) -> Result<usize, Memory>
    ensures is { IfOk result (λ n. n ≡ length (spelled row.now)) }
    ensures want { IfErr result (λ e. e ≡ Want → 2 ^ 64 ≤ length (spelled row.now)) }
    ensures short { IfOk result (λ n. IsTrue (has_bytes row.now)) }
    ensures in_range { IfOk result (λ n. IsTrue (in_range row.now)) }
    ensures causes { WantOr result (has_bytes row.now ≡ false) }
    ensures full { has_bytes row.now ≡ false → result ≡ Err Full }
{
    if !row.is_short() {
        return Err(Memory::Full);
    }
    match row.spelled_len() {
        Some(len) => Ok(len),
        None => Err(Memory::Want),
    }
}

// A row, and nothing after it.
fn whole(alloc: Global, bytes: &[u8]) -> Result<AnyRow, Fault>
    ensures { Gives (λ row. row) result (read bytes.now) }
{
    let (row, rest) = AnyRow::take(alloc, bytes)?;
    if !rest.is_empty() {
        return Err(Fault::NotARow);
    }
    Ok(row)
}

/// The row that has these bytes.
pub fn decode(alloc: Global, bytes: &[u8]) -> Result<AnyRow, RowFault>
    ensures spelled { IfOk result (λ row. bytes.now ≡ spelled row) }
    ensures short { IfOk result (λ row. IsTrue (has_bytes row)) }
    ensures in_range { IfOk result (λ row. IsTrue (in_range row)) }
    ensures read { IfOk result (λ row. read bytes.now ≡ Some row) }
    ensures causes { IfErr result (λ e. (e ≡ faults.Memory) ⊎
        ((e ≡ faults.NotARow) × (read bytes.now ≡ None))) }
{
    match whole(alloc, bytes) {
        Ok(row) => Ok(row),
        Err(Fault::NotARow) => Err(RowFault::NotARow),
        Err(Fault::Memory) => Err(RowFault::Memory),
    }
}

/// What is read from bytes is the row that has them, and none is read where no row has them. So each row has one
/// string of bytes, and each string is that of one row at most.
pub fn rows_are_read_back()
    ensures back { (row : AnyRow) (bytes : List ℕ) → (read bytes ≡ Some row) ↔
        (spelling row ≡ Some bytes) }
    ensures none { (row : AnyRow) (bytes : List ℕ) → read bytes ≡ None →
        IsTrue (in_range row) → IsTrue (has_bytes row) → bytes ≢ spelled row }
{}
