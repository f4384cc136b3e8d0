//! The join of many rows, and copies of rows.
ghost use Rattle.std.specs.Prelude.{◌≡◌, Some, IfOk, All};
ghost use Rattle.crdt_core.specs.Outcomes.{OnlyWant};
ghost use Rattle.crdt_core.specs.Order.{AtMost, option_join, join_of};

use crate::crdt::Crdt;
use crate::list::List;
use crate::memory::Memory;
use std::alloc::Global;

/// The join of all rows, or none where there are none.
pub fn join<R: Crdt>(rows: &[R]) -> Result<Option<R>, Memory>
    ensures joined { IfOk result (λ all. all ≡ join_of R.join rows.now) }
    ensures above { IfOk result
        (λ all. All (λ row. AtMost (option_join R.join) (Some row) all) rows.now) }
    ensures want { OnlyWant result }
{
    let mut all: Option<R> = None;
    for row in rows {
        all = join_one(all, row)?;
    }
    Ok(all)
}

// The rows so far, joined with one more.
fn join_one<R: Crdt>(all: Option<R>, row: &R) -> Result<Option<R>, Memory>
    ensures joined { IfOk result (λ more. more ≡ option_join R.join all (Some row.now)) }
    ensures want { OnlyWant result }
{
    match all {
        None => Ok(Some(row.copy()?)),
        Some(mut all) => {
            all.merge(row)?;
            Ok(Some(all))
        }
    }
}

/// A copy of the row, if there is one.
pub fn copy_row<R: Crdt>(row: &Option<R>) -> Result<Option<R>, Memory>
    ensures same { IfOk result (λ copied. copied ≡ row.now) }
    ensures want { OnlyWant result }
{
    match row {
        Some(row) => Ok(Some(row.copy()?)),
        None => Ok(None),
    }
}

/// Copies of all rows, in their order.
pub fn copy_rows<R: Crdt>(alloc: Global, rows: &[R]) -> Result<List<R>, Memory>
    ensures same { IfOk result (λ copies. copies ≡ rows.now) }
    ensures want { OnlyWant result }
{
    let mut copies = List::from_vec(Vec::with_capacity(alloc, rows.len())?);
    for row in rows {
        copies.push(row.copy()?)?;
    }
    Ok(copies)
}
