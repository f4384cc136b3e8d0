//! A window of the rows of one table.
ghost use Rattle.std.specs.Prelude.{◌≡◌, ◌&&◌, filter, IfOk, ℕ};
ghost use Rattle.std.specs.Global.{Vec};
ghost use Rattle.std.specs.Ordering.{nat_cmp, is_le, is_lt};
ghost use Rattle.std.specs.Cmp.Lexicographic.{slice_cmp};
ghost use Rattle.std.specs.BTreeMap.Range.{is_from_start};
ghost use Rattle.crdt_core.specs.Outcomes.{OnlyWant};
ghost use Rattle.table_store.specs.Shelf.{shelf_rows, begins, is_after, leading, window, vec_cmp};

use crate::shelf::{Placed, Shelf};
use crdt_core::{Crdt, Memory};
use std::alloc::Global;
use std::collections::btree_map::Range;
use std::ops::Bound;

/// The first `limit` rows whose key begins with the prefix and is greater than `after`, and whether there are more.
pub fn rows_past<R: Crdt>(
    alloc: Global,
    shelf: &Shelf<R>,
    prefix: &[u8],
    after: &[u8],
    limit: usize,
) -> Result<(Vec<R>, bool), Memory>
    ensures is { IfOk result (λ found. (found.0.items, found.1) ≡ window limit
        (shelf_rows (filter (is_after prefix.now after.now) shelf.now.rows.entries))) }
    ensures want { OnlyWant result }
{
    let start = start_of(alloc, prefix, after)?;
    first_rows(
        alloc,
        shelf.rows.range((start, Bound::Unbounded)),
        prefix,
        limit,
    )
}

// Where keys begin that are greater than `after` and may have the prefix.
fn start_of(alloc: Global, prefix: &[u8], after: &[u8]) -> Result<Bound<Vec<u8>>, Memory>
    ensures is { IfOk result (λ start. (key : Vec ℕ) →
        is_from_start vec_cmp start key ≡ (is_le (slice_cmp nat_cmp prefix.now key.items) && is_lt
        (slice_cmp nat_cmp after.now key.items))) }
    ensures want { OnlyWant result }
{
    if after.cmp(&prefix).is_lt() {
        Ok(Bound::Included(Vec::from_slice(alloc, prefix)?))
    } else {
        Ok(Bound::Excluded(Vec::from_slice(alloc, after)?))
    }
}

// The first rows of these, up to the first whose key lacks the prefix.
fn first_rows<R: Crdt>(
    alloc: Global,
    entries: Range<'_, Vec<u8>, Placed<R>>,
    prefix: &[u8],
    limit: usize,
) -> Result<(Vec<R>, bool), Memory>
    ensures is { IfOk result (λ found. (found.0.items, found.1) ≡ window limit
        (shelf_rows (leading (begins prefix.now) entries.entry))) }
    ensures want { OnlyWant result }
{
    let mut rows = Vec::new(alloc);
    for (key, placed) in entries {
        if !key.as_slice().starts_with(prefix) {
            return Ok((rows, false));
        }
        if rows.len() == limit {
            return Ok((rows, true));
        }
        rows.push(placed.row.copy()?)?;
    }
    Ok((rows, false))
}
