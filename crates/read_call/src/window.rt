//! The window of two answers to a range phase.
ghost use Rattle.std.specs.Prelude.{◌≡◌, ◌<◌, ◌≤◌, ℕ, Option, List, [], ◌∷◌, ◌++◌, drop, length, option_map, IsTrue, IfOk, OnOk};
ghost use Rattle.crdt_core.specs.Outcomes.{OnlyWant};
ghost use Rattle.crdt_core.specs.Entries.{merged};
ghost use Rattle.quorum_model.specs.Window.{window, key_cmp, keyed, shown_to, nearer, is_within, rows_within, after_position};
ghost use Rattle.table_schema.specs.Words.{Words};
ghost use Rattle.read_call.specs.Stands.{shown};
ghost use Rattle.read_call.specs.Walk.{from_next};

use crdt_core::{Bytes, Crdt, Memory};
use quorum_model::RangeAnswer;
use std::alloc::Global;
use std::cmp::Ordering;
use table_schema::Schema;

/// The rows of both answers merged by key, up to the end, and the end: the least last key of those that have more,
/// without the 32 bytes of the position.
pub fn window<S: Schema>(
    alloc: Global,
    first: &RangeAnswer<S::Row>,
    second: RangeAnswer<S::Row>,
) -> Result<(Vec<S::Row>, Option<Bytes>), Memory>
    ensures is { IfOk result (λ given. shown given ≡ window S.Row.join S.words
        (first.now, second)) }
    ensures want { OnlyWant result }
{
    let end = nearer(shown_to::<S>(alloc, first)?, shown_to::<S>(alloc, &second)?);
    let rows = both_rows::<S>(alloc, first.rows.as_slice(), second.rows.into_vec(), &end)?;
    let end = after_position(alloc, end)?;
    Ok((rows, end))
}

fn shown_to<S: Schema>(alloc: Global, answer: &RangeAnswer<S::Row>) -> Result<Option<Bytes>, Memory>
    ensures is { IfOk result (λ key. key ≡ shown_to S.words answer.now) }
    ensures want { OnlyWant result }
{
    if !answer.more {
        return Ok(None);
    }
    match answer.rows.as_slice().last() {
        Some(row) => Ok(Some(S::key(alloc, row)?)),
        None => Ok(None),
    }
}

// The lesser of two ends, where none is without end.
fn nearer(first: Option<Bytes>, second: Option<Bytes>) -> Option<Bytes>
    ensures { result ≡ nearer first second }
{
    match (first, second) {
        (None, second) => second,
        (Some(first), None) => Some(first),
        (Some(first), Some(second)) => {
            if second.cmp(&first).is_lt() {
                Some(second)
            } else {
                Some(first)
            }
        }
    }
}

fn after_position(alloc: Global, end: Option<Bytes>) -> Result<Option<Bytes>, Memory>
    ensures is { IfOk result (λ key. key ≡ option_map after_position end) }
    ensures want { OnlyWant result }
{
    let Some(key) = end else {
        return Ok(None);
    };
    let bytes = key.as_slice();
    let start = bytes.len().min(32);
    Ok(Some(Bytes::from_slice(alloc, &bytes[start..])?))
}

fn is_within(end: &Option<Bytes>, key: &Bytes) -> bool
    ensures { result ≡ is_within end.now key.now }
{
    match end {
        None => true,
        Some(end) => !end.cmp(key).is_lt(),
    }
}

// One walk over both. The second answer's rows are taken from the end, so they are put in reverse first.
fn both_rows<S: Schema>(
    alloc: Global,
    first: &[S::Row],
    second: Vec<S::Row>,
    end: &Option<Bytes>,
) -> Result<Vec<S::Row>, Memory>
    ensures are { IfOk result
        (λ rows. rows.items ≡ rows_within end.now
        (merged key_cmp S.Row.join (keyed S.words first.now) (keyed S.words second.items))) }
    ensures want { OnlyWant result }
{
    let mut waiting = second;
    waiting.reverse();
    let mut rows = Vec::new(alloc);
    let mut taken = 0;
    while let Some(row) = waiting.pop() {
        let key = S::key(alloc, &row)?;
        let passed = push_below::<S>(alloc, &mut rows, first, taken, &key, end)?;
        let is_kept = is_within(end, &key);
        taken = push_next(&mut rows, first, passed, row, is_kept)?;
    }
    push_rest::<S>(alloc, &mut rows, &first[taken..], end)?;
    Ok(rows)
}

// How many rows a walk has passed, and whether the next has the key that it looked for.
#[derive(Clone, Copy)]
struct Passed {
    count: usize,
    is_met: bool,
}

// Adds copies of the rows from a place on whose keys are below a key.
fn push_below<S: Schema>(
    alloc: Global,
    rows: &mut Vec<S::Row>,
    first: &[S::Row],
    start: usize,
    key: &Bytes,
    end: &Option<Bytes>,
) -> Result<Passed, Memory>
    requires { start ≤ length first.now }
    ensures count { IfOk result (λ p. p.count ≤ length first.now) }
    ensures met { IfOk result (λ p. IsTrue p.is_met → p.count < length first.now) }
    ensures below { (y : S.Row) (ys : List (List ℕ × S.Row)) → IfOk result (λ p.
        rows.new.items ++ rows_within end.now (from_next S.Row.join S.words p.is_met (drop p.count first.now) key.now y ys)
        ≡ rows.old.items ++ rows_within end.now (merged key_cmp S.Row.join (keyed S.words (drop start first.now)) ((key.now, y) ∷ ys))) }
    ensures want { OnlyWant result }
{
    let mut count = start;
    while count < first.len() {
        let row = &first[count];
        let own = S::key(alloc, row)?;
        match own.cmp(key) {
            Ordering::Less => push_copy::<S>(rows, end, &own, row)?,
            Ordering::Equal => return Ok(Passed {
                count,
                is_met: true,
            }),
            Ordering::Greater => return Ok(Passed {
                count,
                is_met: false,
            }),
        }
        count += 1;
    }
    Ok(Passed {
        count,
        is_met: false,
    })
}

// Adds a row of the second answer, merged with that of the first answer that has its key: how many of the first are
// taken then. A row past the end is left out.
fn push_next<R: Crdt>(
    rows: &mut Vec<R>,
    first: &[R],
    passed: Passed,
    row: R,
    is_kept: bool,
) -> Result<usize, Memory>
    requires count { passed.count ≤ length first.now }
    requires met { IsTrue passed.is_met → passed.count < length first.now }
    ensures taken { IfOk result (λ taken. taken ≤ length first.now) }
    ensures next { (s : Words R) (end : Option (List ℕ)) (key : List ℕ) (ys : List (List ℕ × R)) →
        is_kept ≡ is_within end key → IfOk result (λ taken.
        rows.new.items ++ rows_within end (merged key_cmp R.join (keyed s (drop taken first.now)) ys)
        ≡ rows.old.items ++ rows_within end (from_next R.join s passed.is_met (drop passed.count first.now) key row ys)) }
    ensures want { OnlyWant result }
{
    match (passed.is_met, is_kept) {
        (false, false) => Ok(passed.count),
        (false, true) => {
            rows.push(row)?;
            Ok(passed.count)
        }
        (true, false) => Ok(passed.count + 1),
        (true, true) => {
            let mut merged = row;
            merged.merge(&first[passed.count])?;
            rows.push(merged)?;
            Ok(passed.count + 1)
        }
    }
}

// Adds copies of the rows.
fn push_rest<S: Schema>(
    alloc: Global,
    rows: &mut Vec<S::Row>,
    rest: &[S::Row],
    end: &Option<Bytes>,
) -> Result<(), Memory>
    ensures rest { OnOk result (rows.new.items ≡ rows.old.items ++ rows_within end.now
        (keyed S.words rest.now)) }
    ensures want { OnlyWant result }
{
    for row in rest {
        let key = S::key(alloc, row)?;
        push_copy::<S>(rows, end, &key, row)?;
    }
    Ok(())
}

// Adds a copy of a row, where its key is within the end.
fn push_copy<S: Schema>(
    rows: &mut Vec<S::Row>,
    end: &Option<Bytes>,
    key: &Bytes,
    row: &S::Row,
) -> Result<(), Memory>
    ensures copied { OnOk result (rows.new.items ≡ rows.old.items ++ rows_within end.now
        ((key.now, row.now) ∷ [])) }
    ensures want { OnlyWant result }
{
    if is_within(end, key) {
        rows.push(row.copy()?)?;
    }
    Ok(())
}
