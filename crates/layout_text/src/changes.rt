//! Changes of the layout while it is served.
ghost use Rattle.std.specs.Prelude.{◌≡◌, [], Some, Ok, IfOk, IfErr, IfSome, is_some, List};
ghost use Rattle.toml.specs.Data.{Members};
ghost use Rattle.toml.specs.View.{view, table_view, array_view, items_view};
ghost use Rattle.layout_text.specs.Values.{tables_of};
ghost use Rattle.layout_text.specs.Settings.{faulted, IsFaultOf};
ghost use Rattle.layout_text.specs.Changes.{after_in, change_in, changes_of, changes_at, tables_in, changes_in, changes_said, coming_of, comings_of};

use crate::change::Change;
use crate::config::{ConfigFault, FieldName};
use crate::read::{are_tables, roles};
use crate::values;
use crdt_core::List;
use std::alloc::Global;
use toml::value::Array;
use toml::{Table, Value};

/// How many changes there may be.
const CHANGE_LIMIT: usize = 99;

/// After how many requests a change comes at most.
const AFTER_LIMIT: u64 = 1_000_000;

// After how many requests a change comes, where the one before it comes after so many.
fn after(before: u32, table: &Table) -> Option<u32>
    ensures { result ≡ after_in before (table_view table.now) }
{
    let value = values::value_at(table, "after")?;
    let after = values::number_in(value, u64::from(before) + 1, AFTER_LIMIT)?;
    Some(after as u32)
}

#[tactic(auto, unfolding(crate::specs::Changes::change_in))]
// The change of a table, where the one before it comes after so many requests.
fn change_of(alloc: Global, greatest: u8, before: u32, table: &Table) -> Result<Change, ConfigFault>
    ensures change { IfOk result
        (λ change. faulted (change_in greatest before (table_view table.now)) ≡ Ok
        (coming_of change)) }
    ensures fault { IfErr result
        (IsFaultOf (faulted (change_in greatest before (table_view table.now)))) }
{
    let after = after(before, table).ok_or(FieldName::After)?;
    let redundancy = values::redundancy(table).ok_or(FieldName::Redundancy)?;
    let roles = roles(alloc, greatest, table)?;
    Ok(Change {
        after,
        redundancy,
        roles,
    })
}

// The changes of values that are tables.
fn changes_in_tables(
    alloc: Global,
    greatest: u8,
    values: &[Value],
) -> Result<List<Change>, ConfigFault>
    ensures changes { IfOk result (λ changes. (tables : List Members) →
        tables_of (items_view values.now) ≡ Some tables →
        faulted (changes_of greatest 0 [] tables) ≡ Ok (comings_of changes)) }
    ensures fault { IfErr result (λ fault. (tables : List Members) →
        tables_of (items_view values.now) ≡ Some tables →
        IsFaultOf (faulted (changes_of greatest 0 [] tables)) fault) }
{
    let mut changes: List<Change> = List::new(alloc);
    let mut before = 0;
    for value in values {
        let table = value.as_table().ok_or(FieldName::Change)?;
        let change = change_of(alloc, greatest, before, table)?;
        before = change.after;
        changes.push(change)?;
    }
    Ok(changes)
}

#[tactic(auto, using(crate::proofs::ChangeTables::few_tables, crate::proofs::ChangeTables::few_are_all))]
// The values of the changes, where each is a table and they aren't too many.
fn change_values(value: &Value) -> Option<&Array>
    ensures some { is_some result ≡ is_some (tables_in (view value.now)) }
    ensures same { IfSome result
        (λ values. tables_in (view value.now) ≡ tables_of (array_view values.now)) }
{
    let values = value.as_array()?;
    if values.len() <= CHANGE_LIMIT && are_tables(values.as_slice()) {
        Some(values)
    } else {
        None
    }
}

#[tactic(auto, unfolding(crate::specs::Changes::changes_at))]
// The changes of a value.
fn changes_at(alloc: Global, greatest: u8, value: &Value) -> Result<List<Change>, ConfigFault>
    ensures changes { IfOk result
        (λ changes. faulted (changes_at greatest (view value.now)) ≡ Ok (comings_of changes)) }
    ensures fault { IfErr result (IsFaultOf (faulted (changes_at greatest (view value.now)))) }
{
    let values = change_values(value).ok_or(FieldName::Change)?;
    changes_in_tables(alloc, greatest, values.as_slice())
}

// The changes of a document's table.
fn changes(alloc: Global, greatest: u8, root: &Table) -> Result<List<Change>, ConfigFault>
    ensures changes { IfOk result
        (λ changes. faulted (changes_in greatest (table_view root.now)) ≡ Ok (comings_of changes)) }
    ensures fault { IfErr result (IsFaultOf (faulted (changes_in greatest (table_view root.now)))) }
{
    match values::value_at(root, "change") {
        Some(value) => changes_at(alloc, greatest, value),
        None => Ok(List::new(alloc)),
    }
}

#[tactic(auto, unfolding(crate::specs::Changes::changes_said))]
/// The changes of a configuration, in order; or its first bad field: `change` where there is no array of 99 tables at
/// most, and then of each table its number of requests, its redundancy and its nodes.
pub fn read_changes(
    alloc: Global,
    text: &str,
    greatest_node: u8,
) -> Result<List<Change>, ConfigFault>
    ensures changes { IfOk result
        (λ changes. changes_said greatest_node text.now ≡ Ok (comings_of changes)) }
    ensures fault { IfErr result (IsFaultOf (changes_said greatest_node text.now)) }
{
    match toml::table_from_str(alloc, text) {
        Ok(root) => changes(alloc, greatest_node, &root),
        Err(error) => {
            if error.is_memory() {
                Err(ConfigFault::Memory)
            } else {
                Err(ConfigFault::NotToml)
            }
        }
    }
}
