//! The old sets of a text: its tables `old`.
ghost use Rattle.std.specs.Prelude.{◌≡◌, ◌≤◌, ◌+◌, ◌++◌, [], Some, Ok, IsTrue, replicate, option_and_then, IfOk, IfErr, OnOk, IfSome, length};
ghost use Rattle.std.specs.List.{list_all};
ghost use Rattle.crdt_core.specs.Outcomes.{OnlyWant};
ghost use Rattle.toml.specs.Data.{as_array, as_table};
ghost use Rattle.toml.specs.View.{view, table_view, items_view};
ghost use Rattle.layout_roles.specs.Zones.{set_ascends};
ghost use Rattle.layout_text.specs.declared.config.FieldName.TheVariants as field;
ghost use Rattle.layout_text.specs.Settings.{needed, faulted, IsFaultOf};
ghost use Rattle.layout_text.specs.Old.{set_of, node_of, nodes_of, nodes_at, number_at, run_from, sets_of, old_in, said_old};

use crate::config::{ConfigFault, FieldName};
use crate::values;
use crdt_core::{List, Memory};
use layout_roles::{Assignment, in_order};
use std::alloc::Global;
use toml::{Table, Value};

// How many partitions there are.
const PARTITIONS: usize = 256;

/// A run of partitions with one set of nodes.
#[derive(Clone, Copy, Debug)]
pub struct OldRun {
    pub count: usize,
    /// Three nodes, ascending.
    pub set: [u8; 3],
}

// A node, which is a number from 1 to 64.
fn node(value: &Value) -> Option<u8>
    ensures { result ≡ node_of (view value.now) }
{
    match values::number_in(value, 1, 64) {
        Some(node) => Some(node as u8),
        None => None,
    }
}

// The set of three nodes, where they are different.
fn set(first: u8, second: u8, third: u8) -> Option<[u8; 3]>
    ensures set { result ≡ set_of (Some first) (Some second) (Some third) }
    ensures ascends { IfSome result (λ set. IsTrue (set_ascends set)) }
{
    if first == second || first == third || second == third {
        return None;
    }
    Some(in_order(first, second, third))
}

// Three different nodes.
fn nodes(values: &[Value]) -> Option<[u8; 3]>
    ensures nodes { result ≡ nodes_of (items_view values.now) }
    ensures ascends { IfSome result (λ set. IsTrue (set_ascends set)) }
{
    let [first, second, third] = values else {
        return None
    };
    set(node(first)?, node(second)?, node(third)?)
}

// The nodes of a table.
fn nodes_at(table: &Table) -> Option<[u8; 3]>
    ensures nodes { result ≡ nodes_at (table_view table.now) }
    ensures ascends { IfSome result (λ set. IsTrue (set_ascends set)) }
{
    match values::array_at(table, "nodes") {
        Some(values) => nodes(values.as_slice()),
        None => None,
    }
}

// The number at a key, where it is in a range.
fn number_at(table: &Table, key: &str, low: u64, high: u64) -> Option<u64>
    ensures number { result ≡ number_at key.now low high (table_view table.now) }
    ensures range { IfSome result (λ n. (low ≤ n) × (n ≤ high)) }
{
    match values::value_at(table, key) {
        Some(value) => values::number_in(value, low, high),
        None => None,
    }
}

// The run of a table that begins with the next partition.
fn run_from(next: usize, table: &Table) -> Option<OldRun>
    ensures run { result ≡ run_from next (table_view table.now) }
    ensures within { IfSome result (λ run. next + run.count ≤ 256) }
    ensures ascends { IfSome result (λ run. IsTrue (set_ascends run.set)) }
{
    let first = number_at(table, "first", next as u64, next as u64)?;
    let last = number_at(table, "last", first, 255)?;
    let set = nodes_at(table)?;
    Some(OldRun {
        count: (last + 1 - first) as usize,
        set,
    })
}

// The run of a value that is a table.
fn run_of(next: usize, value: &Value) -> Option<OldRun>
    ensures run { result ≡ option_and_then (run_from next) (as_table (view value.now)) }
    ensures within { IfSome result (λ run. next + run.count ≤ 256) }
    ensures ascends { IfSome result (λ run. IsTrue (set_ascends run.set)) }
{
    match value.as_table() {
        Some(table) => run_from(next, table),
        None => None,
    }
}

// Adds the sets of a run.
fn add_run(sets: &mut List<[u8; 3]>, run: OldRun) -> Result<(), Memory>
    ensures ok { OnOk result (sets.new ≡ sets.old ++ replicate run.count run.set) }
    ensures want { OnlyWant result }
{
    for _ in 0..run.count {
        sets.push(run.set)?;
    }
    Ok(())
}

// The sets of the tables, where they cover all partitions in order without gap.
fn sets(alloc: Global, values: &[Value]) -> Result<Option<List<[u8; 3]>>, Memory>
    ensures sets { IfOk result (λ sets. sets ≡ sets_of [] (items_view values.now)) }
    ensures ascending { IfOk result
        (λ sets. IfSome sets (λ sets. IsTrue (list_all set_ascends sets))) }
    ensures whole { IfOk result (λ sets. IfSome sets (λ sets. length sets ≡ 256)) }
    ensures want { OnlyWant result }
{
    let mut sets = List::new(alloc);
    for value in values {
        match run_of(sets.len(), value) {
            Some(run) => add_run(&mut sets, run)?,
            None => return Ok(None),
        }
    }
    if sets.len() == PARTITIONS {
        Ok(Some(sets))
    } else {
        Ok(None)
    }
}

// The old sets of a document.
fn old(alloc: Global, root: &Table) -> Result<Assignment, ConfigFault>
    ensures sets { IfOk result
        (λ old. faulted (needed field.Old (old_in (table_view root.now))) ≡ Ok old.sets) }
    ensures fault { IfErr result
        (IsFaultOf (faulted (needed field.Old (old_in (table_view root.now))))) }
{
    let values = values::array_at(root, "old").ok_or(FieldName::Old)?;
    let sets = sets(alloc, values.as_slice())?.ok_or(FieldName::Old)?;
    Ok(Assignment { sets })
}

#[tactic(auto, unfolding(crate::specs::Old::said_old))]
/// The sets of an older layout that a text gives in TOML, as tables `old`: each has the `first` and the `last` of
/// some partitions and their `nodes`, three different numbers of 1 to 64, and they cover the partitions 0 to 255 in
/// order without gap. The nodes need no role.
pub fn read_old(alloc: Global, text: &str) -> Result<Assignment, ConfigFault>
    ensures sets { IfOk result (λ old. said_old text.now ≡ Ok old.sets) }
    ensures fault { IfErr result (IsFaultOf (said_old text.now)) }
{
    match toml::table_from_str(alloc, text) {
        Ok(root) => old(alloc, &root),
        Err(error) => {
            if error.is_memory() {
                Err(ConfigFault::Memory)
            } else {
                Err(ConfigFault::NotToml)
            }
        }
    }
}
