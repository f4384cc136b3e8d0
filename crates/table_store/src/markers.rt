//! The keys of rows with nothing but a delete marker, by the markers' timestamps.
ghost use Rattle.std.specs.Prelude.{◌≡◌, ◌&&◌, ◌==◌, ℕ, List, true, false, Some, OnOk, OnErr};
ghost use Rattle.crdt_core.specs.Outcomes.{OnlyWant};
ghost use Rattle.table_store.specs.Index.{has_key};
ghost use Rattle.table_store.specs.Shelf.{shelf_find};
ghost use Rattle.table_store.specs.Markers.{AddsWhere, AllMarked, AllStay, OthersStay, RestStays, is_by, is_marked, is_marked_at, marked_at, only_at};

use crate::index::add_to;
use crate::shelf::{Rows, Shelf, find};
use crdt_core::Memory;
use std::alloc::Global;
use std::collections::{BTreeMap, BTreeSet};
use std::ops::Bound;
use table_schema::Schema;

/// The keys at each timestamp. A key at which no row with such a marker stands does no harm.
pub type Markers = BTreeMap<u64, BTreeSet<Vec<u8>>>;

// Notes a key at a timestamp. Whether or not there is room, what was noted stays.
fn mark(alloc: Global, markers: &mut Markers, ts: u64, key: &[u8]) -> Result<(), Memory>
    ensures stay { AllStay markers.old markers.new }
    ensures marked { OnOk result (marked_at ts key.now markers.new ≡ true) }
    ensures want { OnlyWant result }
{
    if let Some(keys) = markers.get_mut(&ts) {
        add_to(alloc, keys, key)?;
        return Ok(());
    }
    let mut keys = BTreeSet::new(alloc);
    add_to(alloc, &mut keys, key)?;
    let _ = markers.insert(ts, keys)?;
    Ok(())
}

/// Takes back that a key was noted at a timestamp.
pub fn unmark(markers: &mut Markers, ts: u64, key: &[u8])
    ensures { RestStays ts key.now markers.old markers.new }
{
    unmark_at(markers, ts, key);
    drop_empty(markers, ts);
}

// The same, where the timestamp stays.
fn unmark_at(markers: &mut Markers, ts: u64, key: &[u8])
    ensures { RestStays ts key.now markers.old markers.new }
{
    if let Some(keys) = markers.get_mut(&ts) {
        let _ = keys.remove(key);
    }
}

// Forgets a timestamp without keys.
fn drop_empty(markers: &mut Markers, ts: u64)
    ensures { AllStay markers.old markers.new }
{
    if is_empty(markers, ts) {
        let _ = markers.remove(&ts);
    }
}

fn is_empty(markers: &Markers, ts: u64) -> bool
    ensures { result ≡ true → (key : List ℕ) → marked_at ts key markers.now ≡ false }
{
    match markers.get(&ts) {
        Some(keys) => keys.is_empty(),
        None => false,
    }
}

/// The row at a key had nothing but the delete marker `old`, and will have nothing but `new`. Where there is no room
/// what was noted stays.
pub fn change_marker(
    alloc: Global,
    markers: &mut Markers,
    key: &[u8],
    old: Option<(u64, u64)>,
    new: Option<(u64, u64)>,
) -> Result<(), Memory>
    ensures marked { OnOk result ((version : ℕ × ℕ) → new ≡ Some version →
        marked_at version.0 key.now markers.new ≡ true) }
    ensures others { OthersStay key.now markers.old markers.new }
    ensures stay { OnErr result (AllStay markers.old markers.new) }
    ensures want { OnlyWant result }
{
    mark_new(alloc, markers, key, new)?;
    unmark_old(markers, key, old, new);
    Ok(())
}

// The row at a key will have nothing but this delete marker.
fn mark_new(
    alloc: Global,
    markers: &mut Markers,
    key: &[u8],
    new: Option<(u64, u64)>,
) -> Result<(), Memory>
    ensures stay { AllStay markers.old markers.new }
    ensures marked { OnOk result ((version : ℕ × ℕ) → new ≡ Some version →
        marked_at version.0 key.now markers.new ≡ true) }
    ensures want { OnlyWant result }
{
    match new {
        Some(version) => mark(alloc, markers, version.0, key),
        None => Ok(()),
    }
}

// The row at a key had nothing but the delete marker `old`. What is noted for `new` stays.
fn unmark_old(markers: &mut Markers, key: &[u8], old: Option<(u64, u64)>, new: Option<(u64, u64)>)
    ensures others { OthersStay key.now markers.old markers.new }
    ensures kept { (version : ℕ × ℕ) → new ≡ Some version →
        marked_at version.0 key.now markers.old ≡ true → marked_at version.0 key.now markers.new ≡ true }
{
    if let Some(version) = old {
        if !is_at(new, version.0) {
            unmark(markers, version.0, key);
        }
    }
}

// There is a delete marker, and this is its timestamp.
fn is_at(marker: Option<(u64, u64)>, ts: u64) -> bool
    ensures { result ≡ false → (version : ℕ × ℕ) → marker ≡ Some version →
        (ts == version.0) ≡ false }
{
    match marker {
        Some(version) => ts == version.0,
        None => false,
    }
}

/// Adds the keys of the rows with nothing but a delete marker whose timestamp is at most `limit`.
pub fn add_marked<S: Schema>(
    alloc: Global,
    shelf: &Shelf<S::Row>,
    limit: u64,
    keys: &mut BTreeSet<Vec<u8>>,
) -> Result<(), Memory>
    requires marked { AllMarked S.words shelf.now.markers shelf.now.rows.entries }
    ensures adds { OnOk result
        (AddsWhere (is_marked_at S.words limit shelf.now.rows.entries) keys.old keys.new) }
    ensures want { OnlyWant result }
{
    let aged = (Bound::Unbounded, Bound::Included(limit));
    for (_, noted) in shelf.markers.range(aged) {
        add_noted::<S>(alloc, shelf, noted, limit, keys)?;
    }
    Ok(())
}

// The same of those among the keys that are noted at one timestamp.
fn add_noted<S: Schema>(
    alloc: Global,
    shelf: &Shelf<S::Row>,
    noted: &BTreeSet<Vec<u8>>,
    limit: u64,
    keys: &mut BTreeSet<Vec<u8>>,
) -> Result<(), Memory>
    ensures adds { OnOk result (AddsWhere
        (λ key. has_key key noted.now.keys &&
        is_marked_at S.words limit shelf.now.rows.entries key) keys.old keys.new) }
    ensures want { OnlyWant result }
{
    for key in noted {
        add_one::<S>(alloc, shelf, key.as_slice(), limit, keys)?;
    }
    Ok(())
}

// The same of one key.
fn add_one<S: Schema>(
    alloc: Global,
    shelf: &Shelf<S::Row>,
    key: &[u8],
    limit: u64,
    keys: &mut BTreeSet<Vec<u8>>,
) -> Result<(), Memory>
    ensures adds { OnOk result
        (AddsWhere
        (only_at key.now (is_marked_at S.words limit shelf.now.rows.entries)) keys.old keys.new) }
    ensures want { OnlyWant result }
{
    if !is_marked::<S>(shelf, key, limit) {
        return Ok(());
    }
    add_to(alloc, keys, key)
}

fn is_marked<S: Schema>(shelf: &Shelf<S::Row>, key: &[u8], limit: u64) -> bool
    ensures { result ≡ is_marked S.words limit (shelf_find key.now shelf.now.rows.entries) }
{
    match find(shelf, key) {
        Some(row) => is_by(S::marker(row), limit),
        None => false,
    }
}

fn is_by(marker: Option<(u64, u64)>, limit: u64) -> bool
    ensures { result ≡ is_by limit marker }
{
    match marker {
        Some(version) => version.0 <= limit,
        None => false,
    }
}
