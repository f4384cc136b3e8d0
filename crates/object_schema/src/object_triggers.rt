//! The rows that a change of an object row calls for.
ghost use Rattle.std.specs.Prelude.{◌≡◌, [], ◌∷◌, Some, map, IfOk, OnOk};
ghost use Rattle.crdt_core.specs.Outcomes.{OnlyWant};
ghost use Rattle.crdt_rows.specs.ObjectRow.{state_at};
ghost use Rattle.crdt_rows.specs.Version.{version_cmp};
ghost use Rattle.object_schema.specs.Sets.{keys_of};
ghost use Rattle.object_schema.specs.Triggers.{with_values, has_blocks, is_aborted, is_lost, is_newly_aborted, versions_that, given_up, deleted_version};

use crate::sets::add;
use crdt_core::{Bool, Deletable, Map, Max, Memory};
use crdt_rows::{AnyRow, Body, ObjectRow, State, Version, VersionRow};
use std::alloc::Global;

// A version in this state may have blocks.
fn has_blocks(state: &State) -> bool
    ensures { result ≡ has_blocks state.now }
{
    match state {
        State::Uploading | State::Aborted => true,
        State::Complete(Body::Blocks(_, _)) => true,
        State::Complete(_) => false,
    }
}

fn is_aborted(state: &State) -> bool
    ensures { result ≡ is_aborted (Some state.now) }
{
    matches!(state, State::Aborted)
}

// Whether the row holds the version as aborted.
fn holds_aborted(row: &ObjectRow, version: &Version) -> bool
    ensures { result ≡ is_aborted (state_at row.now version.now) }
{
    match row.versions.get(version) {
        Some(state) => is_aborted(&state.0),
        None => false,
    }
}

fn is_lost(new: &ObjectRow, entry: &(Version, Max<State>)) -> bool
    ensures { result ≡ is_lost new.now entry.now }
{
    has_blocks(&entry.1.0) && new.versions.get(&entry.0).is_none()
}

fn is_newly_aborted(old: &ObjectRow, entry: &(Version, Max<State>)) -> bool
    ensures { result ≡ is_newly_aborted old.now entry.now }
{
    is_aborted(&entry.1.0) && !holds_aborted(old, &entry.0)
}

fn add_if_lost(
    set: &mut Map<Version, Bool>,
    entry: &(Version, Max<State>),
    new: &ObjectRow,
) -> Result<(), Memory>
    ensures ok { OnOk result (keys_of set.new ≡ with_values version_cmp (keys_of set.old)
        (versions_that (is_lost new.now) (entry.now ∷ []))) }
    ensures want { OnlyWant result }
{
    if is_lost(new, entry) {
        return add(set, entry.0);
    }
    Ok(())
}

fn add_if_newly_aborted(
    set: &mut Map<Version, Bool>,
    entry: &(Version, Max<State>),
    old: &ObjectRow,
) -> Result<(), Memory>
    ensures ok { OnOk result (keys_of set.new ≡ with_values version_cmp (keys_of set.old)
        (versions_that (is_newly_aborted old.now) (entry.now ∷ []))) }
    ensures want { OnlyWant result }
{
    if is_newly_aborted(old, entry) {
        return add(set, entry.0);
    }
    Ok(())
}

// Adds the versions of a row that the new one has lost.
fn add_lost(
    set: &mut Map<Version, Bool>,
    entries: &[(Version, Max<State>)],
    new: &ObjectRow,
) -> Result<(), Memory>
    ensures ok { OnOk result (keys_of set.new ≡ with_values version_cmp (keys_of set.old)
        (versions_that (is_lost new.now) entries.now)) }
    ensures want { OnlyWant result }
{
    for entry in entries {
        add_if_lost(set, entry, new)?;
    }
    Ok(())
}

// Adds the versions of a row that are aborted, and were not in the old one.
fn add_newly_aborted(
    set: &mut Map<Version, Bool>,
    entries: &[(Version, Max<State>)],
    old: &ObjectRow,
) -> Result<(), Memory>
    ensures ok { OnOk result (keys_of set.new ≡ with_values version_cmp (keys_of set.old)
        (versions_that (is_newly_aborted old.now) entries.now)) }
    ensures want { OnlyWant result }
{
    for entry in entries {
        add_if_newly_aborted(set, entry, old)?;
    }
    Ok(())
}

fn deleted_versions(alloc: Global, versions: &[(Version, Bool)]) -> Result<Vec<AnyRow>, Memory>
    ensures are { IfOk result (λ rows. rows.items ≡ map (λ e. deleted_version e.0) versions.now) }
    ensures want { OnlyWant result }
{
    let mut rows = Vec::new(alloc);
    for entry in versions {
        let id = entry.0.id;
        let blocks = Deletable::Deleted;
        rows.push(AnyRow::version(alloc, VersionRow { id, blocks })?)?;
    }
    Ok(rows)
}

/// A deleted version row for each version that is given up.
pub fn object_triggers(
    alloc: Global,
    old: &ObjectRow,
    new: &ObjectRow,
) -> Result<Vec<AnyRow>, Memory>
    ensures are { IfOk result
        (λ rows. rows.items ≡ map deleted_version (given_up old.now new.now)) }
    ensures want { OnlyWant result }
{
    let mut versions = Map::new(alloc);
    add_lost(&mut versions, old.versions.as_slice(), new)?;
    add_newly_aborted(&mut versions, new.versions.as_slice(), old)?;
    let rows = deleted_versions(alloc, versions.as_slice())?;
    Ok(rows)
}
