//! The versions of one object.
ghost use Rattle.std.specs.Prelude.{◌≡◌, IsTrue, OnOk, OnErr};
ghost use Rattle.std.specs.List.{list_all, list_any};
ghost use Rattle.std.specs.Ordering.{is_lt};
ghost use Rattle.crdt_core.specs.Outcomes.{OnlyWant};
ghost use Rattle.crdt_core.specs.Entries.{is_ascending};
ghost use Rattle.crdt_core.specs.Map.{map_entries, map_from, map_join};
ghost use Rattle.crdt_core.specs.Max.{max_join};
ghost use Rattle.crdt_rows.specs.Settled.{kept_map};
ghost use Rattle.crdt_rows.specs.State.{is_complete, state_cmp};
ghost use Rattle.crdt_rows.specs.Newest.{later};
ghost use Rattle.crdt_rows.specs.Version.{version_cmp};
ghost use Rattle.crdt_rows.specs.Versions.{is_settled_row, is_sized_row};

use crate::body::Body;
use crate::state::State;
use crate::version::Version;
use blake2_hash::Hash32;
use crdt_core::{Bytes, Crdt, Map, Max, Memory, Value};
use std::alloc::Global;
use std::cmp::Ordering;

/// The versions of one object, each with how far it has come. None is older than the newest complete one.
#[derive(Debug, Drop, PartialEq, Eq)]
pub struct ObjectRow {
    /// The BLAKE2b-256 digest of the bucket's name.
    pub bucket: Hash32,
    pub key: Bytes,
    pub versions: Map<Version, Max<State>>,
    pub ghost settled: { IsTrue (is_settled_row (map_entries versions)) },
    pub ghost sized: { IsTrue (is_sized_row (map_entries versions)) },
}

impl ObjectRow {
    ghost use Rattle.std.specs.Prelude.{IsSome, IfSome, ◌↔◌, Some, option_map, IfOk, ◌∷◌, []};
    ghost use Rattle.crdt_rows.specs.State.{is_sized};
    ghost use Rattle.crdt_rows.specs.Versions.{greatest_ts};
    ghost use Rattle.crdt_rows.specs.declared.state.State.TheVariants.{Complete};
    ghost use Rattle.crdt_rows.specs.ObjectRow.{newest, state_at, object_key_cmp, object_key};

    /// A row with one version.
    pub fn single(
        alloc: Global,
        bucket: Hash32,
        key: Bytes,
        version: Version,
        state: State,
    ) -> Result<ObjectRow, Memory>
        requires { IsTrue (is_sized state) }
        ensures key { IfOk result (λ row. object_key row ≡ (bucket, key)) }
        ensures versions { IfOk result (λ row. map_entries row.versions ≡ (version, record { 0 = state }) ∷ []) }
        ensures want { OnlyWant result }
    {
        let versions = Map::single(alloc, version, Max(state))?;
        Ok(ObjectRow {
            bucket,
            key,
            versions,
        })
    }

    /// A row with these versions, or none where one is older than the newest complete one, or where inline
    /// bytes are not as many as their size says. Takes no memory.
    pub fn with_versions(
        bucket: Hash32,
        key: Bytes,
        versions: Map<Version, Max<State>>,
    ) -> Option<ObjectRow>
        ensures some { IsSome result ↔ (IsTrue (is_settled_row (map_entries versions)) × IsTrue (is_sized_row (map_entries versions))) }
        ensures key { IfSome result (λ row. object_key row ≡ (bucket, key)) }
        ensures versions { IfSome result (λ row. row.versions ≡ versions) }
    {
        if are_settled(versions.as_slice()) && are_sized(versions.as_slice()) {
            return Some(ObjectRow {
                bucket,
                key,
                versions,
            });
        }
        None
    }

    /// The newest complete version, and what it holds.
    pub fn newest(&self) -> Option<(Version, &Body)>
        ensures version { option_map (λ found. found.0) result ≡ newest self.now }
        ensures body { IfSome result (λ found. state_at self.now found.0 ≡ Some (Complete found.1.now)) }
    {
        match self.versions.at(0) {
            Some((version, state)) => match &state.0 {
                State::Complete(body) => Some((*version, body)),
                _ => None,
            },
            None => None,
        }
    }

    /// The greatest timestamp of the versions that aren't aborted, or 0 where there are none. Takes no memory.
    pub fn greatest_ts(&self) -> u64
        ensures { result ≡ greatest_ts (map_entries self.now.versions) }
    {
        let mut greatest = 0;
        for (version, state) in self.versions.as_slice() {
            if !state.0.is_aborted() {
                greatest = version.ts.max(greatest);
            }
        }
        greatest
    }

    fn newest_version(&self) -> Option<Version>
        ensures { result ≡ newest self.now }
    {
        match self.newest() {
            Some((version, _)) => Some(version),
            None => None,
        }
    }

    fn order(&self, other: &ObjectRow) -> Ordering
        ensures { result ≡ object_key_cmp (object_key self.now) (object_key other.now) }
    {
        self.bucket
            .cmp(&other.bucket)
            .then(self.key.cmp(&other.key))
    }
}

// No version after the first is complete.
fn are_settled(entries: &[(Version, Max<State>)]) -> bool
    requires { IsTrue (is_ascending version_cmp entries.now) }
    ensures { result ≡ is_settled_row entries.now }
{
    match entries {
        [] => true,
        [_, rest @ ..] => !any_complete(rest),
    }
}

fn any_complete(entries: &[(Version, Max<State>)]) -> bool
    ensures { result ≡ list_any (λ e. is_complete e.1.0) entries.now }
{
    entries.iter().any(|entry| entry.1.0.is_complete())
}

fn are_sized(entries: &[(Version, Max<State>)]) -> bool
    ensures { result ≡ is_sized_row entries.now }
{
    entries.iter().all(|entry| entry.1.0.is_sized())
}

// The later of two versions, of which each may be missing.
fn later(a: Option<Version>, b: Option<Version>) -> Option<Version>
    ensures { result ≡ later version_cmp a b }
{
    match (a, b) {
        (Some(a), Some(b)) => match a.cmp(&b) {
            Ordering::Less => Some(b),
            Ordering::Equal | Ordering::Greater => Some(a),
        },
        (Some(a), None) => Some(a),
        (None, b) => b,
    }
}

// Each version is older than this one. Entries ascend, so that the last one decides.
fn are_older(entries: &[(Version, Max<State>)], version: &Version) -> bool
    requires { IsTrue (is_ascending version_cmp entries.now) }
    ensures { result ≡ list_all (λ e. is_lt (version_cmp e.0 version.now)) entries.now }
{
    match entries.last() {
        Some((last, _)) => last < version,
        None => true,
    }
}

// Merges the other versions in, and drops those that are older than this one.
fn merge_from(
    ours: &mut Map<Version, Max<State>>,
    theirs: &Map<Version, Max<State>>,
    version: &Version,
) -> Result<(), Memory>
    ensures joined { OnOk result (ours.new ≡ map_from version.now (map_join (max_join state_cmp) ours.old theirs.now)) }
    ensures unchanged { OnErr result (ours.new ≡ ours.old) }
    ensures want { OnlyWant result }
{
    // Mostly the other row has older versions alone, which would be copied only to be dropped.
    if !are_older(theirs.as_slice(), version) {
        ours.merge(theirs)?;
    }
    ours.keep_from(version);
    Ok(())
}

// Merges the other versions in, and drops those that are older than the newest.
fn merge_versions(
    ours: &mut Map<Version, Max<State>>,
    theirs: &Map<Version, Max<State>>,
    newest: Option<Version>,
) -> Result<(), Memory>
    ensures joined { OnOk result (ours.new ≡ kept_map newest (map_join (max_join state_cmp) ours.old theirs.now)) }
    ensures unchanged { OnErr result (ours.new ≡ ours.old) }
    ensures want { OnlyWant result }
{
    match newest {
        Some(version) => merge_from(ours, theirs, &version),
        None => ours.merge(theirs),
    }
}

impl Crdt for ObjectRow {
    ghost use Rattle.crdt_rows.specs.ObjectRow.{object_join};
    ghost use Rattle.crdt_rows.specs.ObjectRowLaws.{object_laws};

    ghost join = { object_join };

    ghost join_laws = { object_laws };

    fn copy(&self) -> Result<ObjectRow, Memory> {
        Ok(ObjectRow {
            bucket: self.bucket,
            key: self.key.copy()?,
            versions: self.versions.copy()?,
        })
    }

    fn merge(&mut self, other: &ObjectRow) -> Result<(), Memory> {
        match self.order(other) {
            Ordering::Less => {
                *self = other.copy()?;
                Ok(())
            }
            Ordering::Equal => {
                let newest = later(self.newest_version(), other.newest_version());
                merge_versions(&mut self.versions, &other.versions, newest)?;
                Ok(())
            }
            Ordering::Greater => Ok(()),
        }
    }
}
