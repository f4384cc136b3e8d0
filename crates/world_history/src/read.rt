//! A finished read, and what it owes.
ghost use Rattle.std.specs.Prelude.{◌≡◌, ◌<◌, ◌≤◌, length, true};
ghost use Rattle.history_model.specs.Record.{names, is_list};
ghost use Rattle.world_history.specs.Checks.{writes_at, is_written, shows, shows_below, covers, covers_key, covers_all, is_written_if_named, shows_written};
ghost use Rattle.std.specs.List.{list_all};

use crate::finish::acknowledged;
use crate::index::{Index, entries_before};
use crate::past::Past;
use crate::rows::{before, is_listed_at};
use crdt_core::Bytes;
use crdt_rows::Version;
use history_model::{Answer, Kind, Record};

/// A read that began and finished at these places.
#[derive(Clone, Copy)]
pub struct Read<'a> {
    pub kind: Kind,
    pub bucket: &'a Bytes,
    /// Of a list the prefix.
    pub key: &'a Bytes,
    pub began: usize,
    pub finished: usize,
    pub answer: &'a Answer,
}

/// Whether a read with this key of its own names the other key.
pub fn names(kind: Kind, own: &Bytes, key: &Bytes) -> bool
    ensures { result ≡ names kind own.now key.now }
{
    match kind {
        Kind::List => key.as_slice().starts_with(own.as_slice()),
        _ => own == key,
    }
}

// Whether a put or copy of the key with the number of v began at this place, which wasn't acknowledged with
// another version.
fn writes_at(index: &Index<'_>, bucket: &Bytes, key: &Bytes, v: Version, place: usize) -> bool
    requires { place < length index.now.records.now }
    ensures { result ≡ writes_at index.now.records.now bucket.now key.now v place }
{
    match &index.records[place] {
        Record::Began {
            request,
            kind,
            bucket: place_bucket,
            key: place_key,
            ..
        } if *request == v.id && kind.is_source() && place_key == key && place_bucket == bucket => {
            match acknowledged(index, place, *request) {
                Some((_, version)) => version == v,
                None => true,
            }
        }
        _ => false,
    }
}

// Whether that is so at some place before place j.
fn is_written(index: &Index<'_>, j: usize, bucket: &Bytes, key: &Bytes, v: Version) -> bool
    requires { j ≤ length index.now.records.now }
    ensures { result ≡ is_written index.now.records.now j bucket.now key.now v }
{
    let order = index.order.as_slice();
    let low = entries_before(order, v.id, 0);
    let high = entries_before(order, v.id, j);
    for k in low..high {
        if writes_at(index, bucket, key, v, order[k].1) {
            return true;
        }
    }
    false
}

// Whether an answer to a read whose own key is this shows a version for the key.
fn shows(own: &Bytes, answer: &Answer, key: &Bytes) -> bool
    ensures { result ≡ shows own.now answer.now key.now }
{
    match answer {
        Answer::Version(_) => own == key,
        Answer::None => false,
        Answer::Listed(entries) => entries.as_slice().iter().any(|entry| entry.0 == *key),
    }
}

// Whether it shows a version for the key that is below w.
fn shows_below(own: &Bytes, answer: &Answer, key: &Bytes, w: Version) -> bool
    ensures { result ≡ shows_below own.now answer.now key.now w }
{
    match answer {
        Answer::Version(version) => own == key && *version < w,
        Answer::None => false,
        Answer::Listed(entries) => entries
            .as_slice()
            .iter()
            .any(|entry| entry.0 == *key && entry.1 < w),
    }
}

impl Read<'_> {
    // Whether what it shows for the key covers w.
    fn covers(&self, past: &Past<'_>, key: &Bytes, w: Version) -> bool
        requires { self.now.finished ≤ length past.now.table.index.records.now }
        ensures { result ≡ covers past.now.table.index.records.now self.now.finished self.now.bucket.now self.now.key.now self.now.answer.now key.now w }
    {
        !shows_below(self.key, self.answer, key, w)
            && (shows(self.key, self.answer, key)
                || past.is_deleted(self.finished, self.bucket, key, w))
    }

    // Whether it covers each version with which a write of the key was acknowledged before it began: the newest.
    fn covers_key(&self, past: &Past<'_>, key: &Bytes) -> bool
        requires began { self.now.began ≤ length past.now.table.index.records.now }
        requires finished { self.now.finished ≤ length past.now.table.index.records.now }
        ensures { result ≡ covers_key past.now.table.index.records.now self.now.began self.now.finished self.now.bucket.now self.now.key.now self.now.answer.now key.now }
    {
        match past.newest_before(self.began, self.bucket, key) {
            Some(version) => self.covers(past, key, version),
            None => true,
        }
    }

    // Whether it covers those of each key that has its own as a prefix, key by key.
    fn covers_listed(&self, past: &Past<'_>) -> bool
        requires began { self.now.began ≤ length past.now.table.index.records.now }
        requires finished { self.now.finished ≤ length past.now.table.index.records.now }
        requires list { is_list self.now.kind ≡ true }
        ensures { result ≡ covers_all past.now.table.index.records.now self.now.began self.now.finished self.now.kind self.now.bucket.now self.now.key.now self.now.answer.now }
    {
        let rows = past.table.rows.as_slice();
        let mut k = before(rows, self.bucket, self.key, 0);
        while is_listed_at(rows, k, self.bucket, self.key) {
            if !self.covers_key(past, &rows[k].key) {
                return false;
            }
            k = past.table.key_end(k);
        }
        true
    }

    /// Whether it covers each version with which a write of a key that it names was acknowledged before it began.
    pub fn covers_all(&self, past: &Past<'_>) -> bool
        requires began { self.now.began ≤ length past.now.table.index.records.now }
        requires finished { self.now.finished ≤ length past.now.table.index.records.now }
        ensures { result ≡ covers_all past.now.table.index.records.now self.now.began self.now.finished self.now.kind self.now.bucket.now self.now.key.now self.now.answer.now }
    {
        if self.kind.is_list() {
            return self.covers_listed(past);
        }
        self.covers_key(past, self.key)
    }

    // Whether the version that it shows for a key was written there, where it names the key.
    fn is_written(&self, index: &Index<'_>, key: &Bytes, version: Version) -> bool
        requires { self.now.finished ≤ length index.now.records.now }
        ensures { result ≡ is_written_if_named index.now.records.now self.now.finished self.now.kind self.now.bucket.now self.now.key.now (key.now, version) }
    {
        !names(self.kind, self.key, key)
            || is_written(index, self.finished, self.bucket, key, version)
    }

    /// Whether each version that it shows for a key that it names was written there.
    pub fn shows_written(&self, index: &Index<'_>) -> bool
        requires { self.now.finished ≤ length index.now.records.now }
        ensures { result ≡ shows_written index.now.records.now self.now.finished self.now.kind self.now.bucket.now self.now.key.now self.now.answer.now }
    {
        match self.answer {
            Answer::Version(version) => self.is_written(index, self.key, *version),
            Answer::None => true,
            Answer::Listed(entries) => self.lists_written(index, entries.as_slice()),
        }
    }

    fn lists_written(&self, index: &Index<'_>, entries: &[(Bytes, Version)]) -> bool
        requires { self.now.finished ≤ length index.now.records.now }
        ensures { result ≡ list_all (is_written_if_named index.now.records.now self.now.finished self.now.kind self.now.bucket.now self.now.key.now) entries.now }
    {
        for (key, version) in entries {
            if !self.is_written(index, key, *version) {
                return false;
            }
        }
        true
    }
}
