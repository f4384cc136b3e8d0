//! A map whose values merge key by key.
ghost use Rattle.std.specs.Prelude.{◌≡◌, ◌↔◌, ◌+◌, ◌++◌, ◌==◌, [], ◌∷◌, IsTrue, length, IfOk, IfErr, IsSome, IfSome, OnOk, OnErr, slice_get, option_copied, option_map};
ghost use Rattle.crdt_core.specs.Outcomes.{OnlyWant};
ghost use Rattle.crdt_core.specs.Entries.{is_ascending, merged};
ghost use Rattle.crdt_core.specs.Places.{IsAt, IsGap};

use crate::crdt::Crdt;
use crate::list::List;
use crate::lww::Lww;
use crate::memory::Memory;
use crate::value::Value;
use std::alloc::Global;
use std::cmp::Ordering;

/// A finite map in the order of its keys. Two merge key by key.
#[derive(Debug, Drop, PartialEq, Eq)]
pub struct Map<K: Value, V> {
    entries: List<(K, V)>,
    pub ghost ascending: { IsTrue (is_ascending K.cmp entries) },
}

/// A map whose entries are written, the last write winning.
pub type LwwMap<K, V> = Map<K, Lww<V>>;

impl<K: Value, V> Map<K, V> {
    ghost use Rattle.crdt_core.specs.Map.{map_entries, map_get, entry_now};

    pub fn new(alloc: Global) -> Map<K, V>
        ensures { map_entries result ≡ [] }
    {
        Map {
            entries: List::new(alloc),
        }
    }

    pub fn allocator(&self) -> Global {
        self.entries.allocator()
    }

    /// How many entries there are.
    pub fn len(&self) -> usize
        ensures { result ≡ length (map_entries self.now) }
    {
        self.entries.len()
    }

    pub fn is_empty(&self) -> bool
        ensures { result ≡ (length (map_entries self.now) == 0) }
    {
        self.entries.is_empty()
    }

    /// The value at a key, found by a binary search.
    pub fn get(&self, key: &K) -> Option<&V>
        ensures { option_copied result ≡ map_get self.now key.now }
    {
        match place(self.entries.as_slice(), key) {
            Ok(i) => Some(&self.entries.at(i).1),
            Err(_) => None,
        }
    }

    /// The entry at a place in the order of the keys, counted from 0.
    pub fn at(&self, i: usize) -> Option<(&K, &V)>
        ensures { option_map entry_now result ≡ slice_get (map_entries self.now) i }
    {
        match self.entries.get(i) {
            Some(entry) => Some((&entry.0, &entry.1)),
            None => None,
        }
    }

    /// The entries in the order of their keys.
    pub fn as_slice(&self) -> &[(K, V)]
        ensures { result.now ≡ map_entries self.now }
    {
        self.entries.as_slice()
    }
}

impl<K: Value, V: Crdt> Map<K, V> {
    ghost use Rattle.crdt_core.specs.Map.{map_join, map_single};

    /// Merges a value into that at the key, or puts it there where the key has none.
    pub fn join_at(&mut self, key: K, v: &V) -> Result<(), Memory>
        ensures joined { OnOk result (self.new ≡ map_join V.join self.old (map_single key v.now)) }
        ensures unchanged { OnErr result (self.new ≡ self.old) }
        ensures want { OnlyWant result }
    {
        match place(self.entries.as_slice(), &key) {
            Ok(i) => {
                let entry = self.entries.at_mut(i);
                entry.1.merge(v)?;
                Ok(())
            }
            Err(i) => {
                self.entries.insert(i, (key, v.copy()?))?;
                Ok(())
            }
        }
    }
}

impl<K: Value, V: Drop> Map<K, V> {
    ghost use Rattle.crdt_core.specs.Map.{map_entries, map_from};

    /// The map with one entry.
    pub fn single(alloc: Global, key: K, v: V) -> Result<Map<K, V>, Memory>
        ensures entries { IfOk result (λ map. map_entries map ≡ (key, v) ∷ []) }
        ensures want { OnlyWant result }
    {
        let mut entries = List::from_vec(Vec::with_capacity(alloc, 1)?);
        entries.push((key, v))?;
        Ok(Map { entries })
    }

    /// The map with these entries, or none where one of their keys isn't below the next. Takes no memory.
    pub fn from_entries(entries: List<(K, V)>) -> Option<Map<K, V>>
        ensures some { IsSome result ↔ IsTrue (is_ascending K.cmp entries) }
        ensures entries { IfSome result (λ map. map_entries map ≡ entries) }
    {
        if are_ascending(entries.as_slice()) {
            return Some(Map { entries });
        }
        None
    }

    /// Drops the entries whose keys are smaller.
    pub fn keep_from(&mut self, key: &K)
        ensures { self.new ≡ map_from key.now self.old }
    {
        let smaller = match place(self.entries.as_slice(), key) {
            Ok(i) => i,
            Err(i) => i,
        };
        self.entries.drop_front(smaller);
    }
}

// Each key is below the next.
fn are_ascending<K: Value, V>(entries: &[(K, V)]) -> bool
    ensures { result ≡ is_ascending K.cmp entries.now }
{
    let mut rest = entries;
    while let [first, second, ..] = rest {
        if first.0.cmp(&second.0) != Ordering::Less {
            return false;
        }
        rest = &rest[1..];
    }
    true
}

// Where the key is, or where it would go.
fn place<K: Value, V>(entries: &[(K, V)], key: &K) -> Result<usize, usize>
    requires { IsTrue (is_ascending K.cmp entries.now) }
    ensures found { IfOk result (IsAt K.cmp key.now entries.now) }
    ensures absent { IfErr result (IsGap K.cmp key.now entries.now) }
{
    entries.binary_search_by(|entry| entry.0.cmp(key))
}

fn copy_entry<K: Value, V: Crdt>(entry: &(K, V)) -> Result<(K, V), Memory>
    ensures same { IfOk result (λ e. e ≡ entry.now) }
    ensures want { OnlyWant result }
{
    Ok((entry.0.copy()?, entry.1.copy()?))
}

// An entry with our key and the join of both values.
fn join_entry<K: Value, V: Crdt>(ours: &(K, V), theirs: &(K, V)) -> Result<(K, V), Memory>
    ensures joined { IfOk result (λ e. e ≡ (ours.now.0, V.join ours.now.1 theirs.now.1)) }
    ensures want { OnlyWant result }
{
    let key = ours.0.copy()?;
    let mut v = ours.1.copy()?;
    v.merge(&theirs.1)?;
    Ok((key, v))
}

fn push_copies<K: Value, V: Crdt>(made: &mut List<(K, V)>, entries: &[(K, V)]) -> Result<(), Memory>
    ensures ok { OnOk result (made.new ≡ made.old ++ entries.now) }
    ensures want { OnlyWant result }
{
    for entry in entries {
        made.push(copy_entry(entry)?)?;
    }
    Ok(())
}

// The entries of both in the order of their keys, in one pass over each.
fn merge_entries<K: Value, V: Crdt>(
    alloc: Global,
    ours: &[(K, V)],
    theirs: &[(K, V)],
) -> Result<List<(K, V)>, Memory>
    ensures merged { IfOk result (λ es. es ≡ merged K.cmp V.join ours.now theirs.now) }
    ensures want { OnlyWant result }
{
    let least = ours.len().max(theirs.len());
    let mut made = List::from_vec(Vec::with_capacity(alloc, least)?);
    let mut i = 0;
    let mut k = 0;
    while i < ours.len() && k < theirs.len() {
        match ours[i].0.cmp(&theirs[k].0) {
            Ordering::Less => {
                made.push(copy_entry(&ours[i])?)?;
                i += 1;
            }
            Ordering::Equal => {
                made.push(join_entry(&ours[i], &theirs[k])?)?;
                i += 1;
                k += 1;
            }
            Ordering::Greater => {
                made.push(copy_entry(&theirs[k])?)?;
                k += 1;
            }
        }
    }
    push_copies(&mut made, &ours[i..])?;
    push_copies(&mut made, &theirs[k..])?;
    Ok(made)
}

impl<K: Value, V: Crdt> Crdt for Map<K, V> {
    ghost use Rattle.crdt_core.specs.Map.{map_join};
    ghost use Rattle.crdt_core.specs.MapLaws.{map_laws};

    ghost join = { map_join V.join };

    ghost join_laws = { map_laws K.total K.identical V.join_laws };

    fn copy(&self) -> Result<Map<K, V>, Memory> {
        let room = Vec::with_capacity(self.entries.allocator(), self.entries.len())?;
        let mut entries = List::from_vec(room);
        push_copies(&mut entries, self.entries.as_slice())?;
        Ok(Map { entries })
    }

    fn merge(&mut self, other: &Map<K, V>) -> Result<(), Memory> {
        match other.entries.as_slice() {
            [] => Ok(()),
            // Most rows that arrive have one entry, and need no second list.
            [(key, v)] => self.join_at(key.copy()?, v),
            theirs => {
                let alloc = self.entries.allocator();
                self.entries = merge_entries(alloc, self.entries.as_slice(), theirs)?;
                Ok(())
            }
        }
    }
}
