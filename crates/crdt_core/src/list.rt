//! A list that owns its memory, ordered as text is.
ghost use Rattle.std.specs.Prelude.{◌≡◌, ◌↔◌, ◌≤◌, insert, remove, slice_set, ◌<◌, [], ◌∷◌, ◌++◌, ◌==◌, length, IsSome, OnOk, OnErr, Some, slice_get, option_copied, take, drop};
ghost use Rattle.std.specs.Option.{option_to_list};
ghost use Rattle.std.specs.Cmp.Lexicographic.{pointwise, slice_cmp, slice_partial_cmp, lists_equiv, lists_total, lists_ties, lists_per, lists_po, lists_agrees};
ghost use Rattle.std.specs.Borrow.{Lends, sem};
ghost use Rattle.crdt_core.specs.Outcomes.{OnlyWant};
ghost use Rattle.crdt_core.specs.IdentityLaws.{slice_identical};

use crate::memory::Memory;
use crate::value::Value;
use std::alloc::Global;
use std::cmp::Ordering;
use std::marker::Model;
use std::mem;

// A list with fewer rows grows by one at a time.
const SHORT: usize = 4;

/// A list of values.
#[derive(Debug, Drop)]
pub struct List<T> {
    rows: Vec<T>,
}

impl<T> Model for List<T> {
    ghost use Rattle.std.specs.Prelude.{List};

    ghost Value = { List T };

    ghost view = { λ a. a.rows.items };
}

impl<T> List<T> {
    ghost use Rattle.crdt_core.specs.contracts.list.List.{the_row};

    pub fn new(alloc: Global) -> List<T>
        ensures { result ≡ [] }
    {
        List {
            rows: Vec::new(alloc),
        }
    }

    /// Takes no memory.
    pub fn from_vec(rows: Vec<T>) -> List<T>
        ensures { result ≡ rows.items }
    {
        List { rows }
    }

    /// Takes no memory.
    pub fn into_vec(self) -> Vec<T>
        ensures { result.items ≡ self }
    {
        self.rows
    }

    pub fn as_slice(&self) -> &[T]
        ensures { result.now ≡ self.now }
    {
        self.rows.as_slice()
    }

    pub fn allocator(&self) -> Global {
        *self.rows.allocator()
    }

    pub fn len(&self) -> usize
        ensures { result ≡ length self.now }
    {
        self.rows.len()
    }

    pub fn is_empty(&self) -> bool
        ensures { result ≡ (length self.now == 0) }
    {
        self.rows.is_empty()
    }

    /// The row at a place, counted from 0.
    pub fn get(&self, index: usize) -> Option<&T>
        ensures { option_copied result ≡ slice_get self.now index }
    {
        self.rows.as_slice().get(index)
    }

    /// The row at a place that the list has.
    pub fn at(&self, index: usize) -> &T
        requires { index < length self.now }
        ensures { slice_get self.now index ≡ Some result.now }
    {
        &self.rows[index]
    }

    /// The row at a place that the list has, to be written.
    pub fn at_mut(&mut self, index: usize) -> &mut T
        requires { index < length self.old }
        ensures* writes_back { sem 𝓛 (Lends (the_row T.row) T.row self.entry result
            (slice_set self.old index)) }
        ensures value { slice_get self.old index ≡ Some result.now }
    {
        &mut self.rows[index]
    }

    /// Takes the last row off.
    pub fn pop(&mut self) -> Option<T>
        ensures popped { self.old ≡ self.new ++ option_to_list result }
        ensures some { IsSome result ↔ (0 < length self.old) }
    {
        self.rows.pop()
    }

    /// Moves all rows of the other list to the end of this one.
    pub fn append(&mut self, other: &mut List<T>) -> Result<(), Memory>
        ensures ok { OnOk result ((self.new ≡ self.old ++ other.old) × (other.new ≡ [])) }
        ensures err { OnErr result ((self.new ≡ self.old) × (other.new ≡ other.old)) }
        ensures want { OnlyWant result }
    {
        // A list without rows takes the other's room with them.
        if self.rows.is_empty() {
            mem::swap(&mut self.rows, &mut other.rows);
            return Ok(());
        }
        match self.rows.append(&mut other.rows) {
            Ok(()) => Ok(()),
            Err(_) => Err(Memory::Want),
        }
    }
}

impl<T: Drop> List<T> {
    pub fn push(&mut self, row: T) -> Result<(), Memory>
        ensures ok { OnOk result (self.new ≡ self.old ++ row ∷ []) }
        ensures err { OnErr result (self.new ≡ self.old) }
        ensures want { OnlyWant result }
    {
        match self.rows.push(row) {
            Ok(()) => Ok(()),
            Err(_) => Err(Memory::Want),
        }
    }

    /// Puts a row at a place, before those that are there and after it.
    pub fn insert(&mut self, index: usize, row: T) -> Result<(), Memory>
        requires { index ≤ length self.old }
        ensures ok { OnOk result (self.new ≡ insert self.old index row) }
        ensures err { OnErr result (self.new ≡ self.old) }
        ensures want { OnlyWant result }
    {
        // Most lists of entries stay short, so each of the first takes room for itself alone.
        if self.rows.len() < SHORT {
            self.rows.reserve_exact(1)?;
        }
        match self.rows.insert(index, row) {
            Ok(()) => Ok(()),
            Err(_) => Err(Memory::Want),
        }
    }

    /// Puts a row in the place of another.
    pub fn set(&mut self, index: usize, row: T)
        requires { index < length self.old }
        ensures { self.new ≡ slice_set self.old index row }
    {
        self.rows[index] = row;
    }

    /// Takes the row at a place out.
    pub fn remove(&mut self, index: usize) -> T
        requires { index < length self.old }
        ensures value { slice_get self.old index ≡ Some result }
        ensures rest { self.new ≡ remove self.old index }
    {
        self.rows.remove(index)
    }

    /// Keeps the first `len` rows, or all where there are fewer.
    pub fn truncate(&mut self, len: usize)
        ensures { self.new ≡ take len self.old }
    {
        self.rows.truncate(len);
    }

    /// Drops the first `count` rows.
    pub fn drop_front(&mut self, count: usize)
        requires { count ≤ length self.old }
        ensures { self.new ≡ drop count self.old }
    {
        let left = self.rows.len() - count;
        self.rows.rotate_left(count);
        self.rows.truncate(left);
    }
}

impl<T: PartialEq> PartialEq for List<T> {
    ghost eq = { pointwise T.eq };

    ghost laws = { lists_per T.PartialEq.laws };

    fn eq(&self, other: &List<T>) -> bool {
        self.as_slice() == other.as_slice()
    }
}

impl<T: Eq> Eq for List<T> {
    ghost laws = { lists_equiv T.Eq.laws };
}

impl<T: PartialOrd> PartialOrd for List<T> {
    ghost partial_cmp = { slice_partial_cmp T.partial_cmp };

    ghost laws = { lists_po T.PartialOrd.laws };

    fn partial_cmp(&self, other: &List<T>) -> Option<Ordering> {
        self.as_slice().partial_cmp(&other.as_slice())
    }
}

impl<T: Ord> Ord for List<T> {
    ghost cmp = { slice_cmp T.cmp };

    ghost total = { lists_total T.total };

    ghost matches_partial_cmp = { lists_agrees T.matches_partial_cmp };

    ghost matches_eq = { lists_ties T.cmp T.matches_eq };

    fn cmp(&self, other: &List<T>) -> Ordering {
        self.as_slice().cmp(&other.as_slice())
    }
}

impl<T: Value> Value for List<T> {
    ghost identical = { slice_identical T.identical };

    fn copy(&self) -> Result<List<T>, Memory> {
        let mut made = List::from_vec(Vec::with_capacity(self.allocator(), self.len())?);
        for row in &self.rows {
            made.push(row.copy()?)?;
        }
        Ok(made)
    }
}
