//! What stands of the writes of one node.
ghost use Rattle.std.specs.Prelude.{◌≡◌, ◌<◌, IsTrue, [], ◌∷◌, OnOk, OnErr, IfOk};
ghost use Rattle.crdt_core.specs.Outcomes.{OnlyWant};
ghost use Rattle.crdt_core.specs.Map.{map_entries, map_join};
ghost use Rattle.crdt_core.specs.Max.{max_join};
ghost use Rattle.k2v_rows.specs.Later.{are_later};
ghost use Rattle.k2v_rows.specs.Value.{value_cmp};
ghost use Rattle.k2v_rows.specs.Values.{later_values};

use crate::value::K2vValue;
use crdt_core::{Crdt, Map, Max, Memory};
use std::alloc::Global;

/// What stands of one node's writes of an item. No value has a time of at most the discard time.
#[derive(Debug, Drop, PartialEq, Eq)]
pub struct Writes {
    /// Writes up to this time were replaced by later ones of some node.
    pub discard: Max<u64>,
    /// What the later writes left, by their times.
    pub values: Map<u64, Max<K2vValue>>,
    pub ghost kept: { IsTrue (are_later discard.0 (map_entries values)) },
}

impl Writes {
    ghost use Rattle.std.specs.Prelude.{IsSome, IfSome, ◌↔◌};
    ghost use Rattle.k2v_rows.specs.Writes.{greatest_time};

    /// A discard time without values.
    pub fn discarded(alloc: Global, discard: u64) -> Writes
        ensures discard { result.discard.0 ≡ discard }
        ensures values { map_entries result.values ≡ [] }
    {
        Writes {
            discard: Max(discard),
            values: Map::new(alloc),
        }
    }

    /// One value, and no discard time. The time is at least 1.
    pub fn single(alloc: Global, time: u64, value: K2vValue) -> Result<Writes, Memory>
        requires { 0 < time }
        ensures discard { IfOk result (λ w. w.discard.0 ≡ 0) }
        ensures values { IfOk result
            (λ w. map_entries w.values ≡ (time, record { 0 = value }) ∷ []) }
        ensures want { OnlyWant result }
    {
        let mut values = Map::new(alloc);
        values.join_at(time, &Max(value))?;
        Ok(Writes {
            discard: Max(0),
            values,
        })
    }

    /// These values after this discard time, or none where one isn't after it. Takes no memory.
    pub fn with_values(discard: u64, values: Map<u64, Max<K2vValue>>) -> Option<Writes>
        ensures some { IsSome result ↔ IsTrue (are_later discard (map_entries values)) }
        ensures discard { IfSome result (λ w. w.discard.0 ≡ discard) }
        ensures values { IfSome result (λ w. w.values ≡ values) }
    {
        if are_later(discard, values.as_slice()) {
            return Some(Writes {
                discard: Max(discard),
                values,
            });
        }
        None
    }

    /// The greatest of the discard time and the times of the values.
    pub fn greatest_time(&self) -> u64
        ensures { result ≡ greatest_time self.now }
    {
        match self.values.as_slice().last() {
            Some((time, _)) => *time,
            None => self.discard.0,
        }
    }
}

fn are_later(discard: u64, values: &[(u64, Max<K2vValue>)]) -> bool
    ensures { result ≡ are_later discard values.now }
{
    values.iter().all(|value| discard < value.0)
}

// Drops the values with a time of at most `discard`.
fn drop_through(values: &mut Map<u64, Max<K2vValue>>, discard: u64)
    ensures { values.new ≡ later_values discard values.old }
{
    let last = match values.as_slice().last() {
        Some((time, _)) => *time,
        None => 0,
    };
    if discard < last {
        values.keep_from(&(discard + 1));
    } else {
        *values = Map::new(values.allocator());
    }
}

// Merges the other values in, and drops those with a time of at most `discard`.
fn merge_values(
    ours: &mut Map<u64, Max<K2vValue>>,
    theirs: &Map<u64, Max<K2vValue>>,
    discard: u64,
) -> Result<(), Memory>
    ensures joined { OnOk result
        (ours.new ≡ later_values discard (map_join (max_join value_cmp) ours.old theirs.now)) }
    ensures unchanged { OnErr result (ours.new ≡ ours.old) }
    ensures want { OnlyWant result }
{
    ours.merge(theirs)?;
    drop_through(ours, discard);
    Ok(())
}

impl Crdt for Writes {
    ghost use Rattle.k2v_rows.specs.Writes.{writes_join};
    ghost use Rattle.k2v_rows.specs.WritesLaws.{writes_laws};

    ghost join = { writes_join };

    ghost join_laws = { writes_laws };

    fn copy(&self) -> Result<Writes, Memory> {
        Ok(Writes {
            discard: self.discard.copy()?,
            values: self.values.copy()?,
        })
    }

    fn merge(&mut self, other: &Writes) -> Result<(), Memory> {
        let mut discard = self.discard.copy()?;
        discard.merge(&other.discard)?;
        merge_values(&mut self.values, &other.values, discard.0)?;
        self.discard = discard;
        Ok(())
    }
}
