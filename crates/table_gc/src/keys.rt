//! The numbers of open collections by the keys of their rows.
ghost use Rattle.std.specs.Prelude.{◌≡◌, ◌==◌, ℕ, List, [], true, not, OnOk, OnErr, slice_get};
ghost use Rattle.std.specs.List.{filter};
ghost use Rattle.crdt_core.specs.Outcomes.{OnlyWant};
ghost use Rattle.table_gc.specs.Keys.{numbers_at, Adds, Removes};

use crdt_core::Memory;
use std::alloc::Global;
use std::collections::BTreeMap;

/// The numbers of the open collections of each key, in order. A key is mostly that of one.
pub type Keys = BTreeMap<Vec<u8>, Vec<u64>>;

/// The first number at a key.
pub fn first(keys: &Keys, key: &[u8]) -> Option<u64>
    ensures { result ≡ slice_get (numbers_at key.now keys.now) 0 }
{
    match keys.get(key) {
        Some(numbers) => numbers.first().copied(),
        None => None,
    }
}

/// Adds a number at a key, behind those that are there.
pub fn add(alloc: Global, keys: &mut Keys, key: Vec<u8>, number: u64) -> Result<(), Memory>
    ensures ok { OnOk result (Adds key.items number keys.old keys.new) }
    ensures err { OnErr result ((other : List ℕ) →
        numbers_at other keys.new ≡ numbers_at other keys.old) }
    ensures want { OnlyWant result }
{
    if let Some(numbers) = keys.get_mut(key.as_slice()) {
        numbers.push(number)?;
        return Ok(());
    }
    let mut numbers = Vec::new(alloc);
    numbers.push(number)?;
    let _ = keys.insert(key, numbers)?;
    Ok(())
}

/// Takes a number out at a key.
pub fn remove(keys: &mut Keys, key: &[u8], number: u64)
    ensures { Removes key.now number keys.old keys.new }
{
    take_at(keys, key, number);
    drop_empty(keys, key);
}

// The same, where the key stays.
fn take_at(keys: &mut Keys, key: &[u8], number: u64)
    ensures { Removes key.now number keys.old keys.new }
{
    if let Some(numbers) = keys.get_mut(key) {
        take_out(numbers, number);
    }
}

fn take_out(numbers: &mut Vec<u64>, number: u64)
    ensures { numbers.new.items ≡ filter (λ n. not (n == number)) numbers.old.items }
{
    numbers.retain(|n| *n != number);
}

// Forgets a key without numbers.
fn drop_empty(keys: &mut Keys, key: &[u8])
    ensures { (other : List ℕ) → numbers_at other keys.new ≡ numbers_at other keys.old }
{
    if is_empty(keys, key) {
        let _ = keys.remove(key);
    }
}

// No number stands at a key.
fn is_empty(keys: &Keys, key: &[u8]) -> bool
    ensures { result ≡ true → numbers_at key.now keys.now ≡ [] }
{
    match keys.get(key) {
        Some(numbers) => numbers.is_empty(),
        None => false,
    }
}
