//! The root of pairs of hashes, from the pairs alone.
ghost use Rattle.std.specs.Prelude.{◌≡◌, ◌-◌, ◌<◌, ◌≤◌, ◌==◌, ◌++◌, ◌∷◌, filter, slice_index, IfOk, OnOk};
ghost use Rattle.crdt_core.specs.Outcomes.{OnlyWant};
ghost use Rattle.blake2_hash.specs.Blake2b.{blake2b};
ghost use Rattle.table_model.specs.Root.{branch, none_leaf_or_node, value_of};
ghost use Rattle.table_store.specs.Pairs.{shown};

use blake2_hash::{Blake2b, Hash32};
use crdt_core::Memory;
use std::alloc::Global;

/// The hashes of a row's key and of its bytes.
pub type Pair = (Hash32, Hash32);

/// The value of pairs whose key hashes have one prefix, after which `left` bytes of them are left.
pub fn pairs_value(alloc: Global, left: u8, pairs: &[Pair]) -> Result<Hash32, Memory>
    requires { left ≤ 32 }
    ensures is { IfOk result (λ value. value.0 ≡ value_of (blake2b 32) left (32 - left)
        (shown pairs.now)) }
    ensures want { OnlyWant result }
{
    if left == 0 {
        return Ok(digest(pairs, &[]));
    }
    if pairs.len() < 2 {
        return Ok(digest(pairs, &[]));
    }
    let mut branches = Vec::new(alloc);
    for byte in 0..256u16 {
        let some = with_byte(alloc, pairs, 32 - left as usize, byte as u8)?;
        let value = pairs_value(alloc, left - 1, some.as_slice())?;
        push_branch(&mut branches, byte as u8, some.as_slice(), &value)?;
    }
    Ok(digest(pairs, branches.as_slice()))
}

// The pairs whose key hash has this byte at this place.
fn with_byte(alloc: Global, pairs: &[Pair], place: usize, byte: u8) -> Result<Vec<Pair>, Memory>
    requires { place < 32 }
    ensures are { IfOk result
        (λ some. some.items ≡ filter (λ pair. slice_index pair.0.0 place == byte) pairs.now) }
    ensures want { OnlyWant result }
{
    let some: Vec<Pair> = pairs
        .iter()
        .filter(|pair| pair.0.0[place] == byte)
        .copied()
        .collect(alloc)?;
    Ok(some)
}

// Appends a byte and the value of the pairs that have it, or nothing where no pair has it.
fn push_branch(
    branches: &mut Vec<u8>,
    byte: u8,
    pairs: &[Pair],
    value: &Hash32,
) -> Result<(), Memory>
    ensures branch { OnOk result (branches.new.items ≡ branches.old.items ++ branch byte
        (shown pairs.now) value.now.0) }
    ensures want { OnlyWant result }
{
    match pairs {
        [] => Ok(()),
        _ => {
            branches.push(byte)?;
            branches.extend_from_slice(&value.0)?;
            Ok(())
        }
    }
}

// What stands for no pair, for one, and for more with these branches.
fn digest(pairs: &[Pair], branches: &[u8]) -> Hash32
    ensures { result.0 ≡ none_leaf_or_node (blake2b 32) (shown pairs.now) branches.now }
{
    match pairs {
        [] => Hash32([0; 32]),
        [pair] => tagged_digest(1, &pair.0.0, &pair.1.0),
        _ => tagged_digest(2, branches, &[]),
    }
}

fn tagged_digest(tag: u8, first: &[u8], second: &[u8]) -> Hash32
    ensures { result.0 ≡ blake2b 32 (tag ∷ first.now ++ second.now) }
{
    let mut hasher = Blake2b::new();
    hasher.update(&[tag]);
    hasher.update(first);
    hasher.update(second);
    hasher.finish()
}
