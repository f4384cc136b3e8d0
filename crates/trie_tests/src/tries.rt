//! Roots, values and children of a trie after puts and removals, against values from outside, and how often a change
//! hashes. Of a value its first eight bytes are compared. The values were computed by this Python, where a pair is
//! (key hash, row hash):
//!
//!     H = lambda b: hashlib.blake2b(b, digest_size=32).digest()
//!     def value(pairs, depth=0):
//!         if not pairs: return bytes(32)
//!         if len(pairs) == 1: return H(b'\1' + pairs[0][0] + pairs[0][1])
//!         out = b'\2'
//!         for byte in range(256):
//!             some = [p for p in pairs if p[0][depth] == byte]
//!             if some: out += bytes([byte]) + value(some, depth + 1)
//!         return H(out)
ghost use Rattle.std.specs.Prelude.{◌≡◌};
ghost use Rattle.merkle_trie.specs.Keeping.{queued};

use blake2_hash::{Hash32, blake2b_256};
use merkle_trie::{Blake, Trie};
use std::alloc::Global;
use std::test::Fail;

// The key hash that begins with these bytes and ends with this one, with zeros between.
fn key(first: u8, second: u8, last: u8) -> Hash32 {
    let mut bytes = [0; 32];
    bytes[0] = first;
    bytes[1] = second;
    bytes[31] = last;
    Hash32(bytes)
}

// The first eight bytes, as a number.
fn front(hash: &Hash32) -> u64 {
    let mut number = 0;
    for byte in hash.0.iter().take(8) {
        number = number << 8 | u64::from(*byte);
    }
    number
}

// A change: the pair with this key hash gets the row hash that is this byte throughout; 0 takes it out.
#[derive(Clone, Copy)]
struct Change {
    key: Hash32,
    row: u8,
}

fn written(key: Hash32, row: u8) -> Change {
    Change { key, row }
}

// The front of the root after the change, and how often it hashed.
fn changed(trie: &mut Trie, write: Change) -> Result<(u64, u64), Fail> {
    let mut hasher = Blake::new();
    if write.row == 0 {
        trie.remove(&write.key)?;
    } else {
        trie.put(write.key, Hash32([write.row; 32]))?;
    }
    trie.settle(&mut hasher)?;
    Ok((front(&trie.root()), hasher.hashes()))
}

#[test]
fn roots_after_puts_and_removals(rt: HostRuntime) -> Result<(), Fail> {
    let (a, b, c) = (key(1, 0, 0), key(1, 0, 1), key(9, 0, 0));
    let mut trie: Trie = Trie::new(rt.alloc());
    for (write, most, root) in [
        (written(a, 0), 0, 0),
        (written(a, 1), 1, 0x6939b5cbeae2c59e),
        // 31 bytes in common: a leaf and 32 nodes.
        (written(b, 2), 33, 0x4365d563bc2a9727),
        (written(c, 4), 2, 0xc62956bccfba1854),
        (written(b, 0), 32, 0xd0540409d6b6400f),
        (written(a, 0), 2, 0x3502afefafe9327e),
    ] {
        let (found, hashes) = changed(&mut trie, write)?;
        assert_eq!(rt; found, root);
        assert!(rt; hashes <= most);
    }
    Ok(())
}

// The pair of a number: the hash of its eight bytes, big-endian, and the hash of that.
fn numbered(n: u64) -> (Hash32, Hash32) {
    let key = blake2b_256(&n.to_be_bytes());
    (key, blake2b_256(&key.0))
}

// A trie of the pairs of 0 to 999, put in another order, without those of the first numbers times 3.
fn many(alloc: Global, without: u64) -> Result<Trie, Fail> {
    let mut trie: Trie = Trie::new(alloc);
    for n in 0..1000 {
        // 7 and 1000 have no common divisor.
        let (key, row) = numbered(n * 7 % 1000);
        trie.put(key, row)?;
    }
    for n in 0..without {
        trie.remove(&numbered(n % 1000 * 3).0)?;
    }
    trie.settle(&mut Blake::new())?;
    Ok(trie)
}

#[test]
fn many_pairs_in_any_order(rt: HostRuntime) -> Result<(), Fail> {
    let alloc = rt.alloc();
    for (without, root) in [(0, 0x41ad8efd338694b1), (334, 0xac57286914178e52)] {
        let trie = many(alloc, without)?;
        assert!(rt; trie.settled());
        assert_eq!(rt; front(&trie.root()), root);
    }
    Ok(())
}

// A trie of five keys: each begins with another byte from 1 to 5, and goes on with 7.
fn fan(alloc: Global) -> Result<Trie, Fail> {
    let mut trie: Trie = Trie::new(alloc);
    for first in 1..6 {
        changed(&mut trie, written(key(first, 7, 0), first))?;
    }
    Ok(trie)
}

// How many next bytes there are after a prefix, and their sum.
fn next_bytes(trie: &Trie, prefix: &[u8]) -> Result<(usize, u64), Fail>
    requires { queued trie.now ≡ 0 }
{
    let children = trie.children(prefix)?;
    let mut sum: u64 = 0;
    for (byte, _) in &children {
        sum = sum.saturating_add(u64::from(*byte));
    }
    Ok((children.len(), sum))
}

// The same at the empty prefix, at one with one byte below and at one with none.
fn next_bytes_at_three(trie: &Trie) -> Result<[(usize, u64); 3], Fail>
    requires { queued trie.now ≡ 0 }
{
    let top = next_bytes(trie, &[])?;
    let below = next_bytes(trie, &[3])?;
    let absent = next_bytes(trie, &[6])?;
    Ok([top, below, absent])
}

#[test]
fn what_stands_below_a_prefix(rt: HostRuntime) -> Result<(), Fail> {
    let trie = fan(rt.alloc())?;
    assert!(rt; trie.settled());
    assert_eq!(rt; next_bytes_at_three(&trie)?, [(5, 15), (1, 7), (0, 0)]);
    assert_eq!(rt;
        (trie.only(&[4]).is_some(), trie.only(&[]).is_none()),
        (true, true)
    );
    Ok(())
}
