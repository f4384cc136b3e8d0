//! The bytes of an object, which are cut into blocks one by one.
ghost use Rattle.std.specs.Prelude.{◌≡◌, ◌≤◌, length, take, drop, IfOk, None, Some};
ghost use Rattle.crdt_core.specs.Outcomes.{OnlyWant};
ghost use Rattle.blake2_hash.specs.Hash.{digest_of};

use blake2_hash::{Hash32, blake2b_256};
use block_bytes::Block;
use crdt_core::{Bytes, Memory};
use std::alloc::Global;
use std::marker::Model;

/// The bytes of an object. Once the first block was cut, its hash is known.
#[derive(Drop)]
pub struct ObjectBytes {
    bytes: Bytes,
    first: Option<FirstBlock>,
}

/// How many bytes a block had when the first one was cut, and its hash.
#[derive(Clone, Copy)]
struct FirstBlock {
    size: u32,
    hash: Hash32,
}

impl Model for ObjectBytes {
    ghost use Rattle.std.specs.Prelude.{List, ℕ, ◌≡◌, take, IfSome};
    ghost use Rattle.blake2_hash.specs.Hash.{digest_of};

    ghost Value = { List ℕ };

    ghost view = { λ b. b.bytes };

    ghost invariant = { λ b. IfSome b.first (λ f. f.hash ≡ digest_of (take f.size b.bytes)) };
}

impl ObjectBytes {
    /// Takes no memory.
    pub fn new(bytes: Bytes) -> ObjectBytes
        ensures { result ≡ bytes }
    {
        ObjectBytes { bytes, first: None }
    }

    /// Takes no memory.
    pub fn into_bytes(self) -> Bytes
        ensures { result ≡ self }
    {
        self.bytes
    }

    pub fn as_slice(&self) -> &[u8]
        ensures { result.now ≡ self.now }
    {
        self.bytes.as_slice()
    }

    pub fn len(&self) -> usize
        ensures { result ≡ length self.now }
    {
        self.bytes.len()
    }

    /// The block that begins at an offset: `size` bytes, or the rest where it is shorter. Copies and hashes them.
    pub fn cut(&mut self, alloc: Global, size: u32, offset: usize) -> Result<Block, Memory>
        requires { offset ≤ length self.old }
        ensures piece { IfOk result (λ block. block ≡ take size (drop offset self.old)) }
        ensures same { self.new ≡ self.old }
        ensures want { OnlyWant result }
    {
        let piece = piece_at(size, self.bytes.as_slice(), offset);
        let block = Block::new(alloc, Bytes::from_slice(alloc, piece)?)?;
        if offset == 0 {
            self.first = Some(FirstBlock {
                size,
                hash: *block.hash(),
            });
        }
        Ok(block)
    }

    /// The hash of the first block of `size` bytes. Hashes nothing where this block was the last first one to be cut.
    pub fn first_hash(&self, size: u32) -> Hash32
        ensures { result ≡ digest_of (take size self.now) }
    {
        match self.first {
            Some(first) if first.size == size => first.hash,
            _ => blake2b_256(piece_at(size, self.bytes.as_slice(), 0)),
        }
    }
}

// So many bytes from an offset on, or the rest where it is shorter.
fn piece_at(size: u32, bytes: &[u8], offset: usize) -> &[u8]
    requires { offset ≤ length bytes.now }
    ensures { result.now ≡ take size (drop offset bytes.now) }
{
    let rest = &bytes[offset..];
    let count = rest.len().min(size as usize);
    &rest[..count]
}
