//! Bytes that came at once or piece by piece.
ghost use Rattle.std.specs.Prelude.{◌≡◌, ℕ, List, ◌++◌, [], length, take, OnOk, OnErr, IfOk, IfSome};
ghost use Rattle.std.specs.List.{concat};
ghost use Rattle.blake2_hash.specs.Hash.{digest_of};
ghost use Rattle.md5.specs.Md5.{md5};
ghost use Rattle.crdt_core.specs.Outcomes.{OnlyWant};

use blake2_hash::{Hash32, blake2b_256};
use block_bytes::Block;
use crdt_core::{Bytes, List, Memory};
use md5::{Digest, Md5};
use std::alloc::Global;
use std::marker::Model;

/// Bytes that came at once, and after them blocks, one after the other. Others own these blocks too, so none of their
/// bytes is copied.
#[derive(Drop)]
pub struct Pieces {
    whole: Bytes,
    blocks: List<Block>,
    size: usize,
}

impl Model for Pieces {
    ghost use Rattle.std.specs.Prelude.{List, ℕ, ◌≡◌, ◌++◌, length};
    ghost use Rattle.std.specs.List.{concat};

    ghost Value = { List ℕ };

    ghost view = { λ p. p.whole ++ concat p.blocks };

    ghost invariant = { λ p. p.size ≡ length (p.whole ++ concat p.blocks) };
}

impl Pieces {
    /// No bytes. Takes no memory.
    pub fn new(alloc: Global) -> Pieces
        ensures { result ≡ [] }
    {
        Pieces::from_bytes(Bytes::new(alloc))
    }

    /// Bytes that came at once. Takes no memory, and hashes nothing.
    pub fn from_bytes(whole: Bytes) -> Pieces
        ensures { result ≡ whole }
    {
        let blocks = List::new(whole.allocator());
        let size = whole.len();
        Pieces {
            whole,
            blocks,
            size,
        }
    }

    /// What is left without its first bytes: these blocks, which have all the others. Takes no memory.
    pub fn into_rest(self, rest: List<Block>) -> Pieces
        requires { (first : List ℕ) × (first ++ concat rest ≡ self) }
        ensures { result ≡ concat rest }
    {
        let mut gone = self.size;
        for block in rest.as_slice() {
            gone -= block.len();
        }
        Pieces {
            whole: Bytes::new(rest.allocator()),
            blocks: rest,
            size: self.size - gone,
        }
    }

    /// All the bytes in one place. Copies none where they came at once, and takes no memory then.
    pub fn into_bytes(self) -> Result<Bytes, Memory>
        ensures same { IfOk result (λ bytes. bytes ≡ self) }
        ensures want { OnlyWant result }
    {
        let mut bytes = self.whole;
        for block in self.blocks.as_slice() {
            bytes.extend_from_slice(block.as_slice())?;
        }
        Ok(bytes)
    }

    pub fn len(&self) -> usize
        ensures { result ≡ length self.now }
    {
        self.size
    }

    /// The next block comes. More bytes than can be counted are never had, and count as want of memory.
    pub fn push(&mut self, block: Block) -> Result<(), Memory>
        ensures ok { OnOk result (self.new ≡ self.old ++ block) }
        ensures same { OnErr result (self.new ≡ self.old) }
        ensures want { OnlyWant result }
    {
        let Some(size) = self.size.checked_add(block.len()) else {
            return Err(Memory::Want);
        };
        self.blocks.push(block)?;
        self.size = size;
        Ok(())
    }

    /// The MD5 of all the bytes. Takes no memory.
    pub fn md5(&self) -> [u8; 16]
        ensures { result ≡ md5 self.now }
    {
        let mut hasher = Md5::new();
        hasher.update(self.whole.as_slice());
        for block in self.blocks.as_slice() {
            hasher.update(block.as_slice());
        }
        hasher.finalize()
    }

    /// The hash of the first `size` bytes, or of all where there are fewer. Hashes nothing where they came block by block
    /// and the first block is just these.
    pub fn first_hash(self, size: u32) -> Result<Hash32, Memory>
        ensures is { IfOk result (λ hash. hash ≡ digest_of (take size self)) }
        ensures want { OnlyWant result }
    {
        if let Some(hash) = self.known_hash(size) {
            return Ok(hash);
        }
        let bytes = self.into_bytes()?;
        let count = bytes.len().min(size as usize);
        Ok(blake2b_256(&bytes.as_slice()[..count]))
    }

    // The same where the first block is just these.
    fn known_hash(&self, size: u32) -> Option<Hash32>
        ensures { IfSome result (λ hash. hash ≡ digest_of (take size self.now)) }
    {
        if self.whole.len() > 0 {
            return None;
        }
        match self.blocks.as_slice() {
            [first, ..] if first.len() == size as usize => Some(*first.hash()),
            [only] if only.len() <= size as usize => Some(*only.hash()),
            _ => None,
        }
    }
}
