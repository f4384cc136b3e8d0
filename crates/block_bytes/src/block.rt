//! Bytes with their digest, shared.
ghost use Rattle.std.specs.Prelude.{◌≡◌, length, IfOk};
ghost use Rattle.crdt_core.specs.Outcomes.{OnlyWant};
ghost use Rattle.blake2_hash.specs.Hash.{digest_of};

use blake2_hash::{Hash32, blake2b_256};
use crdt_core::{Bytes, Memory};
use std::alloc::Global;
use std::marker::Model;
use std::rc::Rc;

/// The bytes of a block, which may have several owners.
#[derive(Drop)]
pub struct Block {
    bytes: Rc<Bytes, Global>,
    hash: Hash32,
}

impl Model for Block {
    ghost use Rattle.std.specs.Prelude.{List, ℕ, ◌≡◌};
    ghost use Rattle.blake2_hash.specs.Hash.{digest_of};

    ghost Value = { List ℕ };

    ghost view = { λ b. b.bytes.value };

    ghost invariant = { λ b. b.hash ≡ digest_of b.bytes.value };
}

impl Block {
    /// A block of these bytes. Hashes them.
    pub fn new(alloc: Global, bytes: Bytes) -> Result<Block, Memory>
        ensures same { IfOk result (λ block. block ≡ bytes) }
        ensures want { OnlyWant result }
    {
        let hash = blake2b_256(bytes.as_slice());
        let bytes = Rc::new(alloc, bytes)?;
        Ok(Block { bytes, hash })
    }

    /// The same bytes for another owner. Copies and hashes none.
    pub fn share(&self) -> Result<Block, Memory>
        ensures same { IfOk result (λ block. block ≡ self.now) }
        ensures want { OnlyWant result }
    {
        let bytes = self.bytes.clone()?;
        Ok(Block {
            bytes,
            hash: self.hash,
        })
    }

    pub fn as_slice(&self) -> &[u8]
        ensures { result.now ≡ self.now }
    {
        self.bytes.as_slice()
    }

    pub fn len(&self) -> usize
        ensures { result ≡ length self.now }
    {
        self.bytes.len()
    }

    /// The BLAKE2b-256 of the bytes. Hashes nothing.
    pub fn hash(&self) -> &Hash32
        ensures { result.now ≡ digest_of self.now }
    {
        &self.hash
    }
}
