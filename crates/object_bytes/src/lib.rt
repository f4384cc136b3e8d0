//! The bytes of an object: `ObjectBytes` of one that is written, which are cut into blocks, and `Pieces` of one that is read.
//!
//! `cut` makes the block that begins at an offset, and `first_hash` names the first one, by which the object's row knows it:
//! once it was cut its hash is kept, so that each byte of an object is hashed once. Contracts see both as
//! their bytes. Of an `ObjectBytes` only `cut` takes memory.
#![tactic(auto)]

mod body;
mod pieces;

pub use body::ObjectBytes;
pub use pieces::Pieces;
