//! The blocks of a node: bytes under their BLAKE2b-256, with how often each is live and since when it isn't.
//!
//! A node keeps a block once, whatever number of live references there are to it. Each reference that
//! becomes live is told by `Blocks::live`, and each that ends by `Blocks::dead` with the node's clock. When
//! the last one ends, the moment is noted. A block goes by `Blocks::delete`, which refuses one that is in
//! use. `Blocks::idle` gives the blocks whose references have all ended, each with its moment; what is done
//! with them, and when, is the caller's. The moments stand in order too: `Blocks::idle_until` looks at those
//! that are old enough and at one more, however many blocks there are.
//!
//! Contracts see a `Blocks` as its contents: a list of blocks, a list of live references and a list of
//! notes. Each call is one step of these lists, which `specs/Contents.antt` has, and `calls_by_hash` says what
//! a step makes of one hash. Only `put`, `idle` and `idle_until` can end for want of memory: `put` makes the
//! room for a block's count and note. `dead` takes some for a moment in order. Where it gets none, the order is
//! given up, and idle blocks are found by a walk of all from then on.
#![tactic(auto)]

mod blocks;
mod fault;
mod laws;
mod moments;
mod shelf;

pub use blocks::Blocks;
pub use fault::BlockFault;
pub use laws::calls_by_hash;
