//! A block of an object: bytes that several owners share, with their BLAKE2b-256, which is taken once.
//!
//! A put sends each block to three nodes, and each of them keeps it and gives it to readers. All of these have one
//! `Block`: `share` gives another owner the same bytes, and `hash` is the digest that was taken when the block was made.
//!
//! Contracts see a `Block` as its bytes. Only `new` and `share` may fail, for want of memory or where there are more
//! owners than can be counted.
#![tactic(auto)]

mod block;

pub use block::Block;
