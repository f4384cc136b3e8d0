//! What a node does in the background: rows wait to be confirmed, and blocks wait to be deleted.
//!
//! A `Resync` is the node's outbox, a list of numbered items. Each holds a row's bytes, which the node sends
//! to the nodes of the row's sets until two of each set have confirmed it; then it leaves the list. The row's
//! partition, which says its sets, stands beside the bytes. Numbers count from 1 and come once. A restart keeps
//! the items and loses their confirmations.
//!
//! `Resync::due` gives the blocks of a store that may go: those whose last live reference ended 600,000
//! milliseconds ago or more.
//!
//! Contracts see a `Resync` as its `Outbox`, and each call is one step of it. `push`, `confirm` and `due`
//! take memory.
#![tactic(auto)]

mod item;
mod nodes;
mod resync;

pub use item::Item;
pub use resync::Resync;
