//! The collections of a node: each asks all nodes, twice, whether a delete marker may be forgotten.
//!
//! A row that has nothing but a delete marker can be dropped once no older version of it can come back. So a node
//! opens a `Collection` of the row: in its first round each of the 16 nodes confirms that it has the marker, and
//! says which layout version is its newest. Some hours after all have confirmed, in the second round, each confirms
//! it again. Where a node's newest version isn't the one that it gave first, rows may have moved meanwhile, and the
//! collection is closed.
//!
//! `Collections` is the list of those that are open, numbered from 1 in the order in which they began. It knows
//! neither rows nor messages: `begin` and `second` begin the rounds, `missing` says whom to ask, `tombed` takes the
//! answers and says where they lead (`GcEnd`), and `close` ends a collection. Contracts see it as the record `Open` of
//! gc_model, and each call is one step of that. A collection is found by its number by a binary search of the list, and
//! by its row's key in an ordered map (src/keys.rt). `begin`, `second`, `tombed` and `missing` take memory.
#![tactic(auto)]

mod collection;
mod collections;
mod keys;

pub use collections::Collections;
