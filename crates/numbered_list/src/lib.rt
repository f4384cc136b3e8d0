//! Lists of items that are numbered in the order in which they came.
//!
//! Numbers count from 1 and none comes twice, so the numbers of a list from which items leave still ascend, and the item
//! with a number is found by a binary search. `Numbered` is what has a number, and `place_of` says where the item with a
//! number stands.
//!
//! `specs/Numbers.antt` says which lists these are (`AreNumbered`). What becomes of one where an item changes, leaves or
//! comes is in proofs/, for the crates that keep such lists.
#![tactic(auto)]

mod numbered;

pub use numbered::{Numbered, place_of};
