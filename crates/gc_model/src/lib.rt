//! Collections of delete markers that a node has open: what one is, and what each answer makes of it.
//!
//! A collection has two rounds. In each of them all 16 nodes are asked to confirm a row that has nothing but a delete
//! marker, and the second one begins only where the first is complete. specs/Rounds.antt says who has confirmed and
//! specs/Collecting.antt what is open and where answers lead. Messages, rows and clocks are the cluster's.
#![tactic(auto)]

mod collection;

pub use collection::{Collection, GcEnd};
