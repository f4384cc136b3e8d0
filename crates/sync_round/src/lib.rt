//! A round: a node sends what it has of each partition to the partition's next nodes, and waits for them.
//!
//! A `Round` leads to a target version. It begins with the partitions that the node sends, each with the
//! three nodes of its set in that version. The node itself counts as one that has confirmed, in each set
//! that has it. A round is complete once two of the three nodes of each partition have confirmed it;
//! `Round::open_parts` says which nodes haven't, whether or not two have.
//!
//! A `Round` stands for its target, its partitions, its own node and the list of confirmations so far. Only
//! `new` and `open_parts` take memory.
#![tactic(auto)]

mod marks;
mod round;

pub use round::Round;
