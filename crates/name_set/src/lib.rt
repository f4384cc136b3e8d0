//! Names in the order in which they came, each found without a walk of all.
//!
//! To contracts `Names` is their list; beside it stands an ordered set of them, which no contract but `has` shows.
#![tactic(auto)]

mod names;

pub use names::Names;
