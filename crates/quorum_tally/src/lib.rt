//! Which nodes of the sets of consecutive layout versions have confirmed a row, and whether two of each have.
//!
//! `Marks` are the three nodes of a set, each with its mark: whether it has confirmed. A `Tally` stands for
//! its first version, its sets and the list of confirmations so far.
#![tactic(auto)]

mod marks;
mod tally;

pub use marks::{Mark, Marks};
pub use tally::Tally;
