//! A read phase and a range phase as they wait for answers.
//!
//! Each asks three nodes. A `ReadCall` gives the merged row, and a `RangeCall` the window of the merged rows, exactly
//! at the answer of the second different node. A node that answers again, and one that wasn't asked, counts nothing.
//! Both stand for the nodes that they ask and the list of answers so far.
#![tactic(auto)]

mod progress;
mod range;
mod read;
mod window;

pub use range::RangeCall;
pub use read::ReadCall;
