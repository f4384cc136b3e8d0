//! A store phase as it waits for confirmations: when each of its rows is kept.
//!
//! A `WriteCall` has a `Tally` for each row of the phase, its slots. It stands for the slots in order, each with the
//! version of its first set, its sets, and the nodes that have confirmed.
#![tactic(auto)]

mod call;

pub use call::WriteCall;
