//! Roles that are staged, one node's after another's.
//!
//! `staged` puts a node's role among others, changes it or takes it out; `with_trio` stages the three roles of the first layout.
#![tactic(auto)]

mod staging;

pub use staging::{staged, with_trio};
