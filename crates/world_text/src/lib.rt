//! The lines of the nodes of a world, as text: `nodes_text`.
#![tactic(auto)]

mod nodes;

pub use crate::nodes::nodes_text;
