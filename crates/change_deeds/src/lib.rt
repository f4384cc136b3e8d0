//! What is done to a cluster in a layout change, as a list: who shows its view to whom, who acts, and when all messages
//! are delivered (`deeds`), among the nodes that take part (`members`).
#![tactic(auto)]

mod deeds;
mod members;

pub use crate::deeds::{Deed, deeds_past_apply};
pub use crate::members::{nodes_of, of_both};
