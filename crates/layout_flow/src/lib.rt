//! The flow network of a layout: an assignment that fits a partition size, or the cut that shows that none does.
#![tactic(auto)]

mod answer;
mod groups;
mod laws;
mod network;
mod rows;
mod side;
mod totals;

pub use answer::FlowOrCut;
pub use groups::by_zone;
pub use laws::{flows, light_cuts};
pub use layout_roles::{Cut, Vertex};
pub use network::Network;
