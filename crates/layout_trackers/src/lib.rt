//! What a node knows of how far each node of the cluster has come, by layout version.
//!
//! A node keeps three trackers, each a map from nodes to layout versions:
//!
//! - `ack`: no request in flight at the node began before this version was the newest there.
//! - `sync`: the node has pushed its rows to the nodes of this version.
//! - `sync_ack`: the node reads at this version.
//!
//! A node raises its own entries alone, by `set_own`, and sends its trackers as a whole. `Trackers` merge to
//! the greater version at each node, so they never fall, in whatever order and however often they arrive
//! (`trackers_grow`). A node without an entry counts as one of a version that the caller names, which is the
//! oldest that it stores.
#![tactic(auto)]

mod laws;
mod trackers;
mod which;

pub use laws::{trackers_grow, versions_compare};
pub use trackers::Trackers;
pub use which::Which;
