//! A node's view: the layout versions that it stores, and how far it knows each node to have come.
//!
//! A view has the layouts from the oldest stored version to the newest without a gap, and the three
//! trackers. Two views merge to one that has the greater oldest and the greater newest version and the
//! greater entries, so a view that is sent around tells each node what any of them knows.
//!
//! From a view a node takes at which version it reads (`View::read_version`), up to which version no request
//! may still be in flight among the members (`View::ack_least`), and which versions nobody needs any more
//! (`View::clean`). A version is read once it is established, which is when in each of the 256 partitions
//! two of the three nodes of the version before have synced to it (`View::established`). A member of a version
//! is a node that has a role in it, a gateway too, and a node without an entry counts as of the oldest stored
//! version.
//!
//! Each call is the sentence of `view_model` of the same name on the view that `known` gives.
#![tactic(auto)]

mod layouts;
mod synced;
mod view;

pub use view::View;
