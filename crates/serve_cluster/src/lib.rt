//! The cluster as a store that carries out jobs.
//!
//! A `Cluster` is a world (s3_world) with the members of its one layout version. It carries out an order by the acts that
//! serve_model lists: the world's time goes on, the first member asks, all messages are delivered, all members work twice,
//! the end is taken, and delivered messages are forgotten. So a server over it (serve_loop) goes through states of a run,
//! and what is proved of every list of acts holds of what it does. A get may be taken piece by piece, by the same acts: its
//! messages are delivered one after the other, and what it finds and its blocks are handed out as they come (`getting`). An
//! upload is given block by block, with all messages delivered after each, and then kept or given up.
//!
//! A `Changing` is a cluster with layout changes to come: once so many requests have reached it, the next change is made,
//! after the job. Its acts are those of serve_changes: its roles are staged, and the layout that was computed before is
//! applied (`change`), and then it is told, acknowledged, rows are moved, and older versions are dropped (change_deeds).
#![tactic(auto)]

mod acts;
mod change;
mod changing;
mod cluster;
mod getting;

pub use crate::change::Change;
pub use crate::changing::Changing;
pub use crate::cluster::Cluster;
