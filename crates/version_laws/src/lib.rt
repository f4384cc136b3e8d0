//! What holds of views, read versions and rounds, over every list of steps of the control plane.
//!
//! No function does anything: each is called for its contract. They speak of any type `L` of layouts with a
//! `Reading`, of any count of partitions above 0, and of every world that steps lead to from the empty one
//! (`IsReached`), so of every order of gossip, of lost and repeated messages, and of restarts.
//!
//! - Views (`views`): a read version is stored; nothing falls; a node's own entries are the greatest; views
//!   travel whole; nodes agree on layouts.
//! - Pace (`pace`): whoever was a member of a dropped version reads a later one; a request in flight holds back
//!   its coordinator's ack, every read version and every round; a member of its newest version reads one that
//!   no node is past; the greatest read version rises by one at a time, after two nodes of each set have
//!   completed a round to it.
//! - `safe` and `moves` say all of it at once, for the crates above.
//! - `views_in_short` says of single views what the proofs read in them. `a_version_is_dropped` is one run,
//!   computed, in which a version is applied, read and dropped.
#![tactic(auto)]

mod example;
mod pace;
mod short;
mod views;
mod whole;

pub use example::a_version_is_dropped;
pub use pace::{
    dropped_versions_were_passed, members_read_recent_versions, read_versions_rise_by_one,
    requests_hold_back, rounds_follow_read_versions,
};
pub use short::views_in_short;
pub use views::{
    layouts_agree, nothing_falls, own_entries_are_greatest, versions_are_in_order,
    views_travel_whole,
};
pub use whole::{moves, safe};
