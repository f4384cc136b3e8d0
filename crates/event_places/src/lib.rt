//! Events of a schedule by their lines.
//!
//! The lines of a schedule's events ascend, so an event is found by a binary search; a line of a transcript gives its event's
//! name too, which has to be the event's own.
#![tactic(auto)]

mod places;

pub use places::event_at;
