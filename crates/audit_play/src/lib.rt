//! A schedule's run, given the layouts that a transcript prints, compared with that transcript.
//!
//! `compare` takes the events one after the other in a store (s3_world). An apply is given the layout of its sheet
//! (audit_prints), where one is printed for its line and is of what is staged; each other event goes as in a replay
//! (replay_run). The text of each event is compared with what comes next in the transcript (`parting`), so the text of one
//! event alone is in memory; at last the lines of the nodes and the end line are. What it comes to is `Compared`: all is the
//! same, the first line that differs, or that more was sent than may be.
//!
//! `sheets` finds what an apply is given, `staged` looks whether that is of what is staged, `turns` takes an event and gives
//! its text, and `comparing` goes through all.
#![tactic(auto)]

mod compared;
mod comparing;
mod parting;
mod sheets;
mod staged;
mod turns;

pub use compared::Compared;
pub use comparing::compare;
