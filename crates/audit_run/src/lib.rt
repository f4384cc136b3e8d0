//! `audit`: a schedule and the transcript behind it are judged, without any search for the layouts that the transcript
//! prints.
//!
//! `run_audit` is the command with its input and output (`Audits`). `parts` cuts the input at its first line `---`; then the
//! schedule is read as a replay reads it, and `findings` goes on in the order in which findings come: audit_reading reads
//! the transcript's lines, world_history looks whether the account that they give is fresh, audit_prints judges the layouts
//! that they print, and audit_play compares the run that is given these layouts with the transcript. One line is written,
//! that of the first of these that finds something; `reply` has the lines. The law `some_audit_is_stated` says that for each
//! input an answer is stated.
#![tactic(auto)]

mod command;
mod findings;
mod laws;
mod parts;
mod reply;

pub use command::run_audit;
pub use laws::some_audit_is_stated;
