//! What the lines of a transcript say, and the account of requests that they give, with the events of its schedule at hand.
//!
//! `read` cuts a text into its lines (`lines`) and reads each by transcript_text. What a line says adds to what was heard
//! before (`steps`): an event is looked up in the schedule, and where it asks something (`asking`) a request begins; a
//! request that finishes or ends has begun, and its record is made of the line's words (`words`); a list that finishes
//! with keys takes these from the lines that follow. `heard` keeps all that.
#![tactic(auto)]

mod asking;
mod heard;
mod lines;
mod steps;
mod words;

pub use lines::{Reading, Text, read};
