//! The words of a schedule over items and of its transcript, as definitions.
//!
//! An `ItemEvent` is a line of such a schedule: one that schedules of objects have too and that concerns no object and no
//! blocks, or a request for an item. In specs/: which line spells which event (`Grammar`), the event that is read of a line
//! (`Reading`), what a whole text spells (`Schedule`), the act that an event is (`Events`), the steps of a replay (`Played`),
//! and the text of what a run tells (`Transcript`).
#![tactic(auto)]

mod event;
mod laws;

pub use event::{ItemEvent, ItemTold, NumberedItemEvent};
pub use laws::{every_item_line_reads, every_item_text_reads, item_lines_are_worded};
