//! Reads a schedule over items, and writes what its events tell.
//!
//! `parse_items` gives the events that the lines of a schedule spell, at most 100,000, or the first line outside the grammar;
//! `item_line` reads one line alone. A line is one of schedule_text's, but for objects and blocks, or a request for an item,
//! whose words `words` reads. `told_text` writes an event's own line and then the lines of what happened, and `item_name` is
//! an event's first word. Which line spells which event, and the text, is said by k2v_text.
#![tactic(auto)]

mod line;
mod schedule;
mod told;
mod words;

pub use line::item_line;
pub use schedule::parse_items;
pub use told::{item_name, told_text};
