//! Reads a schedule: the events that its lines spell, at most 100,000, or the first line outside the grammar.
//!
//! `parse` goes line by line. A line is cut at its spaces (`line`); its first word says which event it is (`line_kind`), and
//! the others are numbers (`numbers`), names (`names`), a request's node, bucket and key (`places`) and roles (`roles`) in
//! their ranges. Empty lines and those that begin with `#` are no events (`is_blank`), but count as lines. `event_line` reads
//! one line alone, and `first_line` cuts one off. `decimal_number` reads a number as the grammar writes it; `number`,
//! `number_alone`, `zone_name`, `object_key` and `is` read words of other lines too. `every_text_reads` is the law that each
//! text is a schedule, has a first bad line, or has too many events.
#![tactic(auto)]

mod fault;
mod laws;
mod line;
mod line_kind;
mod names;
mod numbers;
mod places;
mod roles;
mod schedule;

pub use fault::{LineFault, ScheduleFault};
pub use laws::every_text_reads;
pub use line::event_line;
pub use names::{is, object_key, zone_name};
pub use numbers::{decimal_number, number, number_alone};
pub use schedule::{EVENTS_LIMIT, first_line, is_blank, parse};
pub use store_model::{Event, Numbered};
