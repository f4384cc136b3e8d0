//! A transcript as a page of HTML with one drawing in SVG, and what the page of a layout needs of it.
//!
//! `transcript_page` reads a transcript line by line into a scene (`line` reads a line, `plan` a line of the schedule that may
//! stand before it, `scene` follows what the lines tell, `arrows` draws messages, `marks` what else stands at the lanes), and `page` puts the drawing together with its style and the script of its filter,
//! which are fixed texts (`style`, `script`). `pieces` adds text, numbers and words of the input to a page; words of the
//! input are escaped there. `words` reads numbers.
#![tactic(auto)]

mod arrows;
mod fault;
mod line;
mod marks;
mod page;
mod pieces;
mod plan;
mod scene;
mod script;
mod style;
mod transcript;
mod words;

pub use crate::fault::{Fault, Stop};
pub use crate::line::is_layout_line;
pub use crate::pieces::{Piece, add, add_all, escape};
pub use crate::transcript::{transcript_page, without_last_feed};
pub use crate::words::{is_one_of, node_of, number_of};
