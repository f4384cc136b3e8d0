//! The text of a layout as a page of HTML: how full each node is, which partitions it has, and the cut.
//!
//! `plan` reads the lines of a layout, `places` says which nodes there are, by the configuration that stands before the
//! layout where there is one, `rooms` draws nodes and partitions, `cut` draws the line of the cut, `tally` says what crosses it,
//! and `page` puts the page together.
#![tactic(auto)]

mod cut;
mod page;
mod places;
mod plan;
mod rooms;
mod style;
mod tally;

pub use crate::page::{LayoutStop, layout_page};
