//! Which layouts the lines of a transcript print, and whether each is lawful for what is staged.
//!
//! `judge` goes through what the lines say once, with the roles and the redundancy that are staged (`stage`). Where a `size`
//! line follows on an accepted apply (`lines`), the sets are read from the lines after it (`sets`) and the cut's vertices
//! (`side`), and are judged by layout_judge: the sets have to fit the size, and the cut has to be a light one of the network
//! for the size plus 1 (`cuts`, `prints`). What isn't printed costs no more than the look at its line.
#![tactic(auto)]

mod cuts;
mod judging;
mod laws;
mod lines;
mod prints;
mod sets;
mod sheet;
mod side;
mod stage;

pub use judging::judge;
pub use laws::sheets_are_of_prints;
pub use sheet::{Judged, Sheet};
