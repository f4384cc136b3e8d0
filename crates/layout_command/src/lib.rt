//! The command `layout`: from the bytes of a configuration to the text that answers it.
//!
//! `answer` is the whole command but for reading and writing: it reads a configuration in TOML, computes the
//! greatest partition size for it, and writes the layout with its cut, or the line that says why there is
//! none. Which greatest assignment is printed is free; `one_status` says that the status isn't, and
//! `every_configuration_is_answered` that each input has an answer.
//!
//! `moves_answer` is the command with `--moves`: the configuration gives the sets of an older layout too, and of the
//! greatest assignments one is printed that moves the fewest copies from them, with their number and with potentials
//! of the flow network, which show that no assignment of that size moves fewer. Its status is one as well
//! (`one_moves_status`).
//!
//! `run_layout` is the command with its input and output, with or without `--moves` (`Goal`).
#![tactic(auto)]

mod command;
mod laws;
mod moves;
mod potentials;
mod refusals;
mod reply;

pub use command::{Goal, run_layout};
pub use laws::{
    every_configuration_is_answered, one_moves_status, one_status, some_layout_is_stated,
};
pub use moves::moves_answer;
pub use refusals::{bad_field, bad_toml, reason};
pub use reply::{Reply, answer};
