//! The replay of a schedule: its events one after the other in a store, and an account of what they tell.
//!
//! `replay` takes the events of a schedule and writes what each tells when it is whole, and at last the lines of the nodes
//! and the end line; with a check (`Account`) a line before it that says whether all answered reads were fresh, told from
//! the records; of a summary nothing but numbers, those lines and the check. A run is one of steps: each event is one, and of a drain each delivery. After each step it is looked at
//! whether everything fits and whether no more was sent than may be; the first step after which this isn't so ends the
//! replay before its event is written (`ReplayStop`), and whoever called `replay` writes the line of that limit.
//!
//! `steps` takes events step by step, `tail` has what is written after the last event, with `check` and `summary`, and
//! `transcript` writes.
//!
//! `event_text` takes one event and `tail_text` has what follows the last one, for whoever plays events otherwise than `replay`
//! does.
//!
//! `every_replay_ends` is the law that a replay of a schedule's events has a stated end, `lawful_turns_end_once` that for
//! given lawful layouts it has one, `first_turns_go_further` that what is written of the first events is the first part of a
//! text that is stated for all, and `no_replay_lacks_room` that it ends neither for lack of room nor with a node that can't be
//! shown.
#![tactic(auto)]

mod account;
mod check;
mod laws;
mod steps;
mod stop;
mod summary;
mod tail;
mod transcript;

pub use account::Account;
pub use laws::{
    every_replay_ends, first_turns_go_further, lawful_turns_end_once, no_replay_lacks_room,
};
pub use steps::SENT_LIMIT;
pub use stop::ReplayStop;
pub use tail::tail_text;
pub use transcript::{event_text, replay};
