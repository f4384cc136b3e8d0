//! `replay` and `replay --check`: the schedule that the input spells is replayed, and an account of it is written.
//!
//! `run_replay` is the command with its input and output (`Replays`). `schedule` reads the events, replay_run writes the
//! account of them, and `stop` is why it gave up; `schedule_of` and `bad_line` serve other commands over a schedule too. The
//! law `some_replay_is_stated` says that for each input an answer is stated.
#![tactic(auto)]

mod command;
mod laws;
mod schedule;
mod stop;

pub use command::{bad_line, run_replay};
pub use laws::some_replay_is_stated;
pub use schedule::schedule_of;
pub use stop::Stop;
