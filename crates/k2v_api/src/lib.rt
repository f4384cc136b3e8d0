//! `k2v`: the schedule over items that the input spells is replayed, and its transcript is written.
//!
//! `k2v` is the command with its input and output. k2v_lines reads the events of the schedule; `steps` takes them one by
//! one, of a drain each delivery; `tail` has what is written after the last event, and `transcript` writes. After each step
//! it is looked at whether everything fits and whether no more was sent than may be; the first step after which this isn't
//! so ends the replay before its event is written. `Stop` is why it gave up.
#![tactic(auto)]

mod command;
mod laws;
mod steps;
mod stop;
mod tail;
mod transcript;

pub use command::k2v;
pub use laws::some_item_replay_is_stated;
