//! How a replay of a schedule over items ends, and what is owed at each moment of it. Laws on definitions alone.
//!
//! A run is one of steps: each event is one, and of a drain each delivery. After each step a replay goes on where everything
//! fits and no more was sent than 268,435,456 bytes. `every_item_replay_ends` is the law that a replay of a schedule's events
//! has a stated end, `item_turns_end_once` that for given lawful layouts it has one, `first_item_turns_go_further` that what is
//! written of the first events is the first part of a text that is stated for all, and `no_item_replay_lacks_room` that it
//! ends neither for lack of room nor with a node that can't be shown. `moments_keep_items` is what holds at each moment of
//! turns that were played. No body does more than name laws: each is called for its contract.
#![tactic(auto)]

mod laws;
mod moments;

pub use laws::{
    every_item_replay_ends, first_item_turns_go_further, item_turns_end_once,
    no_item_replay_lacks_room,
};
pub use moments::moments_keep_items;
