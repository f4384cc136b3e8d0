//! The cluster over layout versions: its nodes, every message that was ever sent, the time, what is staged, and the
//! requests.
//!
//! A `World` stands for a world of the machine (`cluster_machine`, with the layouts of the code), by `StandsFor` of
//! specs/Stands.antt. `World::step` is one step of the machine: whatever world it stood for, it stands for the next one,
//! and its `Report` is what the machine's step answers (`Steps`). An apply computes its layout, and which one is free:
//! it is lawful. `install` puts a first layout into the views of its nodes, all or none; `forget_delivered` keeps the
//! relation too, and the rest reads the world. Rows are known by their schema alone.
//!
//! Inside are the parts, each with a relation of its own: `Nodes` (a node that nothing happened to takes no room), `Post`
//! (a slot for each message but those that are over, the least undelivered one known at once), `Clocks` and `Requests`;
//! `staged` changes the staged roles, `decide` computes a layout. A step costs what its node's part costs, and constant
//! time per message.
//!
//! The rows of a store phase come each with the block that it needs, and no other. So every node has the blocks of its
//! rows, and every message that was ever sent has them beside its rows (`AllStocked`), which each step keeps.
//! After `Memory` in `step` the world is given up. `Full` comes only where a number or a row would not fit (`HasRoom`).
#![tactic(auto)]

mod clocks;
mod decide;
mod first;
mod lines;
mod node_line;
mod nodes;
mod post;
mod report;
mod requests;
mod staging;
mod with_sync;
mod world;

pub use node_line::NodeLine;
pub use report::Report;
pub use world::World;
