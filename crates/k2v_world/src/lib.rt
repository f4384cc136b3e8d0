//! Requests for items that many may write at once, over the cluster, event by event.
//!
//! An `ItemWorld` stands for a state of a run over items (k2v_model). `ItemWorld::step` takes the next event of a schedule:
//! requests begin (`begins`), go on when a phase of theirs ends (`follow`), and are over; each event answers an `ItemTold`
//! (k2v_text). An apply computes its layout; which one is free, and it is lawful. A call fails only for want of memory, or
//! where a number or a row would not fit. After an error the world is given up.
//!
//! `Asked` is what is kept of a request, `rows` says what a request makes of the row that it read, and `events` has the
//! orders of a schedule. Values are shared between rows, messages and requests, and never copied.
#![tactic(auto)]

mod asked;
mod events;
mod rows;
mod told;
mod world;

pub use world::ItemWorld;
pub use world_core::NodeLine;
