//! The generator of workloads: a schedule of so many events from a seed.
//!
//! A workload opens with three nodes, a bucket and a size of blocks, and goes on in turns. A turn draws an event for
//! one of sixteen keys at one of nodes 1 to 6, and deliveries behind it; each 250th turn moves the store to other nodes
//! by a change of the layout. The numbers are those of SplitMix64 (Steele, Lea and Flood: Fast Splittable Pseudorandom
//! Number Generators, OOPSLA 2014), so a seed gives one schedule, here and anywhere.
//!
//! In specs/: the drawn numbers (`Numbers`), the turns (`Turns`, `Change`), and the schedule (`Schedule`). `schedule`
//! gives exactly that list, and fails only for want of memory.
#![tactic(auto)]

mod change;
mod duty;
mod events;
mod generator;
mod numbers;
mod roles;
mod turns;

pub use generator::schedule;
pub use store_model::Numbered;
