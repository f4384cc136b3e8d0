//! `workload N SEED`: the schedule of N events that a seed gives is replayed, and a summary of the run is written.
//!
//! `run_workload` is the command with its output (`Summarizes`). The schedule is that of the crate `workload`, the replay and the
//! summary are replay_run's, as a schedule's replay with a check; nothing is read. The law `some_workload_is_stated` says that
//! for each workload an answer is stated.
#![tactic(auto)]

mod command;
mod laws;

pub use command::{Workload, run_workload};
pub use laws::some_workload_is_stated;
