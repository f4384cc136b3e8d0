//! The assignment of a partition size that moves the fewest copies, with the potentials that show that none moves fewer.
#![tactic(auto)]

mod answer;
mod auction;
mod bids;
mod count;
mod fault;
mod head_start;
mod laws;
mod moved;
mod offers;
mod paths;
mod potentials;
mod rounding;
mod sets;
mod settle;

pub use answer::fewest;
pub use fault::MoveFault;
pub use laws::potentials_bound;
pub use moved::Moved;
