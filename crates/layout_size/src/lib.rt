//! The greatest partition size that an assignment fits, and the cut that shows that none fits a greater one.
#![tactic(auto)]

mod answer;
mod fault;
mod search;

pub use answer::compute;
pub use fault::LayoutFault;
pub use layout_roles::Certified;
