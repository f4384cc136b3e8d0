//! What is computed for a layout.
use crate::assignment::Assignment;
use crate::cut::Cut;

/// The greatest partition size of roles, an assignment that fits it, and the cut for the next size.
#[derive(Debug, Drop)]
pub struct Certified {
    /// In how many zones each set of three lies at least, 1 to 3.
    pub r: u8,
    /// The partition size in bytes.
    pub size: u64,
    pub sets: Assignment,
    /// What shows that no assignment fits a size that is greater by one byte.
    pub cut: Cut,
}
