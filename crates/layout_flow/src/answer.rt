//! What a greatest flow shows.
use layout_roles::{Assignment, Cut};

/// What a greatest flow shows.
#[derive(Debug, Drop)]
pub enum FlowOrCut {
    /// A flow of three copies of each partition, as the assignment that it stands for.
    Flow(Assignment),
    /// A cut that lets less through.
    Cut(Cut),
}
