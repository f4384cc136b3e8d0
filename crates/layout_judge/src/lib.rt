//! Whether a layout that is handed in is lawful, without any search: whether its sets fit, what the cut weighs that is
//! handed in with it, and which of the network's vertices it lists.
//!
//! `fits` decides the definition of an assignment that fits (`Fits` of layout_roles). `weight` adds up what leaves the cut's
//! side in the network, 256 partitions times zones and nodes; a cut of less than 768 shows that nothing fits
//! (`light_cuts` of layout_flow). So sets that fit a size and a light cut of the network for the size plus 1 are the greatest.
//!
//! `listed` writes a list of vertices as a printed cut names them: those that the network has, each once and in order.
#![tactic(auto)]

mod cuts;
mod listing;
mod marks;
mod sets;

pub use cuts::weight;
pub use layout_roles::Vertex;
pub use listing::listed;
pub use sets::fits;
