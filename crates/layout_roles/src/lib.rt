//! The roles that nodes have in a layout, the sets of nodes that a layout gives its partitions, and the names of zones
//! and buckets.
#![tactic(auto)]

mod assignment;
mod certified;
mod cut;
mod laws;
mod layout;
mod names;
mod redundancy;
mod role;
mod roles;
mod sets;
mod vertex;
mod zones;

pub use assignment::{Assignment, PARTITIONS};
pub use certified::Certified;
pub use cut::Cut;
pub use laws::smaller_sizes;
pub use layout::Layout;
pub use names::{is_bucket_name, is_name_byte, is_zone_name};
pub use redundancy::Redundancy;
pub use role::{Kind, Role, Zone};
pub use roles::Roles;
pub use sets::in_order;
pub use vertex::Vertex;
pub use zones::zone_names;
