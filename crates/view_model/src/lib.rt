//! What a node knows of the cluster's layout versions, and what follows from it: the definitions, in
//! specs/, that code and the cluster's laws share, and what holds of them however a view changes.
#![tactic(auto)]

mod laws;

pub use laws::{read_versions_are_stored, the_newest_stays, views_grow, views_join};
