//! The rows of the object store, as what the cluster needs to know of rows.
//!
//! `S3Schema` is the `Schema` of the rows of `crdt_rows` and their bytes of `row_codec`:
//!
//! - Table 1 has object rows, at the position of their bucket, table 2 version rows, at the BLAKE2b-256 digest of
//!   their identifier as 8 bytes, and table 3 reference rows, at their block's hash.
//! - A reference row needs its block until it is deleted, and no other row needs one.
//! - When an object row no longer holds a version that may have blocks, or holds one that is aborted since, the
//!   version's row is to be deleted. When a version row becomes deleted, its reference to each different block is
//!   to be deleted. `specs/Triggers.antt` says which rows these are, in which order.
//!
//! Objects whose newest version is a delete marker, and nothing else, have a `marker`: the row is a tombstone.
#![tactic(auto)]

mod hashes;
mod object_triggers;
mod place;
mod schema;
mod sets;
mod version_triggers;

pub use schema::S3Schema;
