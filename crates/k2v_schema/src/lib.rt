//! The rows of items as what the cluster needs to know of rows, and their bytes, both ways.
//!
//! `K2vSchema` is the `Schema` of the rows of `k2v_rows`. All of them are of table 1. A row lies at the BLAKE2b-256
//! digest of its bucket and partition key, and its key is the bucket, the partition key behind its length, and the
//! sort key. No row needs a block, has a marker or calls for other rows.
//!
//! Which bytes a row has, k2v_rows says (`specs/Spelling.antt`). Here is the row alone:
//!
//! - `encode` writes the bytes of a row. A row with a length or a count of 2^32 or more has none, and `encode`
//!   answers `Full` for exactly such rows.
//! - `length` is how many bytes that are, and writes none.
//! - `decode` gives the row that has some bytes, or `NotARow` exactly where no row has them.
//! - `rows_are_read_back` says that the two agree.
#![tactic(auto)]

mod codec;
mod place;
mod schema;

pub use codec::{decode, encode, length, rows_are_read_back};
pub use schema::K2vSchema;
