//! What the cluster needs to know of the rows of its tables, and no more.
//!
//! A row is of one of three tables, and has a key there. Where it is kept, its position says: 32 bytes, of which
//! the first is its partition. A row can name a block that it needs as long as it is live, and its change can call
//! for other rows. Rows travel as bytes.
//!
//! A `Schema` says all this of its rows as functions, its `words`, which its calls compute, and which have the laws
//! of `Laws` in specs/. Whoever is generic over a schema knows these laws alone: `rows_are_read_back`,
//! `rows_have_one_place`, `merged_rows_stay` and `small_rows_need_no_block` name them.
#![tactic(auto)]

mod laws;
mod schema;

pub use laws::{
    merged_rows_stay, rows_are_read_back, rows_have_one_place, small_rows_need_no_block,
};
pub use schema::{RowFault, Schema, partition};
