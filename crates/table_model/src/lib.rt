//! What a table is, as definitions and laws over any rows that have a schema's words.
//!
//! A node accepts rows. Its contents are the list of those that it accepted, the newest first, without those of
//! partitions that it dropped since. The row that it has at a table number and key is `row_at`: the join of the
//! members with that table and key. `rows` are all such rows in order of table, then of key, and `merged_in`,
//! `range`, `rows_in`, `without` and `change_of` say what the calls of a table do to them (specs/Rows.antt).
//!
//! The rows of one table and partition are a set of pairs (key hash, row hash), whose root is a recursive function
//! on the bytes of the key hashes (specs/Root.antt), and `top` is the hash over all 768 roots (specs/Top.antt).
#![tactic(auto)]

mod change;
mod laws;

pub use change::Change;
pub use laws::{partitions_are_apart, rows_are_joins, same_members_give_same_rows};
