//! Values that merge, in any order and any number of times: the rows that replicas send each other.
//!
//! A replica takes in what it is sent by `Crdt::merge`. Merging is commutative, associative and
//! idempotent, which each type proves as part of the trait, so replicas that took in the same rows are
//! equal, however the rows were ordered or repeated on the way. Two of one kind merge like this:
//!
//! - `Bool` by "or", and `Max` to the greater value.
//! - `Lww` to the later one, and `Keyed` to the one with the greater key. At a tie what they hold merges.
//! - `Map` key by key, `Pair` part by part.
//! - `Deletable` to `Deleted` where either is.
//!
//! The types nest: each has the laws wherever the types that it holds have them. `Value` is what keys and
//! the values of `Max` are, ordered and copied. `Bytes` and `List` are vectors that contracts see as lists.
//!
//! Merging gives an order: a row is at most another where merging it into that one changes nothing.
//! `rows_are_ordered`, `lists_join` and `maps_join_by_key` say what the crates above may use of it, and
//! `join` is the join of a slice of rows.
//!
//! Want of memory is the one thing that can stop a copy or a merge. It answers `Memory::Want`, and the
//! value is then as it was.
#![tactic(auto)]

mod bytes;
mod crdt;
mod deletable;
mod flag;
mod joins;
mod keyed;
mod laws;
mod list;
mod lww;
mod map;
mod max;
mod memory;
mod pair;
mod value;

pub use bytes::Bytes;
pub use crdt::Crdt;
pub use deletable::Deletable;
pub use flag::Bool;
pub use joins::{copy_row, copy_rows, join};
pub use keyed::Keyed;
pub use laws::{lists_join, maps_join_by_key, rows_are_ordered};
pub use list::List;
pub use lww::Lww;
pub use map::{LwwMap, Map};
pub use max::Max;
pub use memory::Memory;
pub use pair::Pair;
pub use value::Value;
