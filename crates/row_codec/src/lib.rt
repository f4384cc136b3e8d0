//! The bytes of rows, both ways.
//!
//! A row is stored and sent as bytes. `specs/Spelling.antt` is the table of them: numbers have 4 or 8 bytes, the
//! highest first, a string of bytes stands behind its length, a list behind its count, and the entries of a map
//! ascend by their keys.
//!
//! - `encode` writes the bytes of a row. A row with a length or a count of 2^32 or more has none, and `encode`
//!   answers `Full` for exactly such rows.
//! - `length` is how many bytes that are, and writes none.
//! - `decode` gives the row that has some bytes, or `NotARow` exactly where no row has them: where the bytes end
//!   within a row or go on behind it, where entries of a map don't ascend, where a version that isn't the first of
//!   an object is complete, or where inline bytes aren't as many as their size says.
//! - `rows_are_read_back` says that the two agree: each row has one string of bytes, and each string of bytes is
//!   that of one row at most.
//! - `states_are_ordered_as_bytes` says that of two states of a version the greater, which stays where they merge,
//!   is the one with the greater bytes.
//!
//! Each part of a row is a `Field`, which writes itself at the end of bytes and is read from their front, with a `Fault`
//! where it can't be. The parts of other rows are fields too (k2v_rows).
#![tactic(auto)]

mod codec;
mod fault;
mod field;
mod lists;
mod maps;
mod numbers;
mod order;
mod parts;
mod rows;

pub use codec::{decode, encode, length, rows_are_read_back};
pub use fault::Fault;
pub use field::Field;
pub use order::states_are_ordered_as_bytes;
