//! The rows of items that many may write at once, and how two of them merge.
//!
//! A `K2vRow` is what stands of the writes of one item. Each write is named by the node that took it and a time that
//! this node gives once, and leaves a `K2vValue`. The row has for each node the `Writes` that it knows of: the values
//! that stand, by their times, and a discard time, up to which all of this node's writes were replaced.
//!
//! A reader takes a token from the row that it read (`K2vRow::token`): for each node the greatest time that it saw. A
//! writer who hands this token in (`K2vRow::put`) replaces what the token saw and nothing else, so values that two
//! wrote without having seen each other both stand.
//!
//! A row is a `Crdt`. Two rows of one item merge to what both say: at each node the greater discard time stays, and
//! the values of both that have a later time. That no value has a time of at most its node's discard time is kept in
//! the type. Of rows of two items the one with the greater key stays. `rows_join_as_facts` says what merging does to
//! what rows say, and `writes_are_facts` what a write does.
//!
//! Want of memory is the one thing that can stop a copy, a merge or a write. The row is then as it was.
//!
//! Values, writes and rows are `Field`s of row_codec, so that each has one string of bytes. `specs/Spelling.antt` says
//! which: of a row 04, the bucket, both keys behind their lengths, and behind a count for each node, ascending, its
//! number, its discard time, and behind a count its values, ascending by their times, each a time and 00 for a deletion
//! or 01 and the bytes behind their length. Numbers have the highest byte first. `specs/Reading.antt` says which row is
//! read from bytes.
#![tactic(auto)]

mod bytes;
mod k2v_row;
mod laws;
mod value;
mod writes;

pub use k2v_row::K2vRow;
pub use laws::{rows_join_as_facts, writes_are_facts};
pub use value::K2vValue;
pub use writes::Writes;
