//! The history of a cluster's requests, and whether its reads are fresh.
//!
//! A `History` is a list of `Record`s in the order in which they happened. A request begins by a `Began`, and
//! finishes by the next record of its number, where that is a `Finished`. A put, copy or delete that finished
//! with a version was acknowledged with it. A get or head names its one key, a list each key of its bucket with
//! its prefix; a key that a list doesn't show has the result none.
//!
//! `fresh` says whether each finished read shows what it owes: for each key that it names, no version that is
//! below one acknowledged before the read began, and none only where a delete explains it; and each version
//! that it shows is that of a put or copy of the key. `first_stale` names the read that doesn't, and of several
//! the one that finished first. `pairs` counts what there was to check: the pairs of a
//! finished read and a write acknowledged before it began, of a key that it names. `check` says what `fresh` and
//! `pairs` say, and sorts the records once for both. All hold of any list of records. Each takes memory for one
//! entry of 16 bytes for each record, and for one row, with a copy of its bucket and key, for each acknowledged
//! write.
#![tactic(auto)]

mod checked;
mod deletes;
mod finish;
mod freshness;
mod index;
mod latest;
mod pair_count;
mod past;
mod read;
mod rows;

pub use checked::{Checked, check};
pub use freshness::{first_stale, fresh};
pub use history_model::{Answer, Cause, History, Kind, Record};
pub use pair_count::pairs;
