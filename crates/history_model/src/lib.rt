//! The history of a cluster's requests, as records, and what it means that reads are fresh.
//!
//! A `History` is a list of `Record`s in the order in which they happened. A request begins by a `Began`, and
//! finishes by the next record of its number, where that is a `Finished`. A put, copy or delete that finished
//! with a version was acknowledged with it. A get or head names its one key, a list each key of its bucket with
//! its prefix; a key that a list doesn't show has the result none.
//!
//! In specs/: what records say (`Record`), what each finished read owes, told from the records alone (`Fresh`), and
//! how many pairs of a read and a write there are (`Pairs`). The types are shared by the definitions of a run and by
//! the code that decides freshness.
#![tactic(auto)]

mod record;

pub use record::{Answer, Cause, History, Kind, Record};
