//! Dates and times of UTC, in words of `jiff`: the day that comes so many days after 1 January 1970, and the seconds
//! of a date that is written `YYYYMMDDTHHMMSSZ`.
//!
//! The crate has no code. Its definitions are in specs/; proofs/Civil.antt has the one lemma that says which date and
//! time `jiff` shows at a time of so many milliseconds.
#![tactic(auto)]
