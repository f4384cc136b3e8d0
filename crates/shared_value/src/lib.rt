//! A value that several owners share.
//!
//! A row goes to three nodes, a message to three receivers, and each of them keeps it. `Shared` is one value for all of
//! its owners: `share` gives another owner, and copies nothing but a pointer. Contracts see a `Shared` as its value, so
//! that what holds one is specified as if it had a copy of its own.
//!
//! Only `new`, `share` and a merge may fail, for want of memory or where there are more owners than can be counted.
#![tactic(auto)]

mod shared;

pub use shared::Shared;
