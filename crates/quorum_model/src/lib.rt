//! When the phases of a request end, and with what: sentences over the lists of answers that came.
//!
//! - A store phase has a `StoreSlot` for each of its rows. It ends when each slot is `reached`: two of the three
//!   nodes of each set have confirmed, for every version that counts.
//! - A read phase ends at the answer of the second different node, with the two rows `merged`.
//! - A range phase ends likewise. Each answer has the first rows of a part of the table, so what both show whole
//!   goes to the least last key of those that have more: the `window` of the two.
//!
//! The definitions are in specs/. The functions here have laws as their contracts, and their bodies do nothing.
#![tactic(auto)]

mod laws;
mod range;

pub use laws::{answers_settle, confirmations_count_once, windows_merge};
pub use range::RangeAnswer;
