//! Requests for items that many may write at once, over the cluster: what a run of acts does, and what its reads owe.
//!
//! An item has a bucket, a partition key and a sort key. A request writes a value of it, or that there is none, or reads
//! what stands. A read asks for the item's row. A write does so too, and then stores the row that it read with two
//! changes: its own value stands in it, at its node and its number; and what it replaces is discarded, which is all that
//! the read has shown whose number it gives as its token.
//!
//! In specs/: items, their rows and tokens (`Orders`), the state, its requests and how they go on (`Run`), acts (`Acts`),
//! and what reads owe to writes (`Owed`).
#![tactic(auto)]

mod line;
mod order;

pub use line::{ItemLine, ItemRefusal, ShownValue};
pub use order::{Ask, Item, Order};
