//! The S3 interface in terms of its requests and answers (Amazon S3 API reference): what is asked, which refusal
//! comes first, and what is answered.
//!
//! `Ask` is what a request asks: an operation with its bucket, key and parameters. A request that asks nothing that
//! is served has an `S3Fault`. A list is asked by `ListAsk` and shown by a `Page` of entries. `Reply` is what an ask
//! is answered with. The crate has no code: these types, and in specs/ what their values mean.
#![tactic(auto)]

mod ask;
mod fault;
mod page;
mod place;
mod reply;

pub use crate::ask::{Ask, Range};
pub use crate::fault::{AskFault, Code, S3Fault};
pub use crate::page::{After, Entry, ListAsk, Page};
pub use crate::place::Place;
pub use crate::reply::Reply;
