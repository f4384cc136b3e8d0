//! What an HTTP request asks in terms of the S3 interface.
//!
//! `understand` takes the head of a request and gives the ask, or the first refusal that applies to a head: its
//! definition, a function of the head, stands in s3_model. `announced` is the length of the body to come. The other
//! calls judge what can be judged only later: which bytes of an object a range is, where a copy comes from, and
//! whether a body has the digest that was sent with it. No call changes anything.
#![tactic(auto)]

mod asking;
mod connection;
mod header;
mod listing;
mod number;
mod pieces;
mod range;
mod refusal;
mod source;
mod stored;
mod target;
mod word;

pub use crate::asking::{length_refusal, understand};
pub use crate::connection::{closes, expects};
pub use crate::header::announced;
pub use crate::range::span;
pub use crate::refusal::{fault, head_fault};
pub use crate::source::{copy_source, is_digest, is_md5};
pub use crate::target::{has_path, path};
