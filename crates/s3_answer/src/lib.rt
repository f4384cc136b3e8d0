//! The bytes of answers of the S3 API (Amazon S3 API reference; RFC 9112 for their heads).
//!
//! `answer` takes what was asked, what is replied, the time of the request in milliseconds since 1970, and whether
//! the connection closes after the answer. It gives exactly the bytes of s3_model's `answer_text`: the status line,
//! the header lines in their order, and the body, which is the object's bytes or XML. It fails only for want of memory.
//!
//! An answer with an object may be written as its bytes come: `object_head` is all but these, and a `Portion` says which
//! of them are answered.
//!
//! Dates of headers are written by `httpdate`. The civil fields of the times of lists are those of `jiff`.
#![tactic(auto)]

mod bodies;
mod digits;
mod found;
mod lines;
mod list;
mod portion;
mod reply;
mod times;
mod url;
mod xml;

pub use crate::found::object_head;
pub use crate::portion::Portion;
pub use crate::reply::answer;
