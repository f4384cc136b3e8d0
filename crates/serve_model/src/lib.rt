//! What is written to the connections of an S3 server: a function of their bytes, over any store that carries out jobs.
//!
//! A store is a record of one function (`Stores`): a job at a time gives the state after it and its end. `Talk` says
//! what comes of one request, of a connection with its requests one after the other, and where it may be cut off; it
//! judges a request by the refusals in their order (s3_model; `Admitting`: those of its head, with its signature;
//! `Judging`: those of its body), and answers by s3_model's bytes. The store of
//! today is the cluster itself, whose requests are acts of a run (`Clusters`). `Serving` and `Connections` say how code
//! serves one request and all connections. The crate has no code: these types, which model and code share.
//! What is said of answers rests on one reader of heads, which there is (`grammar_is_there`, `grammar_is_one`).
#![tactic(auto)]

mod admitted;
mod answer;
mod buckets;
mod gets;
mod grammar;
mod request;
mod served;
mod upload;

pub use crate::admitted::{Admitted, Signer};
pub use crate::answer::Answer;
pub use crate::buckets::Buckets;
pub use crate::gets::gets_lie_within_their_connection;
pub use crate::grammar::{grammar_is_one, grammar_is_there};
pub use crate::request::Request;
pub use crate::served::{ServeFault, Served};
pub use crate::upload::Upload;
