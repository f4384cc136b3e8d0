//! An S3 server over HTTP: connections one after the other, requests one after the other, over any store that
//! carries out orders.
//!
//! What is written to a connection is a function of its bytes (serve_model), over the states that the store goes
//! through. `serve_request` serves one request of the connection that is present, `serve` all connections. A `Storage`
//! is what both need of a store: a call that carries out an order at a time, two by which a get is taken piece by piece, and
//! four by which an upload is given block by block.
//!
//! Inside, `admitting` says what a head asks and who asks it, or which refusal of it comes first; `judging` says which
//! refusal comes first once a body was read, what the store is asked, and what its end is answered with; `saying` writes
//! answers, and `giving` those to gets, as their bytes come; `taking` gives the store the bytes of an upload as they come,
//! whose digests are taken in `sums`; `request`, `connection` and `service` are the three layers of serving.
#![tactic(auto)]

mod admitting;
mod answers;
mod connection;
mod counting;
mod giving;
mod judging;
mod orders;
mod request;
mod saying;
mod service;
mod storage;
mod sums;
mod taking;

pub use crate::request::serve_request;
pub use crate::service::{ServeStop, serve};
pub use crate::storage::{Got, Storage};
