//! A server of S3 over a cluster in the program itself, as one call.
//!
//! `run_server` takes a port and a number of connections (`Server`), the outside as a source, a sink, a link and a clock, and answers
//! the status with which the program ends (`Serves`). `plan` reads the configuration and computes its layout; `start` makes the
//! world in which that layout is installed, `tail` is what is written at the end, and `stop` is why there was no end.
#![tactic(auto)]

mod plan;
mod server;
mod start;
mod stop;
mod tail;

pub use crate::server::{Server, run_server};
