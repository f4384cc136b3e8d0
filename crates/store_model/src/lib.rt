//! The object store over the cluster: what a run of acts does, for every kind of request, and what its reads owe.
//!
//! A state has a world of the machine, the buckets, the size of blocks, the requests with what each waits for, and a
//! history: the records of requests (history_model), the versions that writes drew, and what phases gave. An act is a
//! step of the world, a first layout that is installed, a request at a node, a delivery, deliveries up to a number, that
//! delivered messages are forgotten, that the end of a request is taken, a bucket, a size of blocks, or what the client of
//! a streamed put does. One rule says how any request goes on in the very step in which its phase ends: as its flow does
//! (flow_model).
//!
//! A schedule is a list of `Event`s, each an act; an event that computes a layout is given it, so that a run of a schedule
//! is one of a list of turns, an event and what is given to it. Each event answers what it `Told`.
//!
//! In specs/: what the history says of an order (`Orders`) and of a request that ended (`Answers`, with its line), the
//! state and its requests (`Run`), acts (`Acts`), a schedule's events as acts (`Events`), which turns are lawful and when
//! everything fits after them (`Turns`), fresh reads (`Fresh`), and what is told of versions' bytes (`Written`).
#![tactic(auto)]

mod event;

pub use event::{Event, Numbered, Told};
