//! The requests of the object store, phase by phase.
//!
//! `ObjectFlows` is the instance of flow_model's trait `Flows` for them:
//!
//! - `start` begins a request: it gives a `Flow` and the phase that it waits for.
//! - `next` takes a flow and the end of its phase, and gives a `FlowStep`: the flow with its next phase, the flow that
//!   waits on, or the end of the request.
//!
//! Both are the functions that flow_model defines for every kind of order: puts inline and in blocks, gets, heads,
//! deletes, copies and lists. They fail for want of memory; `next` answers `Full` exactly where a write would draw a
//! timestamp of 2^64. After an error the flow is gone.
//!
//! The bytes of a put are moved from the order to the row. A block is copied out of the body that it is a piece of, an
//! inline body into and out of its row. A get keeps the blocks that it reads, with their other owners; a copy joins them.
#![tactic(auto)]

mod begins;
mod blocks;
mod goes_on;
mod objects;
mod phases;
mod reads;
mod request;
mod rows;
mod says;
mod streams;
mod writes;

pub use objects::ObjectFlows;
