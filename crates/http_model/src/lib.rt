//! Heads of HTTP requests (RFC 9112) in terms of bytes: where one ends, and what it says.
//!
//! `Head` is what a head says. The crate has no code: this type, which definitions and code share, and in specs/ what
//! the bytes of a connection begin with (`Cut`) and what the bytes of a head say (`Heads`).
#![tactic(auto)]

mod head;

pub use crate::head::Head;
