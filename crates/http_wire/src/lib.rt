//! Heads and bodies of HTTP requests (RFC 9112), read from the connection of a link.
//!
//! A head ends with its first empty line, and only then are its bytes given to `httparse`, once. `read_head`
//! answers what they say, `read_body` answers the bytes that were announced. What was read too far stands in
//! `Kept`, and is the beginning of what is read next: between them the calls lose no byte and read none twice,
//! whatever they answer.
//!
//! `end` finds where a head ends, `parse` reads its bytes, `pieces` brings bytes from the connection.
#![tactic(auto)]

mod body;
mod end;
mod head;
mod parse;
mod pieces;
mod whole;

pub use crate::body::read_body;
pub use crate::head::HeadEnd;
pub use crate::pieces::Kept;
pub use crate::whole::read_head;
pub use http_model::Head;
