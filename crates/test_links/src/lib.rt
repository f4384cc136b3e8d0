//! What tests of a server share: links in memory, a server over them, and conversations of whose calls each fails in turn.
#![tactic(auto)]

mod conversations;
mod faulty;
mod recorder;
mod server;

pub use crate::conversations::{Conversation, ONE_LAYOUT, goes_on};
pub use crate::faulty::{Call, Fault, FaultyLink};
pub use crate::recorder::{Recorder, recorded};
pub use crate::server::{
    Ended, ONE_CONNECTION, SHORT_ANSWER, Session, THREE_NODES, served, served_from, served_over,
    served_with,
};
