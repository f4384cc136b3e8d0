//! What a request comes to.
use s3_model::{Code, Reply};

/// What a request comes to that nothing refused before the store was asked.
#[derive(Drop)]
pub enum Answer {
    /// It is answered so.
    Reply(Reply),
    /// It is refused after all: there is no such object, or its range isn't one of it.
    Refusal(Code),
    /// It isn't answered: it was superseded, or its end is none of its operation.
    Nothing,
}
