//! What a comparison of a run with a transcript comes to.

/// What a comparison of a run with a transcript comes to.
#[derive(Clone, Copy, Debug, PartialEq, Eq)]
pub enum Compared {
    /// The lines of the transcript are those of the run.
    Same,
    /// This line is the first that differs, counted from 1.
    Differs(u64),
    /// The first lines are those of whole events, and in the next event more is sent than may be.
    TooMuch,
}
